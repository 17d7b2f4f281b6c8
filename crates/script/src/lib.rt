// A list of entries, of which each call uses one.
#![tactic(auto)]

ghost use Rattle.std.specs.Prelude.{◌≡◌, drop};
ghost use Rattle.calls.specs.Refusal.{own};
ghost use Rattle.script.specs.Script.{entries_left, entry_of, judged, second, verdict};

use calls::refusal::{Call, Origin, Refusal};

// What an entry says to the call that uses it.
#[derive(Clone, Copy, Debug, PartialEq, Eq)]
pub enum Entry {
    // At most so many bytes are moved; 0 is not now.
    AtMost(u32),
    NotNow,
    // A bad count, a bad position, or at a call that answers neither a fault with this code.
    Bad(u32),
    // A fault with this code.
    Fault(u32),
}

// A kind and a number: the kinds 0, 1 and 2 in the order above, and any other is a fault.
// The lemmas of proofs/Numbers.antt say by the two numbers what the entry says.
impl From<(u8, u32)> for Entry {
    ghost from_gives = { λ numbers entry. entry ≡ entry_of numbers.0 numbers.1 };

    fn from((kind, n): (u8, u32)) -> Entry {
        match kind {
            0 => Entry::AtMost(n),
            1 => Entry::NotNow,
            2 => Entry::Bad(n),
            _ => Entry::Fault(n),
        }
    }
}

impl Entry {
    // How many bytes it lets a call move, or why it is refused.
    fn judge(self, o: Origin) -> Result<usize, Refusal>
        ensures { result ≡ judged self o }
    {
        match self {
            Entry::AtMost(0) | Entry::NotNow => Err(Refusal::NotNow(o)),
            Entry::AtMost(n) => Ok(n as usize),
            Entry::Bad(n) => Err(bad(o, n)),
            Entry::Fault(n) => Err(Refusal::Fault(o, n)),
        }
    }
}

// What a bad entry says to this call.
fn bad(o: Origin, n: u32) -> Refusal
    ensures { result ≡ second o n o.call }
{
    match o.call {
        Call::ReadInto | Call::Write => Refusal::BadCount(o),
        Call::Seek | Call::Tell => Refusal::BadPosition(o),
        Call::Truncate | Call::Flush => Refusal::Fault(o, n),
    }
}

#[derive(Drop)]
pub struct Script<'a> {
    // The entries that are left.
    left: &'a [Entry],
}

impl<'a> Script<'a> {
    // A script of which no entry is used.
    pub fn new(entries: &'a [Entry]) -> Script<'a>
        ensures { entries_left result ≡ entries.now }
    {
        Script { left: entries }
    }

    // Uses an entry, if one is left: how many bytes the call may move, or why it is refused.
    pub fn next(&mut self, call: Call, position: u64) -> Result<usize, Refusal>
        ensures answer { result ≡ verdict (entries_left self.old) (own call position) }
        ensures used { entries_left self.new ≡ drop 1 (entries_left self.old) }
    {
        let [entry, left @ ..] = self.left else {
            return Ok(usize::MAX);
        };
        self.left = left;
        entry.judge(Origin::own(call, position))
    }
}
