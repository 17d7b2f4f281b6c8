// A stream on the caller's slice.
#![tactic(auto)]

ghost use Rattle.std.specs.Prelude.{◌≡◌, ℕ, ◌+◌, ◌-◌, ◌^◌, ◌≤◌, min, ◌++◌, length, take, drop, replicate};
ghost use Rattle.memory.specs.Room.{room, file, InRoom};

use calls::goal::{goal_of, size_of_cut};
use calls::refusal::{Call, Origin, Refusal, Whence};
use stream::raw::RawStream;

// A stream on the caller's slice, of which the first `len` bytes are shown. No heap is used, so the slice is the caller's and does
// not grow: `len` stands beside it.
#[derive(Drop)]
pub struct MemoryStream<'a> {
    bytes: &'a mut [u8],
    len: usize,
    pos: usize,
    ghost in_room: { InRoom bytes.now len pos },
}

fn capped(n: usize) -> usize
    ensures { result ≡ min n (2 ^ 62) }
{
    n.min(1 << 62)
}

impl<'a> MemoryStream<'a> {
    ghost use Rattle.stream.specs.Stream.{origin as starts};
    ghost use Rattle.memory.specs.Memory.{memory};

    // A stream on a slice, with the first `len` of its bytes, cut to the limit.
    pub fn new(bytes: &'a mut [u8], len: usize) -> MemoryStream<'a>
        ensures { memory result ≡ file bytes.old (min len (room bytes.old)) 0 }
    {
        let len = len.min(capped(bytes.len()));
        MemoryStream { bytes, len, pos: 0 }
    }

    // The position.
    pub fn position(&self) -> u64
        ensures { result ≡ (memory self.now).position }
    {
        self.pos as u64
    }

    // The place that a seek counts from.
    fn start_of(&self, origin: Whence) -> u64
        ensures { result ≡ starts (memory self.now) origin }
    {
        match origin {
            Whence::Start => 0,
            Whence::Current => self.position(),
            Whence::End => self.len as u64,
        }
    }

    // Gives out the bytes from the position on.
    fn fetch(&self, buf: &mut [u8])
        requires { self.now.pos + length buf.old ≤ length self.now.bytes.now }
        ensures { buf.new ≡ take (length buf.old) (drop self.now.pos self.now.bytes.now) }
    {
        let pos = self.pos;
        let n = buf.len();
        buf.copy_from_slice(&self.bytes[pos..pos + n]);
    }

    // Writes zeros from one place to another.
    fn clear(&mut self, from: usize, to: usize)
        requires { (from ≤ to) × (to ≤ length self.old.bytes.now) }
        ensures bytes { self.new.bytes.now ≡ take from self.old.bytes.now ++ (replicate (to - from) 0 ++ drop to self.old.bytes.now) }
        ensures rest { (self.new.len ≡ self.old.len) × (self.new.pos ≡ self.old.pos) }
    {
        self.bytes[from..to].fill(0);
    }

    // Lays bytes at a place.
    fn lay(&mut self, at: usize, buf: &[u8])
        requires { at + length buf.now ≤ length self.old.bytes.now }
        ensures bytes { self.new.bytes.now ≡ take at self.old.bytes.now ++ (buf.now ++ drop (at + length buf.now) self.old.bytes.now) }
        ensures rest { (self.new.len ≡ self.old.len) × (self.new.pos ≡ self.old.pos) }
    {
        let n = buf.len();
        self.bytes[at..at + n].copy_from_slice(buf);
    }
}

// A call that promises more than the trait has to repeat the trait's clauses.
impl<'a> RawStream for MemoryStream<'a> {
    ghost use Rattle.std.specs.Prelude.{Ok, refl};
    ghost use Rattle.calls.specs.Places.{whence_for, size_of};
    ghost use Rattle.stream.specs.Stream.{Leaves, ReadInto, Write, SeekBy, Tell, Truncate, Flush, Whole, left};
    ghost use Rattle.stream.specs.Answers.{all_read, all_written, seek_answer, cut_answer};
    ghost use Rattle.memory.specs.Memory.{memory, memory_pile};
    ghost use Rattle.memory.specs.Room.{sound_file};

    ghost view = { memory };

    ghost pile = { memory_pile };

    ghost sound = { λ m. sound_file m.bytes.now m.len m.pos m.in_room };

    ghost based = { λ m. refl };

    // Reads all that fits and is left.
    fn readinto(&mut self, buf: &mut [u8]) -> Result<usize, Refusal>
        ensures leaves { Leaves Call.ReadInto (memory self.new) (memory_pile self.old) (memory_pile self.new) result }
        ensures rule { ReadInto (memory self.old) (memory self.new) buf.old buf.new result }
        ensures whole { Whole (memory_pile self.old) (memory self.old) (min (length buf.old) (left (memory self.old))) result }
        ensures answer { result ≡ all_read (memory self.old) (length buf.old) }
    {
        let pos = self.pos;
        let n = buf.len().min(self.len.saturating_sub(pos));
        self.fetch(&mut buf[..n]);
        self.pos = pos + n;
        Ok(n)
    }

    // Writes all, or is refused by 12.
    fn write(&mut self, buf: &[u8]) -> Result<usize, Refusal>
        ensures leaves { Leaves Call.Write (memory self.new) (memory_pile self.old) (memory_pile self.new) result }
        ensures rule { Write (memory self.old) (memory self.new) buf.now result }
        ensures whole { Whole (memory_pile self.old) (memory self.old) (length buf.now) result }
        ensures answer { result ≡ all_written (memory self.old) (length buf.now) }
    {
        let limit = capped(self.bytes.len());
        let pos = self.pos;
        let len = self.len;
        let n = buf.len();
        if n > limit - pos {
            return Err(Refusal::PastLimit(Origin::own(Call::Write, pos as u64)));
        }
        if n == 0 {
            return Ok(0);
        }
        self.clear(len.min(pos), pos);
        self.lay(pos, buf);
        self.len = len.max(pos + n);
        self.pos = pos + n;
        Ok(n)
    }

    // Goes to the goal, or is refused by 6 or 11.
    fn seek(&mut self, target: i64, whence: i32) -> Result<u64, Refusal>
        ensures leaves { Leaves Call.Seek (memory self.new) (memory_pile self.old) (memory_pile self.new) result }
        ensures rule { SeekBy (memory self.old) (memory self.new) target (whence_for whence) result }
        ensures answer { result ≡ seek_answer (memory self.old) target (whence_for whence) }
    {
        let start = self.start_of(Whence::try_from(whence)?);
        let v = goal_of(target, start, self.limit()).ok_or(Refusal::OutOfRange(Origin::own(
            Call::Seek,
            self.position(),
        )))?;
        self.pos = v as usize;
        Ok(v)
    }

    // Answers the position.
    fn tell(&mut self) -> Result<u64, Refusal>
        ensures leaves { Leaves Call.Tell (memory self.new) (memory_pile self.old) (memory_pile self.new) result }
        ensures rule { Tell (memory self.old) (memory self.new) result }
        ensures same { self.new ≡ self.old }
        ensures answer { result ≡ Ok (memory self.old).position }
    {
        Ok(self.pos as u64)
    }

    // Cuts or lengthens to the size, or is refused by 11.
    fn truncate(&mut self, size: Option<i64>) -> Result<u64, Refusal>
        ensures leaves { Leaves Call.Truncate (memory self.new) (memory_pile self.old) (memory_pile self.new) result }
        ensures rule { Truncate (memory self.old) (memory self.new) (size_of (memory self.old).position size) result }
        ensures answer { result ≡ cut_answer (memory self.old) size }
    {
        let v = size_of_cut(size, self.position(), self.limit()).ok_or(Refusal::OutOfRange(
            Origin::own(Call::Truncate, self.position()),
        ))?;
        let n = v as usize;
        self.clear(self.len.min(n), n);
        self.len = n;
        Ok(v)
    }

    // All is stored already.
    fn flush(&mut self) -> Result<(), Refusal>
        ensures leaves { Leaves Call.Flush (memory self.new) (memory_pile self.old) (memory_pile self.new) result }
        ensures rule { Flush (memory self.old) (memory self.new) result }
        ensures same { self.new ≡ self.old }
        ensures answer { result ≡ Ok tt }
    {
        Ok(())
    }

    // The slice's length, capped at 2^62.
    fn limit(&self) -> u64 {
        capped(self.bytes.len()) as u64
    }
}
