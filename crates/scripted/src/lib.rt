// A memory stream whose calls a script may cut short or refuse.
#![tactic(auto)]

ghost use Rattle.std.specs.Prelude.{◌≡◌, ℕ, min, List, length, drop, Some, None, Ok, Err, ◌≢◌, refl};
ghost use Rattle.calls.specs.Refusal.{own};
ghost use Rattle.calls.specs.Places.{whence_for, size_of};
ghost use Rattle.stream.specs.Stream.{Leaves, ReadInto, Write, SeekBy, Tell, Truncate, Flush, Whole, left};
ghost use Rattle.stream.specs.Answers.{all_read, all_written, seek_answer, cut_answer};
ghost use Rattle.memory.specs.Room.{room, file, sound_file};
ghost use Rattle.memory.specs.Memory.{memory};
ghost use Rattle.script.specs.Script.{entries_left, verdict};
ghost use Rattle.scripted.specs.Scripted.{scripted, scripted_pile, granting, at_most, sound_under};

use calls::refusal::{Call, Origin, Refusal, Whence};
use memory::MemoryStream;
use script::{Entry, Script};
use stream::raw::RawStream;

#[derive(Drop)]
pub struct ScriptedStream<'a> {
    memory: MemoryStream<'a>,
    script: Script<'a>,
}

impl<'a> ScriptedStream<'a> {
    // A memory stream on a slice, with the first `len` of its bytes, as `MemoryStream::new` takes them, and a list of entries.
    pub fn new(bytes: &'a mut [u8], len: usize, entries: &'a [Entry]) -> ScriptedStream<'a>
        ensures made { memory result.memory ≡ file bytes.old (min len (room bytes.old)) 0 }
        ensures entries { entries_left result.script ≡ entries.now }
    {
        ScriptedStream {
            memory: MemoryStream::new(bytes, len),
            script: Script::new(entries),
        }
    }
}

// A call that promises more than the trait has to repeat the trait's clauses. What it uses of the script relates the stream before and
// after it, so that no type can hold it; and a method that takes an entry for all six would have to promise that the memory stays.
impl<'a> RawStream for ScriptedStream<'a> {
    ghost view = { scripted };

    ghost pile = { scripted_pile };

    ghost sound = { λ s. sound_under (memory s.memory) (entries_left s.script) (sound_file s.memory.bytes.now s.memory.len s.memory.pos s.memory.in_room) };

    ghost based = { λ s. refl };

    // Reads at most as many bytes as the entry lets move.
    fn readinto(&mut self, buf: &mut [u8]) -> Result<usize, Refusal>
        ensures leaves { Leaves Call.ReadInto (scripted self.new) (scripted_pile self.old) (scripted_pile self.new) result }
        ensures rule { ReadInto (scripted self.old) (scripted self.new) buf.old buf.new result }
        ensures whole { Whole (scripted_pile self.old) (scripted self.old) (min (length buf.old) (left (scripted self.old))) result }
        ensures answer { result ≡ granting (verdict (entries_left self.old.script) (own Call.ReadInto (scripted self.old).position)) (at_most (all_read (scripted self.old) (length buf.old))) }
        ensures used { entries_left self.new.script ≡ drop 1 (entries_left self.old.script) }
    {
        let most = self.script.next(Call::ReadInto, self.memory.position())?;
        let k = buf.len().min(most);
        self.memory.readinto(&mut buf[..k])
    }

    // Writes at most as many bytes as the entry lets move; the limit is tested for all that was handed in.
    fn write(&mut self, buf: &[u8]) -> Result<usize, Refusal>
        ensures leaves { Leaves Call.Write (scripted self.new) (scripted_pile self.old) (scripted_pile self.new) result }
        ensures rule { Write (scripted self.old) (scripted self.new) buf.now result }
        ensures whole { Whole (scripted_pile self.old) (scripted self.old) (length buf.now) result }
        ensures answer { result ≡ granting (verdict (entries_left self.old.script) (own Call.Write (scripted self.old).position)) (at_most (all_written (scripted self.old) (length buf.now))) }
        ensures used { entries_left self.new.script ≡ drop 1 (entries_left self.old.script) }
    {
        let pos = self.memory.position();
        let most = self.script.next(Call::Write, pos)?;
        if buf.len() as u64 > self.memory.limit() - pos {
            return Err(Refusal::PastLimit(Origin::own(Call::Write, pos)));
        }
        let k = buf.len().min(most);
        self.memory.write(&buf[..k])
    }

    // A whence that is refused uses no entry.
    fn seek(&mut self, target: i64, whence: i32) -> Result<u64, Refusal>
        ensures leaves { Leaves Call.Seek (scripted self.new) (scripted_pile self.old) (scripted_pile self.new) result }
        ensures rule { SeekBy (scripted self.old) (scripted self.new) target (whence_for whence) result }
        ensures refused { whence_for whence ≡ None → (result ≡ Err Refusal.BadWhence) × (self.new ≡ self.old) }
        ensures answer { (whence_for whence ≢ None) → result ≡ granting (verdict (entries_left self.old.script) (own Call.Seek (scripted self.old).position)) (λ _. seek_answer (scripted self.old) target (whence_for whence)) }
        ensures used { (whence_for whence ≢ None) → entries_left self.new.script ≡ drop 1 (entries_left self.old.script) }
    {
        Whence::try_from(whence)?;
        self.script.next(Call::Seek, self.memory.position())?;
        self.memory.seek(target, whence)
    }

    fn tell(&mut self) -> Result<u64, Refusal>
        ensures memory { self.new.memory ≡ self.old.memory }
        ensures leaves { Leaves Call.Tell (scripted self.new) (scripted_pile self.old) (scripted_pile self.new) result }
        ensures rule { Tell (scripted self.old) (scripted self.new) result }
        ensures answer { result ≡ granting (verdict (entries_left self.old.script) (own Call.Tell (scripted self.old).position)) (λ _. Ok (scripted self.old).position) }
        ensures used { entries_left self.new.script ≡ drop 1 (entries_left self.old.script) }
    {
        self.script.next(Call::Tell, self.memory.position())?;
        self.memory.tell()
    }

    fn truncate(&mut self, size: Option<i64>) -> Result<u64, Refusal>
        ensures leaves { Leaves Call.Truncate (scripted self.new) (scripted_pile self.old) (scripted_pile self.new) result }
        ensures rule { Truncate (scripted self.old) (scripted self.new) (size_of (scripted self.old).position size) result }
        ensures answer { result ≡ granting (verdict (entries_left self.old.script) (own Call.Truncate (scripted self.old).position)) (λ _. cut_answer (scripted self.old) size) }
        ensures used { entries_left self.new.script ≡ drop 1 (entries_left self.old.script) }
    {
        self.script.next(Call::Truncate, self.memory.position())?;
        self.memory.truncate(size)
    }

    fn flush(&mut self) -> Result<(), Refusal>
        ensures memory { self.new.memory ≡ self.old.memory }
        ensures leaves { Leaves Call.Flush (scripted self.new) (scripted_pile self.old) (scripted_pile self.new) result }
        ensures rule { Flush (scripted self.old) (scripted self.new) result }
        ensures answer { result ≡ granting (verdict (entries_left self.old.script) (own Call.Flush (scripted self.old).position)) (λ _. Ok tt) }
        ensures used { entries_left self.new.script ≡ drop 1 (entries_left self.old.script) }
    {
        self.script.next(Call::Flush, self.memory.position())?;
        self.memory.flush()
    }

    fn limit(&self) -> u64 {
        self.memory.limit()
    }
}
