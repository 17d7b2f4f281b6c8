ghost use Rattle.std.specs.Prelude.{◌≡◌, min, length};
ghost use Rattle.calls.specs.Places.{whence_for, size_of};
ghost use Rattle.stream.specs.Stream.{Stream, Pile, Based, Sound, Leaves, ReadInto, Write, SeekBy, Tell, Truncate, Flush, Whole, left};

use calls::refusal::{Call, Refusal};

// A raw stream. Its meaning is in specs/Stream.antt: each call leaves what every call leaves, and follows its own rule, granted and
// refused. Every stream is in order, from its making on: the two laws at the end say so.
pub trait RawStream {
    // The six parts.
    ghost view: { Self → Stream };

    // What it stands on.
    ghost pile: { Self → Pile };

    // Reads into the front of the buffer, and answers the count.
    fn readinto(&mut self, buf: &mut [u8]) -> Result<usize, Refusal>
        ensures leaves { Leaves Call.ReadInto (view self.new) (pile self.old) (pile self.new) result }
        ensures rule { ReadInto (view self.old) (view self.new) buf.old buf.new result }
        ensures whole { Whole (pile self.old) (view self.old) (min (length buf.old) (left (view self.old))) result };

    // Writes bytes at the position, and answers how many it took.
    fn write(&mut self, buf: &[u8]) -> Result<usize, Refusal>
        ensures leaves { Leaves Call.Write (view self.new) (pile self.old) (pile self.new) result }
        ensures rule { Write (view self.old) (view self.new) buf.now result }
        ensures whole { Whole (pile self.old) (view self.old) (length buf.now) result };

    // Goes to a target past the start, the position or the end (whence 0, 1, 2), and answers the new position. The whence is a number,
    // since any other one is to be refused by 6.
    fn seek(&mut self, target: i64, whence: i32) -> Result<u64, Refusal>
        ensures leaves { Leaves Call.Seek (view self.new) (pile self.old) (pile self.new) result }
        ensures rule { SeekBy (view self.old) (view self.new) target (whence_for whence) result };

    // Answers the position.
    fn tell(&mut self) -> Result<u64, Refusal>
        ensures leaves { Leaves Call.Tell (view self.new) (pile self.old) (pile self.new) result }
        ensures rule { Tell (view self.old) (view self.new) result };

    // Cuts or lengthens to a size, or to the position if none is given, and answers the size.
    fn truncate(&mut self, size: Option<i64>) -> Result<u64, Refusal>
        ensures leaves { Leaves Call.Truncate (view self.new) (pile self.old) (pile self.new) result }
        ensures rule { Truncate (view self.old) (view self.new) (size_of (view self.old).position size) result };

    // Stores what is shown.
    fn flush(&mut self) -> Result<(), Refusal>
        ensures leaves { Leaves Call.Flush (view self.new) (pile self.old) (pile self.new) result }
        ensures rule { Flush (view self.old) (view self.new) result };

    // The limit: never refused.
    fn limit(&self) -> u64
        ensures { result ≡ (view self.now).limit };

    // Every stream is in order, and its places are those of the bottom stream.
    ghost sound: { (s : Self) → Sound (view s) };

    ghost based: { (s : Self) → Based (pile s) (view s) };
}
