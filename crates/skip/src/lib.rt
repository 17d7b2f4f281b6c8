// A stream without the header of the one below.
#![tactic(auto)]

ghost use Rattle.std.specs.Prelude.{◌≡◌, ℕ, ◌+◌, ◌-◌, ◌<◌, ◌≤◌, min, ◌∷◌, length, Some, None, Ok, Err, ◌≢◌};
ghost use Rattle.skip.specs.Skip.{InSkip};

use calls::goal::{goal_of, size_of_cut};
use calls::refusal::{Call, Origin, Refusal, Whence};
use stream::raw::RawStream;

// A stream without the first `head` places of the one below, with a position of its own.
#[derive(Drop)]
pub struct HeaderSkip<S: RawStream> {
    raw: S,
    head: u16,
    pos: u64,
    ghost in_skip: { InSkip (S.RawStream.view raw) head pos },
}

impl<S: RawStream> HeaderSkip<S> {
    ghost use Rattle.stream.specs.Source.{FromBelow};
    ghost use Rattle.stream.specs.Stream.{Piled};
    ghost use Rattle.skip.specs.Skip.{Aligned, Started};

    // Refuses by 3 a header longer than the stream's limit.
    pub fn check(raw: &S, head: u16) -> Result<(), Refusal>
        ensures refused { (S.RawStream.view raw.now).limit < head → result ≡ Err Refusal.HeaderTooLong }
        ensures granted { head ≤ (S.RawStream.view raw.now).limit → result ≡ Ok tt }
    {
        if head as u64 > raw.limit() {
            return Err(Refusal::HeaderTooLong);
        }
        Ok(())
    }

    // A stream without the first `head` places of the one below, or without as many as its limit.
    pub fn new(raw: S, head: u16) -> HeaderSkip<S>
        ensures { (result.raw ≡ raw) × (result.head ≡ min head (S.RawStream.view raw).limit) × (result.pos ≡ 0) }
    {
        let limit = raw.limit();
        let head = limit.min(head as u64) as u16;
        HeaderSkip { raw, head, pos: 0 }
    }

    // Puts the stream below where this layer stands.
    fn align(&mut self) -> Result<u64, Refusal>
        ensures rest { (self.new.head ≡ self.old.head) × (self.new.pos ≡ self.old.pos) }
        ensures piled { Piled (S.RawStream.pile self.old.raw) (S.RawStream.pile self.new.raw) }
        ensures below { FromBelow Call.Seek ((S.RawStream.view self.new.raw).position ∷ (S.RawStream.pile self.new.raw).places) result }
        ensures rule { Aligned (S.RawStream.view self.old.raw) (S.RawStream.view self.new.raw) (self.old.head + self.old.pos) result }
    {
        let place = self.head as u64 + self.pos;
        self.raw
            .seek(place as i64, Whence::Start as i32)
            .map_err(Refusal::deeper)
    }

    // The place that a seek counts from: only the end is asked for below.
    fn start_of(&mut self, origin: Whence) -> Result<u64, Refusal>
        ensures rest { (self.new.head ≡ self.old.head) × (self.new.pos ≡ self.old.pos) }
        ensures piled { Piled (S.RawStream.pile self.old.raw) (S.RawStream.pile self.new.raw) }
        ensures below { FromBelow Call.Seek ((S.RawStream.view self.new.raw).position ∷ (S.RawStream.pile self.new.raw).places) result }
        ensures alone { (origin ≢ Whence.End) → self.new.raw ≡ self.old.raw }
        ensures rule { Started (S.RawStream.view self.old.raw) (S.RawStream.view self.new.raw) self.old.head self.old.pos origin result }
    {
        match origin {
            Whence::Start => Ok(0),
            Whence::Current => Ok(self.pos),
            Whence::End => {
                let end = self
                    .raw
                    .seek(0, Whence::End as i32)
                    .map_err(Refusal::deeper)?;
                Ok(end.saturating_sub(self.head as u64))
            }
        }
    }
}

// A call that promises more than the trait has to repeat the trait's clauses.
impl<S: RawStream> RawStream for HeaderSkip<S> {
    ghost use Rattle.calls.specs.Places.{whence_for, size_of, within};
    ghost use Rattle.calls.specs.Refusal.{own};
    ghost use Rattle.stream.specs.Stream.{Leaves, ReadInto, Write, SeekBy, Tell, Truncate, Flush, Whole, left};
    ghost use Rattle.stream.specs.Answers.{seek_answer};
    ghost use Rattle.skip.specs.Skip.{Says};
    ghost use Rattle.skip.specs.InOrder.{sound_skip, based_skip};
    ghost use Rattle.skip.specs.Layer.{skipping, skipping_pile};

    ghost view = { skipping };

    ghost pile = { skipping_pile };

    ghost sound = { λ s. sound_skip (S.RawStream.view s.raw) s.head s.pos (S.RawStream.sound s.raw) s.in_skip };

    ghost based = { λ s. based_skip (S.RawStream.view s.raw) (S.RawStream.pile s.raw) s.head s.pos (S.RawStream.based s.raw) };

    fn readinto(&mut self, buf: &mut [u8]) -> Result<usize, Refusal>
        ensures leaves { Leaves Call.ReadInto (skipping self.new) (skipping_pile self.old) (skipping_pile self.new) result }
        ensures rule { ReadInto (skipping self.old) (skipping self.new) buf.old buf.new result }
        ensures whole { Whole (skipping_pile self.old) (skipping self.old) (min (length buf.old) (left (skipping self.old))) result }
        ensures says { Says Call.ReadInto self.old.pos (skipping_pile self.new).places result }
    {
        self.align()?;
        let got = self.raw.readinto(buf).map_err(Refusal::deeper)?;
        self.pos += got as u64;
        Ok(got)
    }

    #[inline]
    fn write(&mut self, buf: &[u8]) -> Result<usize, Refusal>
        ensures leaves { Leaves Call.Write (skipping self.new) (skipping_pile self.old) (skipping_pile self.new) result }
        ensures rule { Write (skipping self.old) (skipping self.new) buf.now result }
        ensures whole { Whole (skipping_pile self.old) (skipping self.old) (length buf.now) result }
        ensures past { (skipping self.old).limit < self.old.pos + length buf.now → (result ≡ Err (Refusal.PastLimit (own Call.Write self.old.pos))) × (self.new ≡ self.old) }
        ensures says { Says Call.Write self.old.pos (skipping_pile self.new).places result }
    {
        let limit = self.limit();
        if buf.len() as u64 > limit - self.pos {
            return Err(Refusal::PastLimit(Origin::own(Call::Write, self.pos)));
        }
        self.align()?;
        let taken = self.raw.write(buf).map_err(Refusal::deeper)?;
        self.pos += taken as u64;
        Ok(taken)
    }

    fn seek(&mut self, target: i64, whence: i32) -> Result<u64, Refusal>
        ensures leaves { Leaves Call.Seek (skipping self.new) (skipping_pile self.old) (skipping_pile self.new) result }
        ensures rule { SeekBy (skipping self.old) (skipping self.new) target (whence_for whence) result }
        ensures alone { (whence_for whence ≢ Some Whence.End) → (result ≡ seek_answer (skipping self.old) target (whence_for whence)) × (self.new.raw ≡ self.old.raw) }
        ensures says { Says Call.Seek self.old.pos (skipping_pile self.new).places result }
    {
        let start = self.start_of(Whence::try_from(whence)?)?;
        let v = goal_of(target, start, self.limit()).ok_or(Refusal::OutOfRange(Origin::own(
            Call::Seek,
            self.pos,
        )))?;
        self.pos = v;
        Ok(v)
    }

    fn tell(&mut self) -> Result<u64, Refusal>
        ensures leaves { Leaves Call.Tell (skipping self.new) (skipping_pile self.old) (skipping_pile self.new) result }
        ensures rule { Tell (skipping self.old) (skipping self.new) result }
        ensures answer { (result ≡ Ok self.old.pos) × (self.new ≡ self.old) }
    {
        Ok(self.pos)
    }

    fn truncate(&mut self, size: Option<i64>) -> Result<u64, Refusal>
        ensures leaves { Leaves Call.Truncate (skipping self.new) (skipping_pile self.old) (skipping_pile self.new) result }
        ensures rule { Truncate (skipping self.old) (skipping self.new) (size_of (skipping self.old).position size) result }
        ensures outside { within (skipping self.old).limit (size_of self.old.pos size) ≡ None → (result ≡ Err (Refusal.OutOfRange (own Call.Truncate self.old.pos))) × (self.new ≡ self.old) }
        ensures says { Says Call.Truncate self.old.pos (skipping_pile self.new).places result }
    {
        let v = size_of_cut(size, self.pos, self.limit()).ok_or(Refusal::OutOfRange(Origin::own(
            Call::Truncate,
            self.pos,
        )))?;
        let place = self.head as u64 + v;
        self.raw
            .truncate(Some(place as i64))
            .map_err(Refusal::deeper)?;
        Ok(v)
    }

    fn flush(&mut self) -> Result<(), Refusal>
        ensures leaves { Leaves Call.Flush (skipping self.new) (skipping_pile self.old) (skipping_pile self.new) result }
        ensures rule { Flush (skipping self.old) (skipping self.new) result }
        ensures says { Says Call.Flush self.old.pos (skipping_pile self.new).places result }
    {
        self.raw.flush().map_err(Refusal::deeper)
    }

    fn limit(&self) -> u64 {
        self.raw.limit() - self.head as u64
    }
}
