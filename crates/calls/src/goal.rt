// The places that the arguments of a call ask for.
ghost use Rattle.std.specs.Prelude.{◌≡◌, pos, ◌+ℤ◌};
ghost use Rattle.std.specs.Option.{ok_or};
ghost use Rattle.calls.specs.declared.refusal.Refusal.TheVariants.{BadWhence};
ghost use Rattle.calls.specs.Places.{size_of, whence_for, within};

use crate::refusal::{Refusal, Whence};

impl TryFrom<i32> for Whence {
    type Error = Refusal;

    ghost try_from_gives = { λ whence r. r ≡ ok_or (whence_for whence) BadWhence };

    // What a seek counts from: refused by 6 where it is not 0, 1 or 2.
    fn try_from(whence: i32) -> Result<Whence, Refusal> {
        match whence {
            0 => Ok(Whence::Start),
            1 => Ok(Whence::Current),
            2 => Ok(Whence::End),
            _ => Err(Refusal::BadWhence),
        }
    }
}

// The place `target` past `start`, where it lies from 0 to the limit.
pub fn goal_of(target: i64, start: u64, limit: u64) -> Option<u64>
    ensures { result ≡ within limit (target +ℤ pos start) }
{
    // 128 bits hold every sum
    let goal = target as i128 + start as i128;
    if (0..=limit as i128).contains(&goal) {
        Some(goal as u64)
    } else {
        None
    }
}

// The size that a truncate asks for, where it lies from 0 to the limit.
pub fn size_of_cut(size: Option<i64>, place: u64, limit: u64) -> Option<u64>
    ensures { result ≡ within limit (size_of place size) }
{
    match size {
        None => goal_of(0, place, limit),
        Some(z) => goal_of(z, 0, limit),
    }
}
