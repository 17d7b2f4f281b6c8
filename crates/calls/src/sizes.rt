// The sizes that a buffer may have.
ghost use Rattle.std.specs.Prelude.{◌≡◌};
ghost use Rattle.calls.specs.Places.{size_answer};

use crate::refusal::Refusal;

// A buffer's size, 1 to 8192; below it is refused by 1, above by 2.
pub fn buffer_size(size: i64) -> Result<usize, Refusal>
    ensures { result ≡ size_answer size }
{
    if size < 1 {
        return Err(Refusal::BufferTooSmall);
    }
    if size > 8192 {
        return Err(Refusal::BufferTooLarge);
    }
    Ok(size as usize)
}
