// A kind of quote: rows of one width, each the bytes of a value.
ghost use Rattle.std.specs.Prelude.{◌≡◌, ℕ, ◌<◌, ◌≤◌, ◌&&◌, List, length, ℤ, is_ok, is_some, if◌then◌else◌, Some, Option as Maybe, ◌==◌};
ghost use Rattle.std.specs.Option.{option_map, unwrap_or};
ghost use Rattle.std.specs.List.{AllByRecursion};

use std::convert::AsSlice;
use std::error::Error;
use std::fmt;

// The kind has no row for this value, or the row has another width. Its words are written by hand: the library stands on std alone.
#[derive(Clone, Copy, Debug, PartialEq, Eq)]
pub struct Unwritable;

impl fmt::Display for Unwritable {
    fn fmt<W: fmt::Write>(&self, f: &mut fmt::Formatter<W>) -> fmt::Result {
        f.write_str("the kind cannot write this value into this row")
    }
}

impl Error for Unwritable {}

pub trait Quote {
    // The width of a row in bytes.
    const WIDTH: usize;

    ghost WIDTH: { ℕ };

    // The value of a row, if it is a quote, and the row of a value, if it can be written.
    ghost reads: { List ℕ → Maybe ℤ };

    ghost writes: { ℤ → Maybe (List ℕ) };

    // The bytes of a row.
    type Row: AsSlice<u8> + Drop;

    // The value of a row, or none where it is no quote.
    fn decode(row: &[u8]) -> Option<i32>
        ensures { result ≡ reads row.now };

    // The row of a value, or none where it cannot be written.
    fn row_of(value: i32) -> Option<Self::Row>
        ensures { option_map Self.Row.items result ≡ writes value };

    ghost wide: { (1 ≤ WIDTH) × (WIDTH ≤ 16) };

    // Each quote comes back.
    ghost back: { (z : ℤ) (row : List ℕ) → writes z ≡ Some row → (reads row ≡ Some z) × (length row ≡ WIDTH) };

    // A row that reads as a quote is the one it writes.
    ghost only: { (z : ℤ) (row : List ℕ) → AllByRecursion (λ b. b < 256) row → reads row ≡ Some z → writes z ≡ Some row };

    // Writes the row of a value; refused, and nothing written, where it has none or the row has another width.
    final fn encode(value: i32, row: &mut [u8]) -> Result<(), Unwritable>
        ensures said { is_ok result ≡ (length row.old == WIDTH && is_some (writes value)) }
        ensures bytes { row.new ≡ (if is_ok result then unwrap_or (writes value) row.old else row.old) }
    {
        if row.len() != Self::WIDTH {
            return Err(Unwritable);
        }
        let bytes = Self::row_of(value).ok_or(Unwritable)?;
        row.copy_from_slice(bytes.as_slice());
        Ok(())
    }
}
