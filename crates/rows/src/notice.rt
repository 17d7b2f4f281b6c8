// What a row's refusal tells, in words written by hand: the library stands on std alone.
ghost use Rattle.std.specs.Prelude.{◌≡◌};
ghost use Rattle.rows.specs.Rows.{row_notice};

use crate::refusal::RowRefusal;
use std::error::Error;
use std::fmt;

impl RowRefusal {
    // Its number, 13 to 15 for a row's own, else the stream's: a part of it, and so no `From`.
    pub fn number(self) -> u8
        ensures { result ≡ (row_notice self).number }
    {
        match self {
            RowRefusal::Missing => 13,
            RowRefusal::NoQuote => 14,
            RowRefusal::Unwritable => 15,
            RowRefusal::Below(e) => e.number(),
        }
    }
}

impl fmt::Display for RowRefusal {
    fn fmt<W: fmt::Write>(&self, f: &mut fmt::Formatter<W>) -> fmt::Result {
        match self {
            RowRefusal::Missing => f.write_str("13: the row is not wholly there"),
            RowRefusal::NoQuote => f.write_str("14: the row's bytes are no quote"),
            RowRefusal::Unwritable => f.write_str("15: the kind cannot write this value"),
            RowRefusal::Below(e) => write!(f, "{e}"),
        }
    }
}

impl Error for RowRefusal {}
