// Why a row was not got or put.
ghost use Rattle.std.specs.Prelude.{◌≡◌};
ghost use Rattle.rows.specs.declared.refusal.RowRefusal.TheVariants.{Below};

use calls::refusal::Refusal;

// `row_notice` in specs/Rows.antt gives each case its number and its values.
#[derive(Clone, Copy, Debug, PartialEq, Eq)]
pub enum RowRefusal {
    // a row not wholly there
    Missing,
    // row bytes that are no quote
    NoQuote,
    // a value that its kind cannot write
    Unwritable,
    // what the stream refused
    Below(Refusal),
}

// Why a put was refused, and how many leading bytes of the row are new.
#[derive(Clone, Copy, Debug, PartialEq, Eq)]
pub struct PutRefusal {
    pub why: RowRefusal,
    pub fresh: usize,
}

impl From<Refusal> for RowRefusal {
    ghost from_gives = { λ e why. why ≡ Below e };

    fn from(e: Refusal) -> RowRefusal {
        RowRefusal::Below(e)
    }
}

// Before the first byte of the row is written.
impl From<RowRefusal> for PutRefusal {
    ghost from_gives = { λ why x. x ≡ record { why = why; fresh = 0 } };

    fn from(why: RowRefusal) -> PutRefusal {
        PutRefusal { why, fresh: 0 }
    }
}

impl From<Refusal> for PutRefusal {
    ghost from_gives = { λ e x. x ≡ record { why = Below e; fresh = 0 } };

    fn from(e: Refusal) -> PutRefusal {
        RowRefusal::from(e).into()
    }
}
