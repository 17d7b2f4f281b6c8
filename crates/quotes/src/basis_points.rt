// Basis points: two bytes, low byte first, in two's complement.
ghost use Rattle.quotes.specs.BasisPoints.{bps_read, bps_row};
ghost use Rattle.std.proofs.Common.{rules};

use crate::quote::Quote;

#[derive(Clone, Copy, Debug, PartialEq, Eq)]
pub struct BasisPoints;

impl Quote for BasisPoints {
    const WIDTH: usize = 2;

    ghost WIDTH = { 2 };

    ghost reads = { bps_read };

    ghost writes = { bps_row };

    ghost wide = { Prim.search rules };

    ghost back = { Prim.search rules };

    ghost only = { Prim.search rules };

    type Row = [u8; 2];

    fn decode(row: &[u8]) -> Option<i32> {
        match row {
            [lo, hi] => Some(i16::from_le_bytes([*lo, *hi]).into()),
            _ => None,
        }
    }

    fn row_of(value: i32) -> Option<[u8; 2]> {
        Some(i16::try_from(value).ok()?.to_le_bytes())
    }
}
