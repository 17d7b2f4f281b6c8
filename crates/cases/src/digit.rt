// A kind of one byte, for the cases: a decimal digit.
ghost use Rattle.cases.specs.Digit.{digit_read, digit_row};
ghost use Rattle.std.proofs.Common.{rules};

use quotes::quote::Quote;

#[derive(Clone, Copy, Debug, PartialEq, Eq)]
pub struct Digit;

impl Quote for Digit {
    const WIDTH: usize = 1;

    ghost WIDTH = { 1 };

    ghost reads = { digit_read };

    ghost writes = { digit_row };

    ghost wide = { Prim.search rules };

    ghost back = { Prim.search rules };

    ghost only = { Prim.search rules };

    type Row = [u8; 1];

    fn decode(row: &[u8]) -> Option<i32> {
        match row {
            [digit @ b'0'..=b'9'] => Some(i32::from(*digit - b'0')),
            _ => None,
        }
    }

    fn row_of(value: i32) -> Option<[u8; 1]> {
        match value {
            0..=9 => Some([b'0' + value as u8]),
            _ => None,
        }
    }
}
