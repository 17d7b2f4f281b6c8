// Rows of quotes of any kind over any stream: row i starts at i times the width.
ghost use Rattle.std.specs.Prelude.{◌≡◌, ◌*◌, ◌^◌, ◌<◌, [], ◌∷◌, length};
ghost use Rattle.stream.specs.Source.{Source};
ghost use Rattle.rows.specs.Moves.{Filled, LaidOn};
ghost use Rattle.rows.specs.Rows.{GotRow, PutRow, PatchRow, GetSaid, PutSaid};

use crate::refusal::{PutRefusal, RowRefusal};
use calls::refusal::{Call, Refusal, Whence};
use quotes::quote::Quote;
use std::convert::AsSlice;
use stream::raw::RawStream;

// Reads on until the row is full, or to the end. It goes on by as many bytes as the stream gave, which no iterator knows; and the count
// is the answer, so that a slice that got shorter would have to be counted back.
fn fill<S: RawStream>(s: &mut S, row: &mut [u8]) -> Result<usize, Refusal>
    ensures rule { Filled (S.RawStream.view s.old) (S.RawStream.view s.new) row.old row.new result }
    ensures said { Source Call.ReadInto (S.RawStream.view s.new).position (S.RawStream.pile s.new).places result }
{
    let mut n = 0;
    while n < row.len() {
        let m = s.readinto(&mut row[n..])?;
        if m == 0 {
            return Ok(n);
        }
        n += m;
    }
    Ok(n)
}

// Writes on until all of the row is taken, each time from the byte after those that the stream took; a refusal tells their count, as in
// `fill`.
fn lay<S: RawStream>(s: &mut S, row: &[u8]) -> Result<(), PutRefusal>
    requires { 0 < length row.now }
    ensures rule { LaidOn row.now (S.RawStream.view s.old) (S.RawStream.view s.new) result }
    ensures said { PutSaid (Call.Write ∷ []) (S.RawStream.view s.new) (S.RawStream.pile s.new) result }
{
    let mut n = 0;
    while n < row.len() {
        n += s.write(&row[n..]).map_err(|e| PutRefusal {
            why: e.into(),
            fresh: n,
        })?;
    }
    Ok(())
}

// The quote in the row at `start`, with the row's bytes in `row`.
fn get_at<Q: Quote, S: RawStream>(s: &mut S, start: u64, row: &mut [u8]) -> Result<i32, RowRefusal>
    requires { (length row.old ≡ Q.Quote.WIDTH) × (start < 2 ^ 36) }
    ensures rule { GotRow Q.Quote.reads Q.Quote.WIDTH start (S.RawStream.view s.old) (S.RawStream.view s.new) result }
    ensures said { GetSaid (Call.Seek ∷ (Call.ReadInto ∷ [])) (S.RawStream.view s.new) (S.RawStream.pile s.new) result }
{
    if start + row.len() as u64 > s.limit() {
        return Err(RowRefusal::Missing);
    }
    s.seek(start as i64, Whence::Start as i32)?;
    if fill(s, row)? < row.len() {
        return Err(RowRefusal::Missing);
    }
    Q::decode(row).ok_or(RowRefusal::NoQuote)
}

// Where row i starts.
fn start<Q: Quote>(i: u32) -> u64
    ensures place { result ≡ i * Q.Quote.WIDTH }
    ensures small { result < 2 ^ 36 }
{
    i as u64 * Q::WIDTH as u64
}

// The quote in row i: 13 where the row is not wholly there, 14 where its bytes are no quote.
pub fn get<Q: Quote, S: RawStream>(s: &mut S, i: u32) -> Result<i32, RowRefusal>
    ensures rule { GotRow Q.Quote.reads Q.Quote.WIDTH (i * Q.Quote.WIDTH) (S.RawStream.view s.old) (S.RawStream.view s.new) result }
    ensures said { GetSaid (Call.Seek ∷ (Call.ReadInto ∷ [])) (S.RawStream.view s.new) (S.RawStream.pile s.new) result }
{
    // no row is longer; no heap is used, and an array's length cannot be computed from WIDTH
    let mut row = [0u8; 16];
    get_at::<Q, S>(s, start::<Q>(i), &mut row[..Q::WIDTH])
}

// Puts a quote into row i: 15 where its kind cannot write the value, ahead of all else.
#[inline]
pub fn put<Q: Quote, S: RawStream>(s: &mut S, i: u32, value: i32) -> Result<(), PutRefusal>
    ensures rule { PutRow (Q.Quote.writes value) (i * Q.Quote.WIDTH) (S.RawStream.view s.old) (S.RawStream.view s.new) result }
    ensures said { PutSaid (Call.Seek ∷ (Call.Write ∷ [])) (S.RawStream.view s.new) (S.RawStream.pile s.new) result }
{
    let row = Q::row_of(value).ok_or(RowRefusal::Unwritable)?;
    s.seek(start::<Q>(i) as i64, Whence::Start as i32)?;
    lay(s, row.as_slice())
}

// Puts a quote into row i, flushes, and gets it back: where granted it is the value that was put.
#[inline]
pub fn patch<Q: Quote, S: RawStream>(s: &mut S, i: u32, value: i32) -> Result<i32, PutRefusal>
    ensures rule { PatchRow value (Q.Quote.writes value) (i * Q.Quote.WIDTH) (S.RawStream.view s.old) (S.RawStream.view s.new) result }
    ensures said { PutSaid (Call.Seek ∷ (Call.Write ∷ (Call.Flush ∷ (Call.ReadInto ∷ [])))) (S.RawStream.view s.new) (S.RawStream.pile s.new) result }
{
    put::<Q, S>(s, i, value)?;
    // matched, since the answer that the proof needs cannot name what a closure at `map_err` gives, and a generic function, which
    // could tell the width, is not taken there yet
    if let Err(e) = s.flush() {
        return Err(PutRefusal {
            why: e.into(),
            fresh: Q::WIDTH,
        });
    }
    match get::<Q, S>(s, i) {
        Ok(v) => Ok(v),
        Err(why) => Err(PutRefusal {
            why,
            fresh: Q::WIDTH,
        }),
    }
}
