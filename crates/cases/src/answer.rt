// What a call answered, as the cases print it: `ok`, with the value if it has one, or `refused` with the number and the values.
use calls::refusal::Refusal;
use rows::refusal::{PutRefusal, RowRefusal};
use std::fmt;

// A refusal with all that it tells.
#[derive(Clone, Copy)]
pub struct Told<E>(pub E);

impl fmt::Display for Told<Refusal> {
    fn fmt<W: fmt::Write>(&self, f: &mut fmt::Formatter<W>) -> fmt::Result {
        write!(f, "refused {}", self.0.number())?;
        if let Some(code) = self.0.code() {
            write!(f, " code {code}")?;
        }
        if let Some(o) = self.0.origin() {
            write!(f, " call {} at {} layers {}", o.call, o.position, o.layers)?;
        }
        Ok(())
    }
}

impl fmt::Display for Told<RowRefusal> {
    fn fmt<W: fmt::Write>(&self, f: &mut fmt::Formatter<W>) -> fmt::Result {
        match self.0 {
            RowRefusal::Below(e) => write!(f, "{}", Told(e)),
            e => write!(f, "refused {}", e.number()),
        }
    }
}

impl fmt::Display for Told<PutRefusal> {
    fn fmt<W: fmt::Write>(&self, f: &mut fmt::Formatter<W>) -> fmt::Result {
        write!(f, "{} new, {}", self.0.fresh, Told(self.0.why))
    }
}

// What a call that has a value answered.
#[derive(Clone, Copy)]
pub struct Answer<T, E>(pub Result<T, E>);

impl<T: fmt::Display, E: Copy> fmt::Display for Answer<T, E>
where
    Told<E>: fmt::Display,
{
    fn fmt<W: fmt::Write>(&self, f: &mut fmt::Formatter<W>) -> fmt::Result {
        match &self.0 {
            Ok(value) => write!(f, "ok {value}"),
            Err(e) => write!(f, "{}", Told(*e)),
        }
    }
}

// What a call that has no value answered: `()` has no Display, so `Answer` does not serve.
#[derive(Clone, Copy)]
pub struct Done<E>(pub Result<(), E>);

impl<E: Copy> fmt::Display for Done<E>
where
    Told<E>: fmt::Display,
{
    fn fmt<W: fmt::Write>(&self, f: &mut fmt::Formatter<W>) -> fmt::Result {
        match &self.0 {
            Ok(()) => write!(f, "ok"),
            Err(e) => write!(f, "{}", Told(*e)),
        }
    }
}

// Bytes in hex.
#[derive(Clone, Copy)]
pub struct Hex<'a>(pub &'a [u8]);

impl fmt::Display for Hex<'_> {
    fn fmt<W: fmt::Write>(&self, f: &mut fmt::Formatter<W>) -> fmt::Result {
        for &b in self.0 {
            write!(f, " {b:02x}")?;
        }
        Ok(())
    }
}
