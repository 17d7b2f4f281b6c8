// Calls on a stream as a table, run one after another; each prints its call and its answer.
use crate::answer::{Answer, Done, Hex};
use std::{fmt, io};
use stream::raw::RawStream;

// A value and no closure, since a step prints its call too.
#[derive(Clone, Copy, Debug, PartialEq, Eq)]
pub enum Step {
    // into a buffer of so many bytes, 8 at most
    Read(usize),
    Write(&'static [u8]),
    Seek(i64, i32),
    Tell,
    Truncate(Option<i64>),
    Flush,
    Limit,
}

impl fmt::Display for Step {
    fn fmt<W: fmt::Write>(&self, f: &mut fmt::Formatter<W>) -> fmt::Result {
        match self {
            Step::Read(k) => write!(f, "readinto {k}"),
            Step::Write(bytes) => write!(f, "write {}", bytes.len()),
            Step::Seek(target, whence) => write!(f, "seek {target} by {whence}"),
            Step::Tell => write!(f, "tell"),
            Step::Truncate(Some(size)) => write!(f, "truncate {size}"),
            Step::Truncate(None) => write!(f, "truncate"),
            Step::Flush => write!(f, "flush"),
            Step::Limit => write!(f, "limit"),
        }
    }
}

// A read prints the whole buffer, to show that what it does not fill stays. The runtime and the stream are no struct here and below: one
// call hands both on, and no more is done with them.
fn make<S: RawStream>(rt: &HostRuntime, s: &mut S, step: Step) -> io::Result<()> {
    print!(rt; "{step}: ")?;
    match step {
        Step::Read(k) => {
            // No Vec: with one the program would trust the C allocator too.
            let mut room = [0xee; 8];
            let buf = &mut room[..k.min(8)];
            rt.println(Answer(s.readinto(buf)))?;
            println!(rt; "  buffer{}", Hex(buf))
        }
        Step::Write(bytes) => rt.println(Answer(s.write(bytes))),
        Step::Seek(target, whence) => rt.println(Answer(s.seek(target, whence))),
        Step::Tell => rt.println(Answer(s.tell())),
        Step::Truncate(size) => rt.println(Answer(s.truncate(size))),
        Step::Flush => rt.println(Done(s.flush())),
        Step::Limit => rt.println(s.limit()),
    }
}

pub fn run<S: RawStream>(rt: &HostRuntime, s: &mut S, steps: &[Step]) -> io::Result<()> {
    for &step in steps {
        make(rt, s, step)?;
    }
    Ok(())
}
