// The worked cases of streams.
use crate::answer::{Answer, Done};
use crate::steps::{Step, run};
use calls::sizes::buffer_size;
use memory::MemoryStream;
use script::Entry;
use scripted::ScriptedStream;
use skip::HeaderSkip;
use std::io;
use stream::raw::RawStream;

// A to H at the front of 16 bytes.
const LETTERS: [u8; 16] = *b"ABCDEFGH\0\0\0\0\0\0\0\0";

const LIMITS: [Step; 13] = [
    Step::Limit,
    Step::Seek(16, 0),
    Step::Seek(17, 0),
    Step::Seek(-1, 0),
    Step::Seek(0, 3),
    Step::Seek(14, 0),
    Step::Write(b"xyz"),
    Step::Write(b"xy"),
    Step::Tell,
    Step::Truncate(Some(17)),
    Step::Truncate(Some(-1)),
    Step::Truncate(None),
    Step::Flush,
];

// A gap becomes zeros, and what was cut does not come back.
const GAP: [Step; 5] = [
    Step::Truncate(Some(2)),
    Step::Seek(4, 0),
    Step::Write(b"x"),
    Step::Seek(0, 0),
    Step::Read(8),
];

const BEHIND_HEADER: [Step; 9] = [
    Step::Limit,
    Step::Read(8),
    Step::Seek(-1, 2),
    Step::Seek(14, 0),
    Step::Seek(12, 0),
    Step::Write(b"yz"),
    Step::Truncate(Some(14)),
    Step::Truncate(Some(1)),
    Step::Flush,
];

const ALL_HEADER: [Step; 3] = [Step::Limit, Step::Read(1), Step::Write(b"x")];

const IN_TROUBLE: [Step; 4] = [Step::Read(2), Step::Flush, Step::Read(2), Step::Read(2)];

// A seek below that is granted and a read of one byte, then a fault, then not now, and after the list all is granted.
const TROUBLE: [Entry; 4] = [
    Entry::AtMost(5),
    Entry::AtMost(1),
    Entry::Fault(77),
    Entry::NotNow,
];

// Prints the title, and runs the steps over the stream.
fn titled<S: RawStream + Drop>(
    rt: &HostRuntime,
    title: &str,
    mut s: S,
    steps: &[Step],
) -> io::Result<()> {
    rt.println(title)?;
    run(rt, &mut s, steps)
}

pub fn in_memory(rt: &HostRuntime) -> io::Result<()> {
    let mut slice = LETTERS;
    titled(
        rt,
        "memory, limits",
        MemoryStream::new(&mut slice, 8),
        &LIMITS,
    )?;
    let mut slice = LETTERS;
    titled(rt, "memory, a gap", MemoryStream::new(&mut slice, 8), &GAP)
}

pub fn behind_header(rt: &HostRuntime) -> io::Result<()> {
    let mut slice = LETTERS;
    let memory = MemoryStream::new(&mut slice, 8);
    for head in [16, 17] {
        let fits = HeaderSkip::check(&memory, head);
        println!(rt; "header of {head}: {}", Done(fits))?;
    }
    titled(rt, "skip of 3", HeaderSkip::new(memory, 3), &BEHIND_HEADER)?;
    let mut slice = LETTERS;
    let memory = MemoryStream::new(&mut slice, 8);
    titled(
        rt,
        "skip of 17, unchecked",
        HeaderSkip::new(memory, 17),
        &ALL_HEADER,
    )
}

// The refusal names the stream that said so.
pub fn passed_on(rt: &HostRuntime) -> io::Result<()> {
    let title = "skip of 1 over a skip of 2 over a scripted stream";
    let mut slice = LETTERS;
    let below = HeaderSkip::new(ScriptedStream::new(&mut slice, 8, &TROUBLE), 2);
    titled(rt, title, HeaderSkip::new(below, 1), &IN_TROUBLE)
}

// Each kind of entry, by its number, and each call that it may meet, on a stream of its own at position 1.
const KINDS: [(u8, u32); 6] = [(0, 1), (0, 0), (1, 5), (2, 6), (3, 7), (255, 8)];

const CALLS: [Step; 9] = [
    Step::Read(3),
    Step::Write(b"xy"),
    Step::Write(b"wxyz"),
    Step::Seek(2, 0),
    Step::Seek(5, 0),
    Step::Seek(0, 7),
    Step::Tell,
    Step::Truncate(Some(1)),
    Step::Flush,
];

// The call, and then what it left: where the stream stands, and what it shows.
fn meets(rt: &HostRuntime, entry: Entry, call: Step) -> io::Result<()> {
    let mut slice = *b"ABCD";
    let entries = [Entry::AtMost(9), entry];
    let mut s = ScriptedStream::new(&mut slice, 3, &entries);
    run(
        rt,
        &mut s,
        &[
            Step::Seek(1, 0),
            call,
            Step::Tell,
            Step::Seek(0, 0),
            Step::Read(4),
        ],
    )
}

fn at_each_call(rt: &HostRuntime, (kind, n): (u8, u32)) -> io::Result<()> {
    println!(rt; "entry {kind}:{n}")?;
    for call in CALLS {
        meets(rt, Entry::from((kind, n)), call)?;
    }
    Ok(())
}

pub fn each_kind(rt: &HostRuntime) -> io::Result<()> {
    for pair in KINDS {
        at_each_call(rt, pair)?;
    }
    Ok(())
}

pub fn sizes(rt: &HostRuntime) -> io::Result<()> {
    for size in [-5, 0, 1, 8192, 8193] {
        println!(rt; "buffer size {size}: {}", Answer(buffer_size(size)))?;
    }
    Ok(())
}
