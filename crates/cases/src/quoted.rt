// The worked cases of quotes and rows.
use crate::answer::{Answer, Done, Hex};
use crate::digit::Digit;
use memory::MemoryStream;
use quotes::basis_points::BasisPoints;
use quotes::quote::Quote;
use rows::rows::{get, patch, put};
use script::Entry;
use scripted::ScriptedStream;
use std::{fmt, io};
use stream::raw::RawStream;

// Puts, gets and patches of rows as a table: values and no closures, since a turn prints its call too.
#[derive(Clone, Copy, Debug, PartialEq, Eq)]
enum Turn {
    Get(u32),
    Put(u32, i32),
    Patch(u32, i32),
}

impl fmt::Display for Turn {
    fn fmt<W: fmt::Write>(&self, f: &mut fmt::Formatter<W>) -> fmt::Result {
        match self {
            Turn::Get(i) => write!(f, "get {i}"),
            Turn::Put(i, value) => write!(f, "put {i} {value}"),
            Turn::Patch(i, value) => write!(f, "patch {i} {value}"),
        }
    }
}

// As for steps, the runtime and the stream are no struct.
fn make<Q: Quote, S: RawStream>(rt: &HostRuntime, s: &mut S, turn: Turn) -> io::Result<()> {
    print!(rt; "{turn}: ")?;
    match turn {
        Turn::Get(i) => rt.println(Answer(get::<Q, S>(s, i))),
        Turn::Put(i, value) => rt.println(Done(put::<Q, S>(s, i, value))),
        Turn::Patch(i, value) => rt.println(Answer(patch::<Q, S>(s, i, value))),
    }
}

// The loop of `steps::run`: one for both would take a closure for its one line.
fn run<Q: Quote, S: RawStream>(rt: &HostRuntime, s: &mut S, turns: &[Turn]) -> io::Result<()> {
    for &turn in turns {
        make::<Q, S>(rt, s, turn)?;
    }
    Ok(())
}

// Prints the title, runs a case over the slice, and prints what the slice then holds.
fn on_slice<F: FnOnce(&mut [u8]) -> io::Result<()>>(
    rt: &HostRuntime,
    title: &str,
    slice: &mut [u8],
    case: F,
) -> io::Result<()>
    requires { F.IsAlwaysCallable case }
{
    rt.println(title)?;
    case(slice)?;
    println!(rt; "  slice{}", Hex(slice))
}

// Two rows, and a half of a third.
const ROWS: [Turn; 8] = [
    Turn::Get(1),
    Turn::Get(2),
    Turn::Get(4294967295),
    Turn::Put(0, -32769),
    Turn::Put(2, 1),
    Turn::Put(3, 1),
    Turn::Put(0, -32768),
    Turn::Patch(1, -25),
];

pub fn in_memory(rt: &HostRuntime) -> io::Result<()> {
    let mut slice = [1, 0, 0xfe, 0xff, 7];
    on_slice(rt, "basis points in memory", &mut slice, |slice| {
        run::<BasisPoints, _>(rt, &mut MemoryStream::new(slice, 5), &ROWS)
    })
}

// A put that is cut short goes on, and a refused one tells how much of the row is new.
const CUT_SHORT: [Turn; 4] = [
    Turn::Put(0, -25),
    Turn::Put(1, -25),
    Turn::Get(1),
    Turn::Patch(1, -25),
];

const TROUBLE: [Entry; 9] = [
    Entry::AtMost(9),
    Entry::AtMost(1),
    Entry::AtMost(1),
    Entry::AtMost(9),
    Entry::AtMost(1),
    Entry::NotNow,
    Entry::AtMost(9),
    Entry::AtMost(1),
    Entry::Fault(4),
];

pub fn in_trouble(rt: &HostRuntime) -> io::Result<()> {
    let mut slice = [1, 0, 2, 0];
    on_slice(
        rt,
        "basis points over a scripted stream",
        &mut slice,
        |slice| {
            run::<BasisPoints, _>(rt, &mut ScriptedStream::new(slice, 4, &TROUBLE), &CUT_SHORT)
        },
    )
}

// Another kind over the same rows: some bytes are no quote.
const DIGITS: [Turn; 4] = [
    Turn::Get(0),
    Turn::Get(1),
    Turn::Put(1, 10),
    Turn::Patch(1, 9),
];

pub fn digits(rt: &HostRuntime) -> io::Result<()> {
    on_slice(rt, "digits in memory", &mut { *b"4x7" }, |slice| {
        run::<Digit, _>(rt, &mut MemoryStream::new(slice, 3), &DIGITS)
    })
}

fn reads(rt: &HostRuntime, row: &[u8]) -> io::Result<()> {
    println!(rt; "basis points of{}", Hex(row))?;
    match BasisPoints::decode(row) {
        Some(v) => println!(rt; "  {v}"),
        None => println!(rt; "  none"),
    }
}

fn writes(rt: &HostRuntime, value: i32) -> io::Result<()> {
    let mut row = [0xee; 2];
    let granted = BasisPoints::encode(value, &mut row).is_ok();
    println!(rt; "row of {value}: {granted},{}", Hex(&row))
}

pub fn basis_points(rt: &HostRuntime) -> io::Result<()> {
    let rows: [&[u8]; 5] = [
        &[0xe7, 0xff],
        &[0x00, 0x80],
        &[0xff, 0x7f],
        &[0x00],
        &[0x00, 0x00, 0x00],
    ];
    for row in rows {
        reads(rt, row)?;
    }
    for value in [-25, -32768, -32769, 32767, 32768, 0] {
        writes(rt, value)?;
    }
    Ok(())
}
