// Patches the quotes of a curve file by commands, and replaces the file only where everything was granted.
#![tactic(auto)]

use calls::sizes::buffer_size;
use editor::Editor;
use memory::MemoryStream;
use quotes::basis_points::BasisPoints;
use skip::HeaderSkip;
use std::fmt::Display;
use std::io::Write;
use std::{fs, io};

mod command;
mod editor;
mod error;

pub use error::RunError;

// The file, the length of its header, how many bytes it is written with at a time, and the names of its first rows.
#[derive(Drop)]
pub struct Settings {
    pub path: String,
    pub header: i64,
    pub buffer: i64,
    pub tenors: Vec<String>,
}

// Tells on standard output why the file is left as it was.
fn left<T>(rt: &HostRuntime, why: impl Display + Drop) -> Result<T, RunError> {
    println!(rt; "{why}")?;
    Err(RunError::Left)
}

// A stream on all bytes of a slice.
fn whole(bytes: &mut [u8]) -> MemoryStream<'_> {
    let len = bytes.len();
    MemoryStream::new(bytes, len)
}

// Runs the commands on the rows behind the header.
fn patched(
    rt: &HostRuntime,
    bytes: &mut [u8],
    header: u16,
    tenors: &[String],
    text: &str,
) -> Result<(), RunError> {
    let memory = whole(bytes);
    HeaderSkip::check(&memory, header).or_else(|e| left(rt, format_args!("refused {e}")))?;
    let rows = HeaderSkip::new(memory, header);
    Editor::<BasisPoints, _>::new(rt, rows, tenors).run(text)
}

// Prints what was there and what is there now, and answers how many rows differ.
fn compared(rt: &HostRuntime, old: &mut [u8], new: &mut [u8], header: u16) -> io::Result<u32> {
    let mut before = HeaderSkip::new(whole(old), header);
    let mut after = HeaderSkip::new(whole(new), header);
    editor::changes::<BasisPoints, _, _>(rt, &mut before, &mut after)
}

// Writes the bytes beside the file, and puts them in its place in one step.
fn replace(rt: &HostRuntime, path: &str, bytes: &[u8], size: usize) -> io::Result<()> {
    let beside = format!(in rt.alloc(); "{path}.new")?;
    let mut file = fs::create(rt, beside.as_str())?;
    for part in bytes.chunks(size.max(1)) {
        file.write_all(part)?;
    }
    file.sync_all()?;
    fs::rename(rt, beside.as_str(), path)
}

// Runs the commands of a text on a file, and answers how many rows were changed: the file is replaced where there are any.
pub fn run(rt: &HostRuntime, settings: &Settings, text: &str) -> Result<u32, RunError> {
    let size = buffer_size(settings.buffer).or_else(|e| left(rt, format_args!("refused {e}")))?;
    let header = u16::try_from(settings.header).or_else(|_| left(
        rt,
        "the header's length is not from 0 to 65535",
    ))?;
    let path = settings.path.as_str();
    let mut old = fs::read(rt, path)?;
    let mut new = old.clone().map_err(io::Error::from)?;
    patched(rt, &mut new, header, &settings.tenors, text)?;
    let count = compared(rt, &mut old, &mut new, header)?;
    if count > 0 {
        replace(rt, path, &new, size)?;
    }
    Ok(count)
}
