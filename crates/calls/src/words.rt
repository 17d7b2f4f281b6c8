// The words of a refusal, by hand: the library stands on std alone.
use crate::refusal::{Call, Refusal};
use std::error::Error;
use std::fmt;

impl Refusal {
    fn words(self) -> &'static str {
        match self {
            Refusal::BufferTooSmall => "the buffer size is below 1",
            Refusal::BufferTooLarge => "the buffer size is above 8192",
            Refusal::HeaderTooLong => "the header is longer than the stream's limit",
            Refusal::BadReadSize => "the size to read is below -1",
            Refusal::ShortBuffer => "the caller's buffer is shorter than the size",
            Refusal::BadWhence => "the whence is not 0, 1 or 2",
            Refusal::NotNow(_) => "not now: the stream is busy",
            Refusal::BadCount(_) => "the stream's count was outside what was asked",
            Refusal::BadPosition(_) => "the stream's position was below 0",
            Refusal::Fault(_, _) => "the stream's own fault",
            Refusal::OutOfRange(_) => "a seek or truncate out of range",
            Refusal::PastLimit(_) => "a write past the limit",
        }
    }
}

impl fmt::Display for Call {
    fn fmt<W: fmt::Write>(&self, f: &mut fmt::Formatter<W>) -> fmt::Result {
        f.write_str(match self {
            Call::ReadInto => "readinto",
            Call::Write => "write",
            Call::Seek => "seek",
            Call::Tell => "tell",
            Call::Truncate => "truncate",
            Call::Flush => "flush",
        })
    }
}

impl fmt::Display for Refusal {
    fn fmt<W: fmt::Write>(&self, f: &mut fmt::Formatter<W>) -> fmt::Result {
        write!(f, "{}: {}", self.number(), self.words())
    }
}

impl Error for Refusal {}
