// Why a call was refused, and which stream said so.

#[derive(Clone, Copy, Debug, PartialEq, Eq)]
pub enum Call {
    ReadInto,
    Write,
    Seek,
    Tell,
    Truncate,
    Flush,
}

// The stream that refused: its call, its position, and how many layers lie above it (wrapping).
#[derive(Clone, Copy, Debug, PartialEq, Eq)]
pub struct Origin {
    pub call: Call,
    pub position: u64,
    pub layers: u32,
}

// A case for each reason; `notice` in specs/Refusal.antt gives each its number and its values.
#[derive(Clone, Copy, Debug, PartialEq, Eq)]
pub enum Refusal {
    BufferTooSmall,
    BufferTooLarge,
    HeaderTooLong,
    BadReadSize,
    ShortBuffer,
    BadWhence,
    NotNow(Origin),
    BadCount(Origin),
    BadPosition(Origin),
    Fault(Origin, u32),
    OutOfRange(Origin),
    PastLimit(Origin),
}

// What a seek counts from: the start, the position or the end of the bytes shown. As numbers they are 0, 1 and 2.
#[derive(Clone, Copy, Debug, PartialEq, Eq)]
pub enum Whence {
    Start = 0,
    Current = 1,
    End = 2,
}
