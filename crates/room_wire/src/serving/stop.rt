//! How serving ends.

/// How the rounds over the bytes at hand ended.
#[derive(Clone, Copy, Debug, PartialEq, Eq)]
pub(crate) enum RoundsEnd {
    /// More bytes are wanted.
    NeedsMore,
    /// No message can come.
    Broken,
    /// A last message was answered.
    Last,
    /// The writer failed.
    NotWritten,
}

/// Why serving ended.
#[derive(Clone, Copy, Debug, PartialEq, Eq)]
pub enum Why {
    /// A last message was answered, or the input ended where no byte waits.
    Closed,
    /// No message can come any more: the answer 40 was written.
    BadMessage,
    /// A read failed, or there were 2^64 - 1 of them.
    ReadFailed,
    /// A write failed or took nothing.
    WriteFailed,
    /// Memory was refused before the first read.
    Memory,
}

/// How serving ended, and how many messages were decided, the one whose writing failed included.
/// The count stays at 2^64 - 1.
#[derive(Clone, Copy, Debug, PartialEq, Eq)]
pub struct ServeEnd {
    pub why: Why,
    pub count: u64,
}
