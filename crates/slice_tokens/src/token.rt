// What a window hands out, and why it may not.

/// The next word of a line, or its end.
#[derive(Clone, Copy, Debug, PartialEq, Eq)]
pub enum Token<'a> {
    /// A word: 1 to 32 bytes, none of which is a space, a tab, CR or LF.
    Word(&'a [u8]),
    /// The line has no further word.
    LineEnd,
}

/// Why a token was not read.
#[derive(Clone, Copy, Debug, PartialEq, Eq)]
pub enum TokenFault {
    /// The source failed, and has counted it as a fault.
    Read,
    /// The next word has more than 32 bytes.
    LongWord,
    /// 2^62 bytes have come, and there is a further one.
    Length,
}
