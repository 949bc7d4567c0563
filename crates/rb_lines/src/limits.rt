//! Limits of lines, of what is read and of what is buffered for the writer.

/// The most reads of one input.
pub const MOST_READS: u64 = 4_000_000_000;

/// The most bytes of a line, without its line feed.
pub const LINE_LIMIT: usize = 1_048_576;

/// The bytes that one read asks for.
pub const READ_SIZE: usize = 65_536;

/// Replies go out once they have this number of bytes, even if more lines wait.
pub const MOST_BUFFERED: usize = 65_536;

/// A batch of lines that are committed together ends once its entries, or its texts, have more bytes than this.
pub const MOST_BATCHED: usize = 1_048_576;
