//! The sizes of what a store holds and writes.

/// The bytes of a half's head, after which its image begins.
pub const HEAD: u64 = 48;

/// The bytes of entries after which a new image is written, unless the image is longer.
pub const LONG_TAIL: u64 = 1_048_576;

/// The bytes of the longest piece of an image.
pub const LONGEST_PIECE: usize = 262_144;

/// The bytes of an image that are written at once, at least.
pub const WRITTEN: usize = 65_536;

/// The bytes of the store's buffer: less than is written at once, and after them the longest piece.
pub const BUFFER: usize = WRITTEN + LONGEST_PIECE;
