//! Counters, and what changes them.

/// What is used at and below a folder.
#[derive(Clone, Copy, Debug, PartialEq, Eq)]
pub struct Counter {
    pub folder: u32,
    pub bytes: u64,
}

/// What a file operation does to what is used: it takes `minus` bytes from the folder `from` and each
/// folder above it, and gives `plus` bytes to `to` and each folder above it.
#[derive(Clone, Copy, Debug, PartialEq, Eq)]
pub struct Change {
    pub from: Option<u32>,
    pub to: Option<u32>,
    pub minus: u64,
    pub plus: u64,
}

/// The deepest quota that refuses a change: its folder, how many bytes would be used, and its limit.
#[derive(Clone, Copy, Debug, PartialEq, Eq)]
pub struct Exceeded {
    pub folder: u32,
    pub would: u64,
    pub limit: u64,
}
