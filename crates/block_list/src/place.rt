//! Places in a list.

/// Where an entry stands, or is to stand: in which run of the list, and after how many entries of it.
#[derive(Clone, Copy, Debug, PartialEq, Eq)]
pub struct Place {
    pub run: usize,
    pub offset: usize,
}
