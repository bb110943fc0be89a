//! What is told of a screen.

/// The screen that judges a name.
#[derive(Clone, Copy, Debug, PartialEq, Eq)]
pub struct Blocked {
    /// The screen's folder.
    pub screen: u32,
    /// Whether it refuses the name. A passive screen reports it.
    pub active: bool,
}
