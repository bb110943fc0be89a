//! Patterns of file names, and whether a name matches one (MS-FSRM, IFsrmFileGroup).
//!
//! In a pattern `*` stands for any characters, `?` for one, and each other character for those that fold as it does;
//! the whole pattern `*.*` means `*`. A name that is asked of many patterns is folded once (`FoldedName`), and only if
//! its last character is one that a matching name may end with (`Ends`). Contracts see a pattern as its bytes.
#![tactic(auto)]

mod ends;
mod folded;
mod matching;
mod pattern;

pub use ends::Ends;
pub use folded::FoldedName;
pub use matching::{Rest, some_matches};
pub use pattern::{Pattern, is_pattern};
