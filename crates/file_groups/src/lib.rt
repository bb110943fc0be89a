//! The table of file groups, each of which has patterns of names (MS-FSRM, IFsrmFileGroup).
//!
//! A name is in a group if some member pattern and no non-member pattern matches it. A name that is asked of many groups
//! is folded once, and only if its last character is one that a name in some group ends with (`Groups::may_have`). It is
//! compared with the patterns of those groups alone in which a name may end so. `Groups` refuses exactly for the first
//! cause that holds, DuplicateName before TableFull before TextsFull, before it takes any memory; then the table is as it
//! was. Contracts see the table as its rows.
#![tactic(auto)]

mod answer;
mod groups;
mod held;
mod rows;

pub use answer::GroupFault;
pub use groups::Groups;
