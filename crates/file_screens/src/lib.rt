//! Which file screen judges the name that a file is given, and the log of the names that screens judged (MS-FSRM,
//! IFsrmFileScreen and IFsrmFileScreenException).
//!
//! `blocked` climbs from the folder to the root, at one look a folder at most, and takes no memory. Without screens it
//! takes no look. The audit log keeps its last 1,024 entries, with their names, in memory that is reserved once.
#![tactic(auto)]

mod answer;
mod audit;
mod screening;

pub use answer::Blocked;
pub use audit::{Audit, AuditView};
pub use screening::blocked;
