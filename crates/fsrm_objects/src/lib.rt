//! The tables of a store's objects: its quotas (MS-FSRM, IFsrmQuota), its file screens (IFsrmFileScreen) and their
//! exceptions (IFsrmFileScreenException), each ascending by their folders, and its report jobs (IFsrmReportJob),
//! ascending by their numbers.
//!
//! Each call leaves exactly the rows that the definitions give. It refuses exactly for the first cause that holds,
//! in the order of `ObjectFault`, and then the tables are as they were. NoMemory comes only if nothing else refuses.
#![tactic(auto)]

mod answer;
mod edits;
mod excepts;
mod jobs;
mod kinds;
mod objects;
mod percents;
mod runs;
mod screens;
mod texts;

pub use answer::ObjectFault;
pub use objects::Objects;
pub use percents::threshold_place;
pub use texts::{are_too_many, threshold_texts};
