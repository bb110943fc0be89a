//! The quota templates of a store (MS-FSRM, IFsrmQuotaTemplate) and its auto-apply quotas (IFsrmAutoApplyQuota): the
//! rows of both, the quota that a template gives a folder, and what a template's change makes of the quotas that were
//! derived from it.
//!
//! Each call leaves exactly the rows that the definitions give. It refuses exactly for the first cause that holds, in
//! the order of `TemplateFault`, before it takes any memory. If it fails, the rows are as they were.
#![tactic(auto)]

mod answer;
mod autos;
mod derived;
mod kinds;
mod matching;
mod reached;
mod rows;
mod templates;

pub use answer::TemplateFault;
pub use reached::{Reached, Was};
pub use rows::excludes;
pub use templates::Templates;
