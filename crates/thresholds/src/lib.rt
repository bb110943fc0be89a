//! Thresholds of quotas (MS-FSRM, IFsrmQuotaBase, Thresholds): which are reached, which of their actions may run, which
//! ran and are still to be handed out, and the log of those that ran. The actions of file screens are marked and logged
//! here too.
//!
//! After a command that lasts, each quota that may have crossed a threshold, and the one that refused a write, is
//! settled: of the thresholds that it reaches now and didn't before, or would have reached by the write, the actions
//! that may run are marked, have their last runs set, and come into the log. The same goes for the actions of a screen
//! that judged a name. Marked actions are then handed out as acts: first those of the screen, by their places, then
//! those of quotas, in the order of folders, percentages and places.
#![tactic(auto)]

mod marks;
mod rules;
mod screens;
mod spot;

pub use marks::Marks;
pub use rules::{crosses, crosses_any, has_percent, reached, ready};
