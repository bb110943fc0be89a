//! What no clause says of the public calls of the libraries: that each succeeds with ample memory, and that the
//! definitions say what was meant where no script can show it. A crate with tests is proved twice, and each statement
//! of a test is proved too: so the tests of all crates stand here, and are short. Tables of cases that a script can
//! state are scripts (`.ci/scripts`).
//!
//! What a check of a function costs grows with its statements times the values that it owns times the size of their
//! types. So a function that owns an engine or a tree only makes it and lends it to one that owns nothing, a row is
//! made in a function of its own, and `assert!(rt; a == b)` stands for `assert_eq!`.
#![tactic(auto)]

#[cfg(test)]
mod acts;
#[cfg(test)]
mod audits;
#[cfg(test)]
mod chances;
#[cfg(test)]
mod devices;
#[cfg(test)]
mod disks;
#[cfg(test)]
mod engines;
#[cfg(test)]
mod finishes;
#[cfg(test)]
mod groups;
#[cfg(test)]
mod lists;
#[cfg(test)]
mod many_files;
#[cfg(test)]
mod many_names;
#[cfg(test)]
mod names;
#[cfg(test)]
mod plain_table;
#[cfg(test)]
mod plain_tree;
#[cfg(test)]
mod quota_templates;
#[cfg(test)]
mod quotas;
#[cfg(test)]
mod regions;
#[cfg(test)]
mod reports;
#[cfg(test)]
mod rows;
#[cfg(test)]
mod rows_back;
#[cfg(test)]
mod scans;
#[cfg(test)]
mod spoilt_rows;
#[cfg(test)]
mod trees;
#[cfg(test)]
mod two_tables;
#[cfg(test)]
mod two_trees;
#[cfg(test)]
mod values;
