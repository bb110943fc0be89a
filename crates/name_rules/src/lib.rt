//! The rules of names and paths, and the comparison of names after simple case folding (The Unicode Standard, section
//! 3.13).
//!
//! `Name::read` and `read_path` refuse exactly what isn't a name or a path, InvalidPath before InvalidName; `same_name`
//! and `fold_cmp` compare the folded characters. `fold_prefix` is the first of them as a number, in the order of names.
#![tactic(auto)]

mod name;
mod order;
mod parts;
mod path;
mod prefix;

pub use name::{Name, NameFault, is_dots, is_name, is_name_byte, is_name_length};
pub use order::{fold_cmp, same_name};
pub use path::{PathFault, read_path};
pub use prefix::fold_prefix;
