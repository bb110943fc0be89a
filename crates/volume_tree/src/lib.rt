//! The tree of a volume's folders and files.
//!
//! A node's row stands in the slot of its number. By names nodes are found in a register, which has an index of all
//! names and an order of places, by folders and folded names. The index tells at once of most names which node has them,
//! or that none has. Where it has lost some, the order is searched.
//!
//! A new node is *late* at first: `Tree::arrange` puts the entries of late nodes into the order, many of them at once.
//! Until then the index leads to the node; one that the index loses goes into the order at once. So names are found
//! whether or not nodes are late, and whoever asks for children calls `Tree::arrange` first. Contracts see a
//! tree as its capacity and its nodes in the order of their numbers: nothing that a tree answers tells which are late.
//!
//! A call counts the nodes that it reads, compares or lends as looks. But `children`, `child_count` and `child_at` count
//! one look for the call, whatever entries they compare to find where a folder's children stand. A node that is made or
//! moved counts 21 looks, which put it into the order: then, or when the tree is arranged. No other call reads
//! a node that it doesn't count, but those that make a tree of rows, whose nodes are all late.
//!
//! All memory is taken when a tree is made, and again only for copies of its rows.
#![tactic(auto)]

mod answer;
mod children;
mod climb;
mod creations;
mod finger;
mod hints;
mod listing;
mod lookup;
mod moves;
mod reads;
mod register;
mod rows;
mod slots;
mod tree;
mod unsettled;
mod way_up;

pub use answer::{RowsFault, TreeFault};
pub use children::{Children, Siblings};
pub use finger::Finger;
pub use moves::ReadyMove;
pub use node_table::NodeView;
pub use tree::Tree;
pub use way_up::WayUp;
