//! A walk over the nodes at and below a node.
//!
//! `Walk` lends each node once. Its law (`specs/Walk`) is one equation for any measure: what waits becomes less by the node
//! that was lent. So a sum, a count, and a set of nodes are each an instance of it.
#![tactic(auto)]

mod walk;

pub use walk::Walk;
