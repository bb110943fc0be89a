//! Moves, in two halves: what can refuse one, and then the change, which can't fail.

ghost use Rattle.std.specs.Prelude.{◌≡◌, ◌+◌, ◌≤◌, ◌==◌, IfOk, IfErr, OnOk, OnErr, true, false, length, None, Some};
ghost use Rattle.fsrm_base.specs.Keyed.{has_row};
ghost use Rattle.fsrm_model.specs.values.Name.{is_name};
ghost use Rattle.fsrm_model.specs.nodes.Tree.{number as key, is_folder, chain};
ghost use Rattle.fsrm_model.specs.store.Valid.{IsVolume};
ghost use Rattle.volume_tree.specs.Volume.{is_other, move_fault, with_place};

use crate::answer::TreeFault;
use crate::climb::is_at_or_below;
use crate::creations::ENTERING;
use crate::lookup::child;
use crate::tree::Tree;
use crate::{reads, slots};
use block_list::Place;
use fsrm_model::{Ledger, Steps};
use name_index::hash_of;
use std::marker::Model;

/// A move that a tree had nothing against, with the name that it gives, lent. It has changed nothing yet.
///
/// It says nothing of a tree that has changed since. Contracts see which node goes into which folder
/// under which name.
#[derive(Drop)]
pub struct ReadyMove<'a> {
    node: u32,
    folder: u32,
    name: &'a str,
}

impl<'a> Model for ReadyMove<'a> {
    ghost use Rattle.volume_tree.specs.Volume.{Move};

    ghost Value = { Move };

    ghost view = { λ m. record { node = m.node; folder = m.folder; name = m.name.now } };
}

// Whether the node that was found is another one.
fn is_other(found: Option<u32>, node: u32) -> bool
    ensures { result ≡ is_other found node }
{
    match found {
        Some(other) => other != node,
        None => false,
    }
}

impl Tree {
    /// Moves a node other than the root into a folder, under a name; its number and moments stay. It
    /// takes no more than 66 looks, and one for each node from the folder up to the root.
    ///
    /// It is refused if the folder is the node or below it, else if another child of the
    /// folder has this name, else if the names would be full, less the old one. An `Err` changes
    /// nothing.
    pub fn move_node<L: Ledger>(
        &mut self,
        node: u32,
        folder: u32,
        name: &str,
        steps: &mut Steps<L>,
    ) -> Result<(), TreeFault>
        requires there { has_row key node self.old.nodes ≡ true }
        requires inner { (node == 0) ≡ false }
        requires folder { is_folder self.old.nodes folder ≡ true }
        requires name { is_name name.now ≡ true }
        ensures made { OnOk result (self.new ≡ with_place self.old node folder name.now) }
        ensures may { OnOk result (move_fault self.old node folder name.now ≡ None) }
        ensures refused { IfErr result (λ fault. move_fault self.old node folder name.now ≡ Some fault) }
        ensures err { OnErr result (self.new ≡ self.old) }
        ensures kept { IsVolume self.new.size self.new.nodes }
        ensures looks { steps.new ≤ steps.old + (66 + length (chain self.old.nodes folder)) }
    {
        let ready = self.ready_move(node, folder, name, steps)?;
        self.make_move(ready, steps);
        Ok(())
    }

    /// The first half of `move_node`: all that can refuse a move. It changes nothing, and the same tree can
    /// then make the move. It takes no more than 23 looks, and one for each node from the folder up to the
    /// root.
    ///
    /// It is refused as `move_node` is.
    pub fn ready_move<'a, L: Ledger>(
        &self,
        node: u32,
        folder: u32,
        name: &'a str,
        steps: &mut Steps<L>,
    ) -> Result<ReadyMove<'a>, TreeFault>
        requires there { has_row key node self.now.nodes ≡ true }
        requires inner { (node == 0) ≡ false }
        requires folder { is_folder self.now.nodes folder ≡ true }
        requires name { is_name name.now ≡ true }
        ensures ready { IfOk result (λ ready. ready ≡ record { node = node; folder = folder; name = name.now }) }
        ensures may { OnOk result (move_fault self.now node folder name.now ≡ None) }
        ensures refused { IfErr result (λ fault. move_fault self.now node folder name.now ≡ Some fault) }
        ensures volume { OnOk result (IsVolume self.now.size (with_place self.now node folder name.now).nodes) }
        ensures kept { IsVolume self.now.size self.now.nodes }
        ensures looks { steps.new ≤ steps.old + (23 + length (chain self.now.nodes folder)) }
    {
        if is_at_or_below(&self.slots, node, folder, steps) {
            return Err(TreeFault::InvalidMove);
        }
        let found = child(&self.slots, &self.register, folder, name, false, steps).ok();
        if is_other(found, node) {
            return Err(TreeFault::AlreadyExists);
        }
        let old_bytes = slots::name_length(&self.slots, node, steps);
        let bytes = self.used as u64 + name.len() as u64;
        if bytes > self.size.names as u64 + old_bytes as u64 {
            return Err(TreeFault::NamesFull);
        }
        Ok(ReadyMove { node, folder, name })
    }

    /// The second half of `move_node`: makes a move that is ready, and that the tree still has nothing
    /// against. It can't fail. It takes no more than 43 looks.
    pub fn make_move<L: Ledger>(&mut self, ready: ReadyMove<'_>, steps: &mut Steps<L>)
        requires there { has_row key ready.node self.old.nodes ≡ true }
        requires inner { (ready.node == 0) ≡ false }
        requires folder { is_folder self.old.nodes ready.folder ≡ true }
        requires name { is_name ready.name ≡ true }
        requires may { move_fault self.old ready.node ready.folder ready.name ≡ None }
        ensures made { self.new ≡ with_place self.old ready.entry.node ready.entry.folder ready.entry.name }
        ensures kept { IsVolume self.new.size self.new.nodes }
        ensures looks { steps.new ≤ steps.old + 43 }
    {
        let ReadyMove { node, folder, name } = ready;
        let bytes = name.len() as u32;
        self.register.arrange_if_many(&self.slots);
        let row = reads::node(&self.slots, node, steps);
        let old_bytes = row.name.len() as u32;
        self.register.leave(&self.slots, &row, steps);
        self.slots.set_place(node, folder, name);
        steps.count(ENTERING);
        let moved = self.slots.node(node);
        let hash = hash_of(folder, name);
        self.register
            .enter(&self.slots, &moved, hash, Place { run: 0, offset: 0 });
        self.used = self.used - old_bytes + bytes;
    }
}
