//! A volume's nodes.

ghost use Rattle.std.specs.Prelude.{◌≡◌, ◌+◌, ◌*◌, ◌<◌, ◌≤◌, ◌==◌, IfOk, IfErr, OnOk, OnErr, OnSome, IsErrOf, true, false, length, take, drop, map, None, Some, ◌∷◌, []};
ghost use Rattle.fsrm_model.specs.store.Capacities.{is_capacity};
ghost use Rattle.fsrm_model.specs.nodes.Fresh.{root_node};
ghost use Rattle.fsrm_base.specs.Keyed.{has_row};
ghost use Rattle.fsrm_model.specs.values.Limits.{longest_file, latest_moment};
ghost use Rattle.fsrm_model.specs.meaning.PathNames.{left};
ghost use Rattle.fsrm_model.specs.values.Space.{alloc};
ghost use Rattle.fsrm_model.specs.nodes.Tree.{number as key, is_folder, is_under, children, children_in_order, child_number, chain, resolve, name_bytes};
ghost use Rattle.fsrm_model.specs.store.Valid.{is_tree, IsVolume};
ghost use Rattle.volume_tree.specs.Looks.{passed};
ghost use Rattle.volume_tree.specs.Volume.{IsChildAt, Shows, remove_fault, with_length, with_touch, without_node};

use crate::answer::{RowsFault, TreeFault};
use crate::climb::is_at_or_below;
use crate::register::Register;
use crate::way_up::WayUp;
use crate::{lookup, reads, rows, slots};
use fsrm_model::{Capacity, Ledger, List, Names, NoMemory, NodeRow, Path, Steps, allocated};
use node_table::{NodeTable, NodeView};
use number_set::NumberSet;
use std::alloc::Global;
use std::marker::Model;

/// A volume's folders and files, in memory of its own. Contracts see its size and its nodes.
///
/// `steps` counts looks. A look is one node that a call reads, compares or lends. But `child_count` and `child_at` are
/// one look each, whatever entries they compare to find where a folder's children stand; `children` counts as
/// `child_count`, and each child that it lends as one of `child_at`. A node that is made or moved counts in advance the
/// looks that put it among the children of its folder, which `arrange` does for many at once.
///
/// All memory is taken by `reserve`, `from_rows` and `to_rows`.
#[derive(Drop)]
pub struct Tree {
    pub(crate) size: Capacity,
    // How many nodes there are, and the bytes of all their names.
    pub(crate) count: u32,
    pub(crate) used: u32,
    // Each row stands in the slot of its number.
    pub(crate) slots: NodeTable,
    // The numbers of the slots that are empty.
    pub(crate) holes: NumberSet,
    // Where nodes are found by their names, with room for all nodes.
    pub(crate) register: Register,
}

impl Model for Tree {
    ghost use Rattle.volume_tree.specs.Volume.{Volume};
    ghost use Rattle.volume_tree.specs.Kept.{IsHeld, rows_of};

    ghost Value = { Volume };

    ghost view = { λ t. record { size = t.size; nodes = rows_of t.slots.slots } };

    ghost invariant = { λ t. IsHeld t.size t.count t.used t.holes t.slots t.register };
}

impl Tree {
    /// A volume of this size, with the root alone: 2 to 1,048,576 nodes, 256 to 268,435,456 bytes of
    /// names, and clusters of 512 to 65,536 bytes, a power of 2.
    pub fn reserve(alloc: Global, size: Capacity) -> Result<Tree, NoMemory>
        requires { is_capacity size ≡ true }
        ensures ok { IfOk result (λ tree. tree ≡ record { size = size; nodes = root_node ∷ [] }) }
        ensures kept { IfOk result (λ tree. IsVolume tree.size tree.nodes) }
    {
        let slots = slots::root_alone(alloc, size)?;
        let holes = NumberSet::reserve(alloc, size.nodes)?;
        let register = Register::reserve(alloc, size.nodes, 1)?;
        Ok(Tree {
            size,
            count: 1,
            used: 0,
            slots,
            holes,
            register,
        })
    }

    /// How many nodes there are, the root among them.
    pub fn count(&self) -> u32
        ensures { result ≡ length self.now.nodes }
    {
        self.count
    }

    /// The bytes of all names.
    pub fn name_bytes(&self) -> u32
        ensures { result ≡ name_bytes self.now.nodes }
    {
        self.used
    }

    /// How much the volume may hold.
    pub fn capacity(&self) -> Capacity
        ensures size { result ≡ self.now.size }
        ensures legal { is_capacity result ≡ true }
    {
        self.size
    }

    /// What a file of so many bytes takes: whole clusters.
    pub fn allocated(&self, bytes: u64) -> u64
        requires { bytes ≤ longest_file }
        ensures space { result ≡ alloc self.now.size bytes }
        ensures small { result ≤ longest_file }
    {
        allocated(bytes, self.size.cluster)
    }

    /// Whether there is a node of this number.
    pub fn live(&self, node: u32) -> bool
        ensures { result ≡ has_row key node self.now.nodes }
    {
        slots::is_there(&self.slots, node)
    }

    /// The number of a folder's child of this name. It takes a look, and no more than 22.
    pub fn child<L: Ledger>(&self, folder: u32, name: &str, steps: &mut Steps<L>) -> Option<u32>
        ensures value { result ≡ child_number self.now.nodes folder name.now }
        ensures some { steps.old + 1 ≤ steps.new }
        ensures looks { steps.new ≤ steps.old + 22 }
    {
        lookup::child(&self.slots, &self.register, folder, name, false, steps).ok()
    }

    /// The node that the next names of a path lead to, so many of them, which are taken. It takes no more
    /// than 22 looks for each, and one more: that one at least, and one for each if it finds the node.
    pub fn resolve_next<L: Ledger>(
        &self,
        names: &mut Names<'_>,
        count: usize,
        steps: &mut Steps<L>,
    ) -> Option<u32>
        requires count { count ≤ length (left names.old) }
        ensures value { result ≡ resolve self.now.nodes (take count (left names.old)) }
        ensures rest { OnSome result (left names.new ≡ drop count (left names.old)) }
        ensures some { steps.old + 1 ≤ steps.new }
        ensures each { OnSome result (steps.old + (count + 1) ≤ steps.new) }
        ensures looks { steps.new ≤ steps.old + (22 * count + 1) }
    {
        // A look at the root.
        steps.tick();
        let mut at = 0;
        for place in 0..count {
            let name = names.next()?;
            let goes_on = place + 1 < count;
            match lookup::child(&self.slots, &self.register, at, name, goes_on, steps) {
                Ok(child) => at = child,
                Err(_) => return None,
            }
        }
        Some(at)
    }

    /// The node that a path leads to. It takes no more than 22 looks for each name, and one more: that one
    /// at least, and one for each name if it finds the node.
    pub fn resolve<L: Ledger>(&self, path: &Path, steps: &mut Steps<L>) -> Option<u32>
        ensures value { result ≡ resolve self.now.nodes path.now }
        ensures some { steps.old + 1 ≤ steps.new }
        ensures each { OnSome result (steps.old + (length path.now + 1) ≤ steps.new) }
        ensures looks { steps.new ≤ steps.old + (22 * length path.now + 1) }
    {
        let mut names = path.names();
        self.resolve_next(&mut names, path.depth(), steps)
    }

    /// A node that there is.
    pub fn node<L: Ledger>(&self, node: u32, steps: &mut Steps<L>) -> NodeView<'_>
        requires { has_row key node self.now.nodes ≡ true }
        ensures view { Shows result self.now.nodes node }
        ensures short { result.length ≤ longest_file }
        ensures count { steps.new ≡ steps.old + 1 }
    {
        reads::node(&self.slots, node, steps)
    }

    /// The way from a node that there is up to the root, the node itself first. This call takes no look: `WayUp::next`
    /// takes one for each node that it lends.
    pub fn way_up(&self, node: u32) -> WayUp<'_>
        requires { has_row key node self.now.nodes ≡ true }
        ensures { result ≡ chain self.now.nodes node }
    {
        WayUp::from(&self.slots, node)
    }

    /// Whether a node is another one or stands below it. It takes a look for each node from it up to that
    /// other one, or else to the root.
    pub fn is_at_or_below<L: Ledger>(&self, top: u32, node: u32, steps: &mut Steps<L>) -> bool
        requires { has_row key node self.now.nodes ≡ true }
        ensures below { result ≡ is_under self.now.nodes top node }
        ensures count { steps.new ≡ steps.old + passed top (chain self.now.nodes node) }
        ensures looks { steps.new ≤ steps.old + length (chain self.now.nodes node) }
    {
        is_at_or_below(&self.slots, top, node, steps)
    }

    /// Puts the nodes that were made or moved lately among the children of their folders. It changes nothing that is
    /// answered: children are asked for quicker afterwards. Each such node counted its looks when it was made or moved.
    pub fn arrange(&mut self)
        ensures same { self.new ≡ self.old }
        ensures kept { IsVolume self.new.size self.new.nodes }
    {
        self.register.arrange(&self.slots);
    }

    /// The same, unless these nodes are few.
    pub fn arrange_if_many(&mut self)
        ensures same { self.new ≡ self.old }
        ensures kept { IsVolume self.new.size self.new.nodes }
    {
        self.register.arrange_if_many(&self.slots);
    }

    /// Sets a file's length, in bytes, and the moment that it was modified. It takes one look.
    pub fn resize<L: Ledger>(&mut self, node: u32, length: u64, moment: u64, steps: &mut Steps<L>)
        requires there { has_row key node self.old.nodes ≡ true }
        requires file { is_folder self.old.nodes node ≡ false }
        requires length { length ≤ longest_file }
        requires moment { moment ≤ latest_moment }
        ensures made { self.new ≡ with_length self.old node length moment }
        ensures kept { IsVolume self.new.size self.new.nodes }
        ensures count { steps.new ≡ steps.old + 1 }
    {
        steps.tick();
        self.slots.set_length(node, length, moment);
    }

    /// Sets the moment that a file was accessed. It takes one look.
    pub fn touch<L: Ledger>(&mut self, node: u32, moment: u64, steps: &mut Steps<L>)
        requires there { has_row key node self.old.nodes ≡ true }
        requires file { is_folder self.old.nodes node ≡ false }
        requires moment { moment ≤ latest_moment }
        ensures made { self.new ≡ with_touch self.old node moment }
        ensures kept { IsVolume self.new.size self.new.nodes }
        ensures count { steps.new ≡ steps.old + 1 }
    {
        steps.tick();
        self.slots.set_accessed(node, moment);
    }

    /// Takes away a node other than the root. It takes no more than 22 looks for a file, and 44 for a folder.
    ///
    /// It is refused if the node has a child. An `Err` changes nothing.
    pub fn remove<L: Ledger>(&mut self, node: u32, steps: &mut Steps<L>) -> Result<(), TreeFault>
        requires there { has_row key node self.old.nodes ≡ true }
        requires inner { (node == 0) ≡ false }
        ensures made { OnOk result (self.new ≡ without_node self.old node) }
        ensures may { OnOk result (remove_fault self.old node ≡ None) }
        ensures refused { IfErr result (λ fault. remove_fault self.old node ≡ Some fault) }
        ensures err { OnErr result (self.new ≡ self.old) }
        ensures kept { IsVolume self.new.size self.new.nodes }
        ensures file { is_folder self.old.nodes node ≡ false → steps.new ≤ steps.old + 22 }
        ensures looks { steps.new ≤ steps.old + 44 }
    {
        self.register.arrange_if_many(&self.slots);
        let row = reads::node(&self.slots, node, steps);
        if self.register.has_child(&self.slots, &row, steps) {
            return Err(TreeFault::NotEmpty);
        }
        let bytes = row.name.len() as u32;
        self.register.leave(&self.slots, &row, steps);
        self.slots.take_away(node);
        self.count -= 1;
        self.used -= bytes;
        self.holes.insert(node);
        Ok(())
    }

    /// Copies of all rows, ascending by number. It takes a look for each.
    pub fn to_rows<L: Ledger>(
        &self,
        alloc: Global,
        steps: &mut Steps<L>,
    ) -> Result<List<NodeRow>, NoMemory>
        ensures rows { IfOk result (λ rows. rows ≡ self.now.nodes) }
        ensures count { OnOk result (steps.new ≡ steps.old + length self.now.nodes) }
        ensures most { steps.new ≤ steps.old + length self.now.nodes }
    {
        steps.count(self.count as usize);
        self.slots.to_rows(alloc)
    }

    /// The tree of these rows. They are bad exactly if they aren't the nodes of a volume of this
    /// size: ascending numbers below the size, a root of number 0, valid names, no two children of a
    /// folder of one folded name, lengths, owners and moments in their ranges, parents that are
    /// folders and lead up to the root, and no more bytes of names than the size has.
    pub fn from_rows(alloc: Global, rows: &List<NodeRow>, size: Capacity) -> Result<Tree, RowsFault>
        requires { is_capacity size ≡ true }
        ensures ok { IfOk result (λ tree. tree ≡ record { size = size; nodes = rows.now }) }
        ensures kept { IfOk result (λ tree. IsVolume tree.size tree.nodes) }
        ensures may { OnOk result (is_tree size rows.now ≡ true) }
        ensures bad { IsErrOf result RowsFault.BadRows → is_tree size rows.now ≡ false }
    {
        let parts = match rows::read(alloc, rows.as_slice(), size) {
            Ok(parts) => parts,
            Err(fault) => return Err(fault),
        };
        Ok(Tree {
            size,
            count: parts.count,
            used: parts.used,
            slots: parts.slots,
            holes: parts.holes,
            register: parts.register,
        })
    }
}
