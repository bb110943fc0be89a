//! Nodes in slots, each in the slot of its number.

ghost use Rattle.std.specs.Prelude.{◌≡◌, ◌+◌, ◌^◌, ◌<◌, ◌≤◌, IfOk, length, option_map, true, Some, [], ◌∷◌};
ghost use Rattle.fsrm_model.specs.nodes.Fresh.{root_node};
ghost use Rattle.fsrm_base.specs.Keyed.{has_row};
ghost use Rattle.fsrm_model.specs.nodes.Tree.{number as key, node_of, name_of, fresh};
ghost use Rattle.node_order.specs.Order.{has_name};
ghost use Rattle.node_table.specs.Views.{seen};
ghost use Rattle.volume_tree.specs.Kept.{AreHoles, AreSlots, rows_of};

use crate::reads;
use fsrm_model::{Capacity, Ledger, NoMemory, Steps};
use name_rules::same_name;
use node_table::{NodeTable, NodeView};
use number_set::NumberSet;
use std::alloc::Global;

/// The slots of a volume of this size with the root alone.
pub fn root_alone(alloc: Global, size: Capacity) -> Result<NodeTable, NoMemory>
    requires { 0 < size.nodes }
    ensures { IfOk result (λ slots. slots ≡ record { nodes = size.nodes; names = size.names; slots = Some root_node ∷ [] }) }
{
    let root = NodeView {
        number: 0,
        parent: 0,
        name: "",
        folder: true,
        length: 0,
        owner: 1,
        created: 0,
        modified: 0,
        accessed: 0,
    };
    let mut slots = NodeTable::reserve(alloc, size.nodes, size.names)?;
    slots.put(&root);
    Ok(slots)
}

/// Whether there is a node of a number.
pub fn is_there(slots: &NodeTable, number: u32) -> bool
    requires { AreSlots 0 slots.now.slots }
    ensures { result ≡ has_row key number (rows_of slots.now.slots) }
{
    slots.is_taken(number)
}

/// The node of a number.
pub fn row(slots: &NodeTable, number: u32) -> Option<NodeView<'_>>
    requires { AreSlots 0 slots.now.slots }
    ensures { option_map seen result ≡ node_of (rows_of slots.now.slots) number }
{
    slots.get(number)
}

/// Whether a number is that of a node other than the root that has a name in a folder.
pub fn has_name(slots: &NodeTable, number: u32, folder: u32, name: &str) -> bool
    requires { AreSlots 0 slots.now.slots }
    ensures { result ≡ has_name (rows_of slots.now.slots) number folder name.now }
{
    match row(slots, number) {
        Some(row) => number != 0 && row.parent == folder && same_name(row.name, name),
        None => false,
    }
}

/// The least number that no row has: that of the first empty slot, or else of the slot that is to come.
pub fn next_number(slots: &NodeTable, holes: &NumberSet) -> u32
    requires slots { AreSlots 0 slots.now.slots }
    requires holes { AreHoles slots.now.slots holes.now.members }
    ensures { result ≡ fresh (rows_of slots.now.slots) }
{
    match holes.least() {
        Some(number) => number,
        None => slots.len(),
    }
}

/// The numbers of the empty slots, with room for all numbers below a bound.
pub fn holes_in(alloc: Global, slots: &NodeTable, bound: u32) -> Result<NumberSet, NoMemory>
    requires slots { AreSlots 0 slots.now.slots }
    requires fit { length slots.now.slots ≤ bound }
    ensures holes { IfOk result (λ holes. AreHoles slots.now.slots holes.members) }
    ensures bound { IfOk result (λ holes. holes.bound ≡ bound) }
{
    let mut holes = NumberSet::reserve(alloc, bound)?;
    for number in 0..slots.len() {
        if !is_there(slots, number) {
            holes.insert(number);
        }
    }
    Ok(holes)
}

/// The bytes of a node's name. It takes one look.
pub fn name_length<L: Ledger>(slots: &NodeTable, number: u32, steps: &mut Steps<L>) -> u32
    requires slots { AreSlots 0 slots.now.slots }
    requires there { has_row key number (rows_of slots.now.slots) ≡ true }
    requires short { length (name_of (rows_of slots.now.slots) number) < 2 ^ 32 }
    ensures bytes { result ≡ length (name_of (rows_of slots.now.slots) number) }
    ensures count { steps.new ≡ steps.old + 1 }
{
    reads::node(slots, number, steps).name.len() as u32
}
