//! The child of a name. The index tells of most names which node has them, or that none has.

ghost use Rattle.std.specs.Prelude.{◌≡◌, ℕ, ◌+◌, ◌<◌, ◌≤◌, IfOk, OnErr, IfNone, IfSome, OnSome, true, false, length, None, Some, []};
ghost use Rattle.fsrm_model.specs.nodes.Tree.{child_number};
ghost use Rattle.name_index.specs.Hash.{name_hash};
ghost use Rattle.name_index.specs.Index.{Holds};
ghost use Rattle.node_order.specs.Order.{has_name};
ghost use Rattle.volume_tree.specs.Kept.{AreSlots, rows_of};
ghost use Rattle.volume_tree.specs.Late.{AreApart, IsRegister};

use crate::register::Register;
use crate::slots;
use block_list::Place;
use fsrm_model::{Ledger, Steps};
use name_index::{Index, hash_of};
use node_order::search;
use node_table::NodeTable;

// With fewer runs a search has a look to spare.
const MANY_RUNS: usize = 8192;

// Whether a number is that of a node other than the root that has a name in a folder. It takes a look, whether or not
// there is such a node.
fn has_name<L: Ledger>(
    slots: &NodeTable,
    number: u32,
    folder: u32,
    name: &str,
    steps: &mut Steps<L>,
) -> bool
    requires { AreSlots 0 slots.now.slots }
    ensures value { result ≡ has_name (rows_of slots.now.slots) number folder name.now }
    ensures count { steps.new ≡ steps.old + 1 }
{
    steps.tick();
    slots::has_name(slots, number, folder, name)
}

// The folder that is guessed to have a name of this hash, if it has it. It takes a look if one is guessed, and none
// where a search may take as many as it ever does.
fn guessed<L: Ledger>(
    slots: &NodeTable,
    register: &Register,
    hash: u32,
    folder: u32,
    name: &str,
    steps: &mut Steps<L>,
) -> Option<u32>
    requires { AreSlots 0 slots.now.slots }
    ensures named { IfSome result (λ number. has_name (rows_of slots.now.slots) number folder name.now ≡ true) }
    ensures some { OnSome result (steps.old + 1 ≤ steps.new) }
    ensures least { steps.old ≤ steps.new }
    ensures looks { steps.new ≤ steps.old + 1 }
    ensures many { 8192 ≤ length register.now.order.runs → steps.new ≡ steps.old }
{
    if register.order.run_count() >= MANY_RUNS {
        return None;
    }
    let number = register.hints.guess(hash)?;
    if has_name(slots, number, folder, name, steps) {
        Some(number)
    } else {
        None
    }
}

// The node that the index leads to, if it has the name. It takes a look, whether or not there is one.
fn indexed<L: Ledger>(
    slots: &NodeTable,
    index: &Index,
    hash: u32,
    folder: u32,
    name: &str,
    steps: &mut Steps<L>,
) -> Option<u32>
    requires { AreSlots 0 slots.now.slots }
    ensures named { IfSome result (λ number. has_name (rows_of slots.now.slots) number folder name.now ≡ true) }
    ensures none { IfNone result ((n : ℕ) → Holds index.now hash n → has_name (rows_of slots.now.slots) n folder name.now ≡ false) }
    ensures count { steps.new ≡ steps.old + 1 }
{
    match index.find(hash) {
        Some(number) => {
            if has_name(slots, number, folder, name, steps) {
                Some(number)
            } else {
                None
            }
        }
        None => {
            steps.tick();
            None
        }
    }
}

// The node that the order has of a name that no number has which the index holds under its hash. As an `Err` where a
// new node of the name might stand in the order. It takes no more than 21 looks, and none unless the index has lost some
// number of this hash.
fn searched<L: Ledger>(
    slots: &NodeTable,
    register: &Register,
    hash: u32,
    folder: u32,
    name: &str,
    steps: &mut Steps<L>,
) -> Result<u32, Place>
    requires slots { AreSlots 0 slots.now.slots }
    requires apart { AreApart (rows_of slots.now.slots) }
    requires register { IsRegister (rows_of slots.now.slots) [] register.now }
    requires hash { hash ≡ name_hash folder name.now }
    requires none { (n : ℕ) → Holds register.now.index hash n → has_name (rows_of slots.now.slots) n folder name.now ≡ false }
    ensures ok { IfOk result (λ number. child_number (rows_of slots.now.slots) folder name.now ≡ Some number) }
    ensures err { OnErr result (child_number (rows_of slots.now.slots) folder name.now ≡ None) }
    ensures least { steps.old ≤ steps.new }
    ensures looks { steps.new ≤ steps.old + 21 }
    ensures fewer { length register.now.order.runs < 8192 → steps.new ≤ steps.old + 20 }
{
    if !register.index.has_lost(hash) {
        return Err(Place { run: 0, offset: 0 });
    }
    match search(slots, &register.order, folder, name, steps) {
        Ok(place) => Ok(register.order.get(place)),
        Err(place) => Err(place),
    }
}

// The node that the index leads to, or else the one that is searched. It takes a look, and no more than 22.
fn told<L: Ledger>(
    slots: &NodeTable,
    register: &Register,
    hash: u32,
    folder: u32,
    name: &str,
    steps: &mut Steps<L>,
) -> Result<u32, Place>
    requires slots { AreSlots 0 slots.now.slots }
    requires apart { AreApart (rows_of slots.now.slots) }
    requires register { IsRegister (rows_of slots.now.slots) [] register.now }
    requires hash { hash ≡ name_hash folder name.now }
    ensures ok { IfOk result (λ number. child_number (rows_of slots.now.slots) folder name.now ≡ Some number) }
    ensures err { OnErr result (child_number (rows_of slots.now.slots) folder name.now ≡ None) }
    ensures some { steps.old + 1 ≤ steps.new }
    ensures looks { steps.new ≤ steps.old + 22 }
    ensures fewer { length register.now.order.runs < 8192 → steps.new ≤ steps.old + 21 }
{
    match indexed(slots, &register.index, hash, folder, name, steps) {
        Some(number) => Ok(number),
        None => searched(slots, register, hash, folder, name, steps),
    }
}

/// The number of a folder's child of this name. As an `Err` that there is none, with a place where a new one might stand
/// in the order. It takes a look, and no more than 22. If the path goes on after the name, it is a folder's, and guessed
/// first.
pub fn child<L: Ledger>(
    slots: &NodeTable,
    register: &Register,
    folder: u32,
    name: &str,
    goes_on: bool,
    steps: &mut Steps<L>,
) -> Result<u32, Place>
    requires slots { AreSlots 0 slots.now.slots }
    requires apart { AreApart (rows_of slots.now.slots) }
    requires register { IsRegister (rows_of slots.now.slots) [] register.now }
    ensures ok { IfOk result (λ number. child_number (rows_of slots.now.slots) folder name.now ≡ Some number) }
    ensures err { OnErr result (child_number (rows_of slots.now.slots) folder name.now ≡ None) }
    ensures some { steps.old + 1 ≤ steps.new }
    ensures looks { steps.new ≤ steps.old + 22 }
{
    let hash = hash_of(folder, name);
    if goes_on {
        if let Some(number) = guessed(slots, register, hash, folder, name, steps) {
            return Ok(number);
        }
    }
    told(slots, register, hash, folder, name, steps)
}
