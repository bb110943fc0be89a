//! How an entry stands to the place of a name, or of another entry.

ghost use Rattle.std.specs.Prelude.{◌≡◌, ◌+◌, true};
ghost use Rattle.std.specs.Ordering.{nat_cmp, ordering_then};
ghost use Rattle.fsrm_base.specs.Keyed.{has_row};
ghost use Rattle.fsrm_model.specs.nodes.Tree.{number as key};
ghost use Rattle.name_rules.specs.Prefix.{prefix as prefix_of};
ghost use Rattle.node_order.specs.Entries.{IsOwn, place_key};
ghost use Rattle.node_table.specs.Slots.{AreSlots, rows_of};
ghost use Rattle.node_order.specs.Order.{HasName, Stands};

use crate::entries::Entry;
use fsrm_model::{Ledger, Steps};
use name_rules::fold_cmp;
use node_table::NodeTable;
use std::cmp::Ordering;

/// A folder and the prefix of a name in it as one number, so that both are compared at once, without a branch.
#[inline]
pub fn place_key(folder: u64, prefix: u64) -> u128
    ensures { result ≡ place_key folder prefix }
{
    u128::from(folder) * 0x1_0000_0000_0000_0000 + u128::from(prefix)
}

/// The folder and the first characters of an entry's name as one number.
#[inline]
pub fn key_of(entry: Entry) -> u128
    ensures { result ≡ place_key entry.parent entry.prefix }
{
    place_key(u64::from(entry.parent), entry.prefix)
}

/// How two entries compare by folders and first characters, and where these are the same by the numbers of their nodes.
/// That is a total order, and the order of their places but for names of one folder that begin alike. No name is read
/// for it.
#[inline]
pub fn by_place(a: &Entry, b: &Entry) -> Ordering
    ensures { result ≡ ordering_then (nat_cmp (place_key a.now.parent a.now.prefix) (place_key b.now.parent b.now.prefix)) (nat_cmp a.now.node b.now.node) }
{
    let (ours, theirs) = (key_of(*a), key_of(*b));
    ours.cmp(&theirs).then(a.node.cmp(&b.node))
}

/// The name of a node that is there. Who compares it counts the look.
#[inline]
pub fn name_at(slots: &NodeTable, number: u32) -> &str
    requires slots { AreSlots 0 slots.now.slots }
    requires there { has_row key number (rows_of slots.now.slots) ≡ true }
    ensures { HasName (rows_of slots.now.slots) number result.now }
{
    slots.name(number)
}

/// Whether an entry stands before the place of a name in a folder, not after it. None if it has the name. Its node's
/// row is read only if the folder and the first characters are the same. It takes a look, whether or not it reads it.
#[inline]
pub fn is_before<L: Ledger>(
    slots: &NodeTable,
    entry: Entry,
    folder: u64,
    prefix: u64,
    name: &str,
    steps: &mut Steps<L>,
) -> Option<bool>
    requires slots { AreSlots 0 slots.now.slots }
    requires entry { IsOwn (rows_of slots.now.slots) entry }
    requires prefix { prefix ≡ prefix_of name.now }
    ensures stands { Stands (rows_of slots.now.slots) entry.node folder name.now result }
    ensures count { steps.new ≡ steps.old + 1 }
{
    steps.tick();
    let ours = place_key(u64::from(entry.parent), entry.prefix);
    let sought = place_key(folder, prefix);
    if ours == sought {
        return match fold_cmp(name_at(slots, entry.node), name) {
            Ordering::Equal => None,
            order => Some(order.is_lt()),
        };
    }
    Some(ours < sought)
}
