//! A folder's children, lent a run at a time, or one by one where they don't stand in the order.

ghost use Rattle.std.specs.Prelude.{◌≡◌, ◌+◌, ◌<◌, ◌≤◌, ◌++◌, None, IfSome, IfNone, length, slice_index, []};
ghost use Rattle.block_list.specs.Places.{IsGap, index_of};
ghost use Rattle.block_list.specs.Runs.{entries_of};
ghost use Rattle.volume_tree.specs.Kept.{AreSlots, numbers_from, rows_of};
ghost use Rattle.volume_tree.specs.Late.{AreApart};
ghost use Rattle.volume_tree.specs.Siblings.{numbers_after};

use crate::unsettled::next_child;
use block_list::Place;
use fsrm_model::{Ledger, Steps};
use node_order::{Entry, Order, entry_from};
use node_table::NodeTable;
use std::marker::Model;

/// The numbers of a folder's children that are still to be lent, in the order of their folded names. Contracts see
/// them.
#[derive(Drop)]
pub struct Children<'t> {
    order: &'t Order,
    place: Place,
    left: usize,
    // Where they are sought instead, if some nodes are late.
    sought: Option<Sought<'t>>,
}

impl<'t> Model for Children<'t> {
    ghost use Rattle.std.specs.Prelude.{ℕ, List};
    ghost use Rattle.volume_tree.specs.Siblings.{AreLeft, still_left};

    ghost Value = { List ℕ };

    ghost view = { λ c. still_left c.sought c.order.now.runs c.place c.left };

    ghost invariant = { λ c. AreLeft c.sought c.order.now.runs c.place c.left };
}

/// A folder whose children are sought in the table, and the child that was lent last.
#[derive(Clone, Copy)]
pub struct Sought<'t> {
    pub slots: &'t NodeTable,
    pub folder: u32,
    pub last: Option<u32>,
}

/// Some children of a folder, one after the other, lent. Contracts see their numbers.
#[derive(Drop)]
pub struct Siblings<'t> {
    entries: &'t [Entry],
    // The only one, if it was sought. Then there are no entries.
    only: Option<u32>,
}

impl<'t> Model for Siblings<'t> {
    ghost use Rattle.std.specs.Prelude.{ℕ, List};
    ghost use Rattle.volume_tree.specs.Siblings.{siblings_of};

    ghost Value = { List ℕ };

    ghost view = { λ s. siblings_of s.only s.entries.now };
}

impl<'t> Siblings<'t> {
    /// How many there are.
    pub fn len(&self) -> usize
        ensures { result ≡ length self.now }
    {
        match self.only {
            Some(_) => 1,
            None => self.entries.len(),
        }
    }

    /// The number of the one at a place.
    pub fn number(&self, place: usize) -> u32
        requires { place < length self.now }
        ensures { result ≡ slice_index self.now place }
    {
        if let Some(only) = self.only {
            return only;
        }
        let entries = self.entries;
        entries[place].node
    }
}

impl<'t> Children<'t> {
    // So many entries from a place on.
    pub(crate) fn from(order: &'t Order, place: Place, left: usize) -> Children<'t>
        requires place { IsGap order.now.runs place }
        requires within { index_of order.now.runs place + left ≤ length (entries_of order.now.runs) }
        ensures { result ≡ numbers_from order.now.runs place left }
    {
        let place = entry_from(order, place);
        Children {
            order,
            place,
            left,
            sought: None,
        }
    }

    // All children of a folder, sought in the table.
    pub(crate) fn sought(order: &'t Order, slots: &'t NodeTable, folder: u32) -> Children<'t>
        requires slots { AreSlots 0 slots.now.slots }
        requires apart { AreApart (rows_of slots.now.slots) }
        ensures { result ≡ numbers_after (rows_of slots.now.slots) folder None }
    {
        Children {
            order,
            place: Place { run: 0, offset: 0 },
            left: 0,
            sought: Some(Sought {
                slots,
                folder,
                last: None,
            }),
        }
    }

    /// The next children, as many as stand in one run, at least one. None exactly if none is left. It takes a look
    /// for each, as `child_at` does.
    pub fn next<L: Ledger>(&mut self, steps: &mut Steps<L>) -> Option<Siblings<'t>>
        ensures lent { IfSome result (λ siblings. self.old ≡ siblings ++ self.new) }
        ensures some { IfSome result (λ siblings. 0 < length siblings) }
        ensures none { IfNone result (self.old ≡ []) }
        ensures rest { IfNone result (self.new ≡ []) }
        ensures count { steps.new + length self.new ≡ steps.old + length self.old }
    {
        if let Some(sought) = self.sought {
            let number = next_child(sought.slots, sought.folder, sought.last)?;
            steps.tick();
            self.sought = Some(Sought {
                last: Some(number),
                ..sought
            });
            return Some(Siblings {
                entries: &[],
                only: Some(number),
            });
        }
        if self.left == 0 {
            return None;
        }
        let order = self.order;
        let place = self.place;
        let rest = &order.run(place.run)[place.offset..];
        let few = rest.len().min(self.left);
        steps.count(few);
        self.left -= few;
        let end = Place {
            run: place.run,
            offset: place.offset + few,
        };
        self.place = entry_from(order, end);
        let entries = &rest[..few];
        Some(Siblings {
            entries,
            only: None,
        })
    }
}
