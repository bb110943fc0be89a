//! A folder's children. If no node is late, they stand one after another in the order.

ghost use Rattle.std.specs.Prelude.{◌≡◌, ◌+◌, ◌<◌, length, map};
ghost use Rattle.fsrm_model.specs.nodes.Tree.{number as key, children, children_in_order};
ghost use Rattle.volume_tree.specs.Volume.{IsChildAt};

use crate::children::Children;
use crate::finger::Finger;
use crate::tree::Tree;
use crate::unsettled::{count_in, nth_child};
use fsrm_model::{Ledger, Steps};
use node_order::{between, first_after, first_from, segment};

impl Tree {
    /// How many children a folder has. It is one look, whatever entries it compares.
    pub fn child_count<L: Ledger>(&self, folder: u32, steps: &mut Steps<L>) -> u32
        ensures value { result ≡ length (children self.now.nodes folder) }
        ensures count { steps.new ≡ steps.old + 1 }
    {
        steps.tick();
        let order = &self.register.order;
        let late = count_in(&self.register.late, folder);
        let folder = u64::from(folder);
        let first = first_from(order, folder);
        let end = first_after(order, folder + 1, first);
        (between(order, first, end) + late) as u32
    }

    /// The number of the child that stands at a place, from 0 on, among a folder's children in the
    /// order of their folded names. It is one look, whatever entries it compares.
    pub fn child_at<L: Ledger>(&self, folder: u32, place: u32, steps: &mut Steps<L>) -> u32
        requires { place < length (children self.now.nodes folder) }
        ensures child { IsChildAt self.now.nodes folder place result }
        ensures count { steps.new ≡ steps.old + 1 }
    {
        steps.tick();
        if !self.register.late.is_empty() {
            return nth_child(&self.slots, folder, place);
        }
        let order = &self.register.order;
        let first = first_from(order, u64::from(folder));
        let index = order.index_of(first) + place;
        order.get(order.place_of(index))
    }

    /// The numbers of a folder's children, in the order of their folded names, to be lent a run at a time. It counts as
    /// `child_count`: one look, whatever entries it compares. Then `Children::next` counts each child that it lends.
    ///
    /// They are sought first at the finger, which is left after these children, so that those of the next folder
    /// are found at once.
    pub fn children<L: Ledger>(
        &self,
        folder: u32,
        finger: &mut Finger,
        steps: &mut Steps<L>,
    ) -> Children<'_>
        ensures numbers { result ≡ map key (children_in_order self.now.nodes folder) }
        ensures as_child_count { steps.new ≡ steps.old + 1 }
    {
        steps.tick();
        let order = &self.register.order;
        if !self.register.late.is_empty() {
            return Children::sought(order, &self.slots, folder);
        }
        let (first, end) = segment(order, folder, finger.place());
        *finger = Finger::at(end);
        let left = between(order, first, end);
        Children::from(order, first, left)
    }
}
