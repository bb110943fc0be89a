//! New nodes, in two halves: what can refuse one, and then the creation, which can't fail.

ghost use Rattle.std.specs.Prelude.{◌≡◌, ◌+◌, ◌≤◌, if◌then◌else◌, IfOk, IfErr, OnOk, OnErr, true, false, length, None, Some};
ghost use Rattle.fsrm_model.specs.nodes.FileOps.{made_node};
ghost use Rattle.fsrm_model.specs.values.Limits.{longest_file, latest_moment};
ghost use Rattle.fsrm_model.specs.values.Name.{is_name};
ghost use Rattle.fsrm_model.specs.nodes.Tree.{fresh, is_folder};
ghost use Rattle.fsrm_model.specs.store.Valid.{IsVolume};
ghost use Rattle.node_table.specs.Views.{seen};
ghost use Rattle.volume_tree.specs.Volume.{new_fault, with_node};

use crate::answer::TreeFault;
use crate::finger::Finger;
use crate::lookup::child;
use crate::slots;
use crate::tree::Tree;
use fsrm_model::{Ledger, Steps};
use name_index::hash_of;
use node_table::NodeView;

/// The looks that put a node into the order of names, now or when the late nodes are. They are counted in advance.
pub(crate) const ENTERING: usize = 21;

// What a new node is, beside its place. A folder has no length.
#[derive(Clone, Copy)]
struct NewNode {
    folder: bool,
    length: u64,
    owner: u32,
    moment: u64,
}

impl NewNode {
    fn view<'a>(self, number: u32, parent: u32, name: &'a str) -> NodeView<'a>
        ensures { seen result ≡ record { number = number; parent = parent; name = name.now; folder = self.folder; length = self.length; owner = self.owner; created = self.moment; modified = self.moment; accessed = self.moment } }
    {
        NodeView {
            number,
            parent,
            name,
            folder: self.folder,
            length: self.length,
            owner: self.owner,
            created: self.moment,
            modified: self.moment,
            accessed: self.moment,
        }
    }
}

impl Tree {
    /// Makes a folder in a folder, and gives its number, the least that is free. It takes no more
    /// than 43 looks.
    ///
    /// It is refused if the folder has a child of this name, else if the volume is full, else
    /// if the names are. An `Err` changes nothing.
    pub fn mkdir<L: Ledger>(
        &mut self,
        folder: u32,
        name: &str,
        owner: u32,
        moment: u64,
        steps: &mut Steps<L>,
    ) -> Result<u32, TreeFault>
        requires folder { is_folder self.old.nodes folder ≡ true }
        requires name { is_name name.now ≡ true }
        requires owner { 1 ≤ owner }
        requires moment { moment ≤ latest_moment }
        ensures number { IfOk result (λ number. number ≡ fresh self.old.nodes) }
        ensures made { OnOk result (self.new ≡ with_node self.old (made_node self.old.nodes folder name.now true 0 owner moment)) }
        ensures may { OnOk result (new_fault self.old folder name.now ≡ None) }
        ensures refused { IfErr result (λ fault. new_fault self.old folder name.now ≡ Some fault) }
        ensures err { OnErr result (self.new ≡ self.old) }
        ensures kept { IsVolume self.new.size self.new.nodes }
        ensures looks { steps.new ≤ steps.old + 43 }
    {
        let vacancy = self.may_create(folder, name, steps)?;
        Ok(self.make_folder(folder, name, vacancy, owner, moment, steps))
    }

    /// Makes a file of so many bytes in a folder, and gives its number, the least that is free. It
    /// takes no more than 43 looks.
    ///
    /// It is refused as `mkdir` is. An `Err` changes nothing.
    pub fn create<L: Ledger>(
        &mut self,
        folder: u32,
        name: &str,
        length: u64,
        owner: u32,
        moment: u64,
        steps: &mut Steps<L>,
    ) -> Result<u32, TreeFault>
        requires folder { is_folder self.old.nodes folder ≡ true }
        requires name { is_name name.now ≡ true }
        requires length { length ≤ longest_file }
        requires owner { 1 ≤ owner }
        requires moment { moment ≤ latest_moment }
        ensures number { IfOk result (λ number. number ≡ fresh self.old.nodes) }
        ensures made { OnOk result (self.new ≡ with_node self.old (made_node self.old.nodes folder name.now false length owner moment)) }
        ensures may { OnOk result (new_fault self.old folder name.now ≡ None) }
        ensures refused { IfErr result (λ fault. new_fault self.old folder name.now ≡ Some fault) }
        ensures err { OnErr result (self.new ≡ self.old) }
        ensures kept { IsVolume self.new.size self.new.nodes }
        ensures looks { steps.new ≤ steps.old + 43 }
    {
        let vacancy = self.may_create(folder, name, steps)?;
        Ok(self.make_file(folder, name, vacancy, length, owner, moment, steps))
    }

    /// The first half of `mkdir` and `create`: all that can refuse a new node of this name in a folder.
    /// It gives where the node might stand. It takes no more than 22 looks.
    ///
    /// It is refused as they are.
    pub fn may_create<L: Ledger>(
        &self,
        folder: u32,
        name: &str,
        steps: &mut Steps<L>,
    ) -> Result<Finger, TreeFault>
        ensures may { OnOk result (new_fault self.now folder name.now ≡ None) }
        ensures fault { IfErr result (λ fault. new_fault self.now folder name.now ≡ Some fault) }
        ensures kept { IsVolume self.now.size self.now.nodes }
        ensures some { steps.old + 1 ≤ steps.new }
        ensures looks { steps.new ≤ steps.old + 22 }
    {
        let size = self.size;
        let place = match child(&self.slots, &self.register, folder, name, false, steps) {
            Ok(_) => return Err(TreeFault::AlreadyExists),
            Err(place) => place,
        };
        if self.count >= size.nodes {
            return Err(TreeFault::VolumeFull);
        }
        if self.used as u64 + name.len() as u64 > size.names as u64 {
            return Err(TreeFault::NamesFull);
        }
        Ok(Finger::at(place))
    }

    /// The second half of `mkdir`: makes a folder that the tree has nothing against, and gives its number, the least
    /// that is free. It can't fail. `vacancy` is what `may_create` answered: where to look first. It counts 21
    /// looks, which put the node into the order of names, at once or when the tree is arranged.
    pub fn make_folder<L: Ledger>(
        &mut self,
        folder: u32,
        name: &str,
        vacancy: Finger,
        owner: u32,
        moment: u64,
        steps: &mut Steps<L>,
    ) -> u32
        requires folder { is_folder self.old.nodes folder ≡ true }
        requires name { is_name name.now ≡ true }
        requires owner { 1 ≤ owner }
        requires moment { moment ≤ latest_moment }
        requires may { new_fault self.old folder name.now ≡ None }
        ensures number { result ≡ fresh self.old.nodes }
        ensures made { self.new ≡ with_node self.old (made_node self.old.nodes folder name.now true 0 owner moment) }
        ensures kept { IsVolume self.new.size self.new.nodes }
        ensures count { steps.new ≡ steps.old + 21 }
    {
        let new = NewNode {
            folder: true,
            length: 0,
            owner,
            moment,
        };
        self.make(folder, name, vacancy, new, steps)
    }

    /// The second half of `create`: makes a file that the tree has nothing against, and gives its number, the least
    /// that is free. It can't fail. `vacancy` is what `may_create` answered: where to look first. It counts 21
    /// looks, which put the node into the order of names, at once or when the tree is arranged.
    pub fn make_file<L: Ledger>(
        &mut self,
        folder: u32,
        name: &str,
        vacancy: Finger,
        length: u64,
        owner: u32,
        moment: u64,
        steps: &mut Steps<L>,
    ) -> u32
        requires folder { is_folder self.old.nodes folder ≡ true }
        requires name { is_name name.now ≡ true }
        requires length { length ≤ longest_file }
        requires owner { 1 ≤ owner }
        requires moment { moment ≤ latest_moment }
        requires may { new_fault self.old folder name.now ≡ None }
        ensures number { result ≡ fresh self.old.nodes }
        ensures made { self.new ≡ with_node self.old (made_node self.old.nodes folder name.now false length owner moment) }
        ensures kept { IsVolume self.new.size self.new.nodes }
        ensures count { steps.new ≡ steps.old + 21 }
    {
        let new = NewNode {
            folder: false,
            length,
            owner,
            moment,
        };
        self.make(folder, name, vacancy, new, steps)
    }

    // Makes a node as `make_folder` and `make_file` do.
    fn make<L: Ledger>(
        &mut self,
        folder: u32,
        name: &str,
        vacancy: Finger,
        new: NewNode,
        steps: &mut Steps<L>,
    ) -> u32
        requires folder { is_folder self.old.nodes folder ≡ true }
        requires name { is_name name.now ≡ true }
        requires length { new.length ≤ (if new.folder then 0 else longest_file) }
        requires owner { 1 ≤ new.owner }
        requires moment { new.moment ≤ latest_moment }
        requires may { new_fault self.old folder name.now ≡ None }
        ensures number { result ≡ fresh self.old.nodes }
        ensures made { self.new ≡ with_node self.old (made_node self.old.nodes folder name.now new.folder new.length new.owner new.moment) }
        ensures kept { IsVolume self.new.size self.new.nodes }
        ensures count { steps.new ≡ steps.old + 21 }
    {
        steps.count(ENTERING);
        let number = slots::next_number(&self.slots, &self.holes);
        let row = new.view(number, folder, name);
        self.slots.put(&row);
        self.holes.remove(number);
        let hash = hash_of(folder, name);
        self.register
            .enter(&self.slots, &row, hash, vacancy.place());
        self.count += 1;
        self.used += name.len() as u32;
        number
    }
}
