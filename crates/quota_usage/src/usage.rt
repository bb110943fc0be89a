//! The counters of the counting quotas.

ghost use Rattle.std.specs.Prelude.{◌≡◌, ℕ, ◌+◌, ◌*◌, ◌<◌, ◌≤◌, ◌^◌, ◌==◌, IfOk, IfErr, OnOk, [], Some, true, false, length, map};
ghost use Rattle.fsrm_base.specs.Keyed.{has_row, is_ascending, with_change};
ghost use Rattle.fsrm_model.specs.values.Limits.{most_quotas};
ghost use Rattle.fsrm_model.specs.objects.Quota.{folder_of};
ghost use Rattle.fsrm_model.specs.store.Valid.{IsVolume};
ghost use Rattle.quota_usage.specs.Charge.{charged_counter, lost_by, over_by, exceeded_by, IsChange, Fits, height};
ghost use Rattle.quota_usage.specs.Climb.{FitsAbove, amended, amended_counter, climbed_from};
ghost use Rattle.quota_usage.specs.Counters.{counted, used_in, with_counter, without_counter};

use crate::change::{Change, Counter, Exceeded};
use crate::climb::{charge, take};
use crate::counters::{Amendment, Counters};
use crate::refusal::refusal;
use fsrm_model::{Ledger, NoMemory, Steps};
use fsrm_objects::Objects;
use row_table::{Kind, Table};
use std::alloc::Global;
use std::marker::Model;
use volume_tree::Tree;

/// The counters of the counting quotas, in room for 4,096 that is reserved once. Contracts see them as
/// a list that ascends by folder.
#[derive(Drop)]
pub struct Usage {
    counters: Table<Counters>,
}

impl Model for Usage {
    ghost use Rattle.std.specs.Prelude.{◌≡◌, List};
    ghost use Rattle.fsrm_model.specs.values.Limits.{most_quotas};
    ghost use Rattle.quota_usage.specs.declared.change.Counter.{Counter};

    ghost Value = { List Counter };

    ghost view = { λ u. u.counters.rows };

    ghost invariant = { λ u. u.counters.room ≡ most_quotas };
}

impl Usage {
    /// Room for 4,096 counters, and none of them. Only this call can miss memory.
    pub fn reserve(alloc: Global) -> Result<Usage, NoMemory>
        ensures { IfOk result (λ usage. usage ≡ []) }
    {
        let mut counters = Table::new(alloc);
        counters.reserve(Counters::MOST)?;
        Ok(Usage { counters })
    }

    /// Whether there is none.
    pub fn is_empty(&self) -> bool
        ensures { result ≡ (length self.now == 0) }
    {
        self.counters.is_empty()
    }

    /// Begins to count for a folder, which so far uses so many bytes.
    pub fn begin(&mut self, folder: u32, bytes: u64)
        requires room { length self.old < most_quotas }
        requires free { has_row counted folder self.old ≡ false }
        ensures { self.new ≡ with_counter self.old folder bytes }
    {
        self.counters.insert(Counter { folder, bytes });
    }

    /// Counts no longer for a folder.
    pub fn end(&mut self, folder: u32)
        requires { has_row counted folder self.old ≡ true }
        ensures { self.new ≡ without_counter self.old folder }
    {
        self.counters.remove(folder);
    }

    /// How many bytes a folder uses, if it has a counter.
    pub fn used(&self, folder: u32) -> Option<u64>
        ensures { result ≡ used_in self.now folder }
    {
        let counter = self.counters.get(folder)?;
        Some(counter.bytes)
    }

    /// Takes bytes from a folder's counter, as many as it has at most, and then gives it others. The answer is how many
    /// it has then. If the folder has no counter nothing is done.
    pub fn amend(&mut self, folder: u32, minus: u64, plus: u64) -> Option<u64>
        requires { (bytes : ℕ) → used_in self.old folder ≡ Some bytes → amended minus plus bytes < 2 ^ 64 }
        ensures made { self.new ≡ with_change counted folder (amended_counter minus plus) self.old }
        ensures used { result ≡ used_in self.new folder }
    {
        self.counters.change(folder, &Amendment { minus, plus })
    }

    /// Ok if no quota refuses a change, else the refusal by the deepest one that does. A quota refuses
    /// if it counts, is enforced, and its folder would use more bytes than before and than its limit.
    /// It takes no more than 2 looks for each node on the two ways up.
    pub fn admit<L: Ledger>(
        &self,
        tree: &Tree,
        objects: &Objects,
        change: &Change,
        steps: &mut Steps<L>,
    ) -> Result<(), Exceeded>
        requires volume { IsVolume tree.now.size tree.now.nodes }
        requires ascending { is_ascending folder_of objects.now.quotas ≡ true }
        requires owned { (folder : ℕ) → has_row counted folder self.now ≡ true → has_row folder_of folder objects.now.quotas ≡ true }
        requires change { IsChange tree.now.nodes change.now }
        requires fits { Fits tree.now.nodes self.now change.now }
        ensures admitted { OnOk result (over_by tree.now.nodes objects.now.quotas self.now change.now ≡ []) }
        ensures refused { IfErr result (λ exceeded. exceeded_by tree.now.nodes objects.now.quotas self.now change.now ≡ Some exceeded) }
        ensures looks { steps.new ≤ steps.old + 2 * (height tree.now.nodes change.now.from + height tree.now.nodes change.now.to) }
    {
        match refusal(self, tree, objects, change, steps) {
            None => Ok(()),
            Some(exceeded) => Err(exceeded),
        }
    }

    /// Takes the bytes of a change from the folder that loses them and each one above it, unless the change gives bytes
    /// to the same folder: then what gives them is to take as many as the answer says, on one way up. What is left of
    /// the change is that way up. It takes no more than a look for each node on the way.
    pub fn take<L: Ledger>(&mut self, tree: &Tree, change: &Change, steps: &mut Steps<L>) -> u64
        requires volume { IsVolume tree.now.size tree.now.nodes }
        requires change { IsChange tree.now.nodes change.now }
        requires fits { Fits tree.now.nodes self.old change.now }
        ensures lost { (to : ℕ) → change.now.to ≡ Some to → result ≡ lost_by change.now to }
        ensures left { climbed_from tree.now.nodes change.now.to result change.now.plus self.new ≡ map (charged_counter tree.now.nodes change.now) self.old }
        ensures fits { (to : ℕ) → change.now.to ≡ Some to → FitsAbove tree.now.nodes self.new to result change.now.plus }
        ensures looks { steps.new ≤ steps.old + height tree.now.nodes change.now.from }
    {
        take(self, tree, change, steps)
    }

    /// Makes a change of all counters that it touches. It takes no more than a look for each node on the two ways up.
    pub fn charge<L: Ledger>(&mut self, tree: &Tree, change: &Change, steps: &mut Steps<L>)
        requires volume { IsVolume tree.now.size tree.now.nodes }
        requires change { IsChange tree.now.nodes change.now }
        requires fits { Fits tree.now.nodes self.old change.now }
        ensures made { self.new ≡ map (charged_counter tree.now.nodes change.now) self.old }
        ensures looks { steps.new ≤ steps.old + (height tree.now.nodes change.now.from + height tree.now.nodes change.now.to) }
    {
        charge(self, tree, change, steps);
    }
}
