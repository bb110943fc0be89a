//! What an engine is made of, and what commands of all kinds do with it.

ghost use Rattle.std.specs.Prelude.{◌≡◌, ◌+◌, ◌*◌, ◌≤◌, [], IfOk, IfErr, OnOk, Some, None, option_map, true};
ghost use Rattle.fsrm_model.specs.store.Capacities.{is_capacity};
ghost use Rattle.fsrm_model.specs.nodes.Fresh.{new_rows};
ghost use Rattle.fsrm_model.specs.values.Limits.{latest_moment};
ghost use Rattle.fsrm_model.specs.declared.command.Outcome.TheVariants.{Done};
ghost use Rattle.quota_usage.specs.Charge.{IsChange, Fits, exceeded_by, height};
ghost use Rattle.fsrm_engine.specs.Machine.{bare, machine_of, ended, AreCounted, IsWhole};
ghost use Rattle.fsrm_engine.specs.Restored.{idle_scans};

use file_groups::Groups;
use file_screens::{Audit, Blocked};
use fsrm_model::limits::MOST_QUOTAS;
use fsrm_model::{Answer, Capacity, Ledger, NoMemory, Outcome, Steps};
use fsrm_objects::Objects;
use fsrm_parts::raise_all;
use number_set::NumberSet;
use quota_usage::{Change, Exceeded, Usage};
use rescan::Scans;
use std::alloc::Global;
use templates::Templates;
use thresholds::Marks;
use volume_tree::Tree;

// The run limit of a new engine, in minutes.
const RUN_LIMIT: u32 = 60;

/// The tree, the objects on it, the file groups, the quota templates and the auto-apply quotas, what is used below each
/// quota that counts, the scans, the actions that wait, and the log of the names that screens judged.
#[derive(Drop)]
pub struct Parts {
    pub(crate) tree: Tree,
    pub(crate) objects: Objects,
    pub(crate) groups: Groups,
    pub(crate) templates: Templates,
    // What is used below each counting quota.
    pub(crate) usage: Usage,
    pub(crate) scans: Scans,
    // Which actions ran and wait to be handed out, and the log of those that ran.
    pub(crate) marks: Marks,
    pub(crate) audit: Audit,
    // The places of the quotas that cross a threshold in a command, until they are settled: between commands there is
    // none.
    pub(crate) crossing: NumberSet,
    // Minutes: what an action's -1 stands for.
    pub(crate) run_limit: u32,
    pub(crate) last_moment: u64,
    // Whether it is known that no counting quota's peak is below what is used. It needn't be so of rows from outside.
    pub(crate) level: bool,
}

impl Parts {
    /// Those of a new volume of this size, without objects.
    pub(crate) fn new(alloc: Global, size: Capacity) -> Result<Parts, NoMemory>
        requires { is_capacity size ≡ true }
        ensures machine { IfOk result (λ parts. machine_of parts ≡ record { size = size; rows = new_rows; waiting = [] }) }
        ensures whole { IfOk result IsWhole }
    {
        let tree = Tree::reserve(alloc, size)?;
        Parts::over(alloc, tree)
    }

    // Those over a tree, without objects, in which no scan waits. What has memory of its own comes in steps, since the
    // proof of a function takes longer the more such parts it owns.
    pub(crate) fn over(alloc: Global, tree: Tree) -> Result<Parts, NoMemory>
        ensures { IfOk result (λ parts. parts ≡ bare tree (idle_scans tree.size)) }
    {
        let size = tree.capacity();
        let scans = Scans::reserve(alloc, size.nodes, size.cluster)?;
        let usage = Usage::reserve(alloc)?;
        let crossing = NumberSet::reserve(alloc, MOST_QUOTAS as u32)?;
        Parts::with_counters(alloc, tree, scans, usage, crossing)
    }

    // The same with these counters.
    fn with_counters(
        alloc: Global,
        tree: Tree,
        scans: Scans,
        usage: Usage,
        crossing: NumberSet,
    ) -> Result<Parts, NoMemory>
        ensures { IfOk result (λ parts. parts ≡ record (bare tree scans) { usage = usage; crossing = crossing }) }
    {
        let marks = Marks::new(alloc)?;
        let audit = Audit::new(alloc)?;
        Ok(Parts {
            tree,
            objects: Objects::new(alloc),
            groups: Groups::new(alloc),
            templates: Templates::new(alloc),
            usage,
            scans,
            marks,
            audit,
            crossing,
            run_limit: RUN_LIMIT,
            last_moment: 0,
            level: false,
        })
    }

    /// Ok if no quota refuses a change, else the refusal by the deepest one that does.
    pub(crate) fn admit<L: Ledger>(
        &self,
        change: &Change,
        steps: &mut Steps<L>,
    ) -> Result<(), Exceeded>
        requires counted { AreCounted self.now }
        requires change { IsChange self.now.tree.nodes change.now }
        requires fits { Fits self.now.tree.nodes self.now.usage change.now }
        ensures ok { OnOk result (exceeded_by self.now.tree.nodes self.now.objects.quotas self.now.usage change.now ≡ None) }
        ensures err { IfErr result (λ exceeded. exceeded_by self.now.tree.nodes self.now.objects.quotas self.now.usage change.now ≡ Some exceeded) }
        ensures looks { steps.new ≤ steps.old + 2 * (height self.now.tree.nodes change.now.from + height self.now.tree.nodes change.now.to) }
    {
        self.usage.admit(&self.tree, &self.objects, change, steps)
    }

    // Raises each peak that is below what is used.
    fn raise_peaks(&mut self, moment: u64)
        requires counted { AreCounted self.old }
        requires moment { moment ≤ latest_moment }
        ensures { self.new ≡ record (ended self.old moment) { last_moment = self.old.last_moment } }
    {
        if self.level {
            return;
        }
        raise_all(&self.usage, &mut self.objects, moment);
        self.level = true;
    }

    /// Ends a command of this moment that lasts.
    pub(crate) fn end(&mut self, moment: u64)
        requires counted { AreCounted self.old }
        requires moment { moment ≤ latest_moment }
        ensures ended { self.new ≡ ended self.old moment }
        ensures counted { AreCounted self.new }
    {
        self.raise_peaks(moment);
        self.last_moment = moment;
    }

    /// Ends a file operation of this moment that was done, and gives its answer. A passive screen may report it.
    pub(crate) fn done_under(&mut self, judged: Option<Blocked>, moment: u64) -> Answer
        requires counted { AreCounted self.old }
        requires moment { moment ≤ latest_moment }
        ensures ended { self.new ≡ ended self.old moment }
        ensures counted { AreCounted self.new }
        ensures answer { result ≡ record { outcome = Done (option_map (λ judged. judged.screen) judged); lasting = true } }
    {
        self.end(moment);
        Answer {
            outcome: Outcome::Done {
                passive: judged.map(|judged| judged.screen),
            },
            lasting: true,
        }
    }

    /// Ends a command of this moment that was done, and gives its answer.
    pub(crate) fn done(&mut self, moment: u64) -> Answer
        requires counted { AreCounted self.old }
        requires moment { moment ≤ latest_moment }
        ensures ended { self.new ≡ ended self.old moment }
        ensures counted { AreCounted self.new }
        ensures answer { result ≡ record { outcome = Done None; lasting = true } }
    {
        self.done_under(None, moment)
    }
}
