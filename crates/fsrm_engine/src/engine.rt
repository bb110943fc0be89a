//! The machine that takes commands.

ghost use Rattle.std.specs.Prelude.{◌≡◌, ◌+◌, ◌*◌, ◌≤◌, [], ◌∷◌, None, true, length, IfOk, IfSome, MatchOption, OnErr};
ghost use Rattle.fsrm_model.specs.declared.command.Deed.TheVariants.{File, Step};
ghost use Rattle.fsrm_model.specs.texts.ActText.{text_of};
ghost use Rattle.fsrm_model.specs.objects.Acts.{IsAct};
ghost use Rattle.fsrm_model.specs.store.Capacities.{is_capacity};
ghost use Rattle.fsrm_model.specs.commands.Cost.{cost};
ghost use Rattle.fsrm_model.specs.nodes.Fresh.{new_rows};
ghost use Rattle.fsrm_model.specs.store.Lasting.{lasting};
ghost use Rattle.fsrm_model.specs.values.Limits.{latest_moment};
ghost use Rattle.fsrm_model.specs.meaning.Named.{IsNamed};
ghost use Rattle.fsrm_model.specs.objects.Quota.{used_of};
ghost use Rattle.fsrm_model.specs.store.Replays.{finish, finish_acts};
ghost use Rattle.fsrm_model.specs.commands.Step.{step};
ghost use Rattle.fsrm_model.specs.nodes.Tree.{under};
ghost use Rattle.fsrm_model.specs.store.Valid.{IsVolume, IsValid};
ghost use Rattle.fsrm_model.specs.store.Valued.{is_op, is_command};
ghost use Rattle.fsrm_engine.specs.Machine.{Takes};
ghost use Rattle.fsrm_engine.specs.Memory.{may_want_memory};

use crate::parts::Parts;
use file_groups::Groups;
use file_screens::Audit;
use fsrm_model::{Act, Answer, Capacity, Command, FileOp, Ledger, NoMemory, Refusal, Steps};
use fsrm_objects::Objects;
use fsrm_parts::{arrange_for, arrange_for_op, refused, text_of};
use std::alloc::Global;
use std::marker::Model;
use templates::Templates;
use thresholds::Marks;
use volume_tree::Tree;

/// What an engine is set to, and how far it has come.
#[derive(Clone, Copy, Debug, PartialEq, Eq)]
pub struct Settings {
    /// Minutes: what an action's run limit of -1 stands for.
    pub run_limit: u32,
    /// How many quotas wait to be scanned, the active one's among them.
    pub scans: u32,
    /// The moment of the last command that lasts, in seconds since 1970-01-01 00:00:00 UTC.
    pub last_moment: u64,
    /// The bytes of a cluster.
    pub cluster: u32,
}

/// The machine that takes commands, in memory. Contracts see it as how much it may hold, its rows,
/// and the acts that wait to be handed out.
#[derive(Drop)]
pub struct Engine {
    pub(crate) parts: Parts,
}

impl Model for Engine {
    ghost use Rattle.fsrm_engine.specs.Machine.{Machine, machine_of, IsWhole};

    ghost Value = { Machine };

    ghost view = { λ e. machine_of e.parts };

    ghost invariant = { λ e. IsWhole e.parts };
}

impl Engine {
    /// An engine over a new volume of this size: 2 to 1,048,576 nodes, 256 to 268,435,456 bytes of
    /// names, and clusters of 512 to 65,536 bytes, a power of 2.
    pub fn new(alloc: Global, size: Capacity) -> Result<Engine, NoMemory>
        requires { is_capacity size ≡ true }
        ensures { IfOk result (λ engine. engine ≡ record { size = size; rows = new_rows; waiting = [] }) }
    {
        let parts = Parts::new(alloc, size)?;
        Ok(Engine { parts })
    }

    /// The volume's folders and files, lent.
    pub fn tree(&self) -> &Tree
        ensures size { result.now.size ≡ self.now.size }
        ensures nodes { result.now.nodes ≡ self.now.rows.nodes }
        ensures volume { IsVolume self.now.size self.now.rows.nodes }
    {
        &self.parts.tree
    }

    /// Puts the nodes of the tree into their order that aren't yet, so that whoever is to walk through it needn't seek
    /// each child among all nodes. Nothing else changes.
    pub fn arrange(&mut self)
        ensures { self.new ≡ self.old }
    {
        self.parts.tree.arrange();
    }

    /// The quotas, the screens and their exceptions, and the report jobs, lent.
    pub fn objects(&self) -> &Objects
        ensures quotas { result.now.quotas ≡ self.now.rows.quotas }
        ensures screens { result.now.screens ≡ self.now.rows.screens }
        ensures excepts { result.now.excepts ≡ self.now.rows.excepts }
        ensures jobs { result.now.jobs ≡ self.now.rows.jobs }
        ensures store { IsValid self.now.size self.now.rows }
    {
        &self.parts.objects
    }

    /// The file groups, lent.
    pub fn groups(&self) -> &Groups
        ensures groups { result.now ≡ self.now.rows.groups }
        ensures store { IsValid self.now.size self.now.rows }
    {
        &self.parts.groups
    }

    /// The quota templates and the auto-apply quotas, lent.
    pub fn templates(&self) -> &Templates
        ensures templates { result.now.templates ≡ self.now.rows.templates }
        ensures autos { result.now.autos ≡ self.now.rows.autos }
        ensures store { IsValid self.now.size self.now.rows }
    {
        &self.parts.templates
    }

    /// The log of the names that screens judged, lent.
    pub fn audit(&self) -> &Audit
        ensures log { result.now ≡ self.now.rows.audits }
        ensures store { IsValid self.now.size self.now.rows }
    {
        &self.parts.audit
    }

    /// The log of the actions that ran, lent.
    pub fn marks(&self) -> &Marks
        ensures log { result.now.log ≡ self.now.rows.acts }
        ensures store { IsValid self.now.size self.now.rows }
    {
        &self.parts.marks
    }

    /// What the files at and below a folder with a counting quota take, in bytes. None for every other
    /// folder. It is kept with every command, and is the sum over the tree.
    pub fn used(&self, folder: u32) -> Option<u64>
        ensures { result ≡ used_of self.now.size self.now.rows folder }
    {
        self.parts.usage.used(folder)
    }

    /// What the engine is set to, and how far it has come.
    pub fn settings(&self) -> Settings
        ensures run_limit { result.run_limit ≡ self.now.rows.run_limit }
        ensures scans { result.scans ≡ length self.now.rows.queue }
        ensures last_moment { result.last_moment ≡ self.now.rows.last_moment }
        ensures cluster { result.cluster ≡ self.now.size.cluster }
    {
        Settings {
            run_limit: self.parts.run_limit,
            scans: self.parts.scans.count() as u32,
            last_moment: self.parts.last_moment,
            cluster: self.parts.tree.capacity().cluster,
        }
    }

    /// Hands out the first act that waits, which waits no longer: those of a screen come first, in the order of their
    /// places, and then those of quotas, in the order of folders, percentages and places. None exactly if none waits.
    /// The action that it names is there.
    pub fn next_act(&mut self) -> Option<Act>
        ensures handed_out { MatchOption result (self.old.waiting ≡ []) (λ act. self.old.waiting ≡ act ∷ self.new.waiting) }
        ensures named { IfSome result (λ act. IsAct self.new.rows act) }
        ensures none { result ≡ None → self.new ≡ self.old }
        ensures size { self.new.size ≡ self.old.size }
        ensures rows { self.new.rows ≡ self.old.rows }
    {
        self.parts.marks.next(&self.parts.objects)
    }

    /// The text of the action that an act names.
    pub fn act_text(&self, act: &Act) -> &str
        requires { IsAct self.now.rows act.now }
        ensures { result.now ≡ text_of self.now.rows act.now }
    {
        text_of(&self.parts.objects, act)
    }

    /// Takes a command, when no act waits: the answer is the plain machine's, and so are the rows that are left and
    /// the acts that wait then. What it names is there. An `Err` changes nothing, and says that memory ran out: that can be
    /// only if a folder is summed up, an object is made or changed, a report is to be made, or the command is a file
    /// operation that may run out of memory.
    pub fn apply<L: Ledger>(
        &mut self,
        alloc: Global,
        command: &Command,
        steps: &mut Steps<L>,
    ) -> Result<Answer, NoMemory>
        requires valid { is_command command.now ≡ true }
        requires idle { self.old.waiting ≡ [] }
        ensures ok { IfOk result (λ answer. Takes self.old self.new (step self.old.size self.old.rows command.now) answer) }
        ensures memory { OnErr result (may_want_memory self.old.rows command.now.deed ≡ true) }
        ensures named { IfOk result (λ answer. IsNamed self.new.rows answer.outcome) }
        ensures err { OnErr result (self.new ≡ self.old) }
        ensures kept { IsValid self.new.size self.new.rows }
        ensures looks { steps.new ≤ steps.old + cost self.old.rows command.now }
    {
        if command.moment < self.parts.last_moment {
            return Ok(refused(Refusal::ClockBack));
        }
        arrange_for(&mut self.parts.tree, &command.deed);
        self.parts.take(alloc, command, steps)
    }

    /// Takes a file operation at this moment, in seconds since 1970-01-01 00:00:00 UTC, when no act waits. What its
    /// answer names is there. An `Err` changes nothing, and says that memory ran out: that can be only if a folder is
    /// made that gets a quota by auto-apply, or a folder moves.
    pub fn file_op<L: Ledger>(
        &mut self,
        alloc: Global,
        op: &FileOp,
        moment: u64,
        steps: &mut Steps<L>,
    ) -> Result<Answer, NoMemory>
        requires valid { is_op op.now ≡ true }
        requires moment { moment ≤ latest_moment }
        requires idle { self.old.waiting ≡ [] }
        ensures ok { IfOk result (λ answer. Takes self.old self.new (step self.old.size self.old.rows (record { moment = moment; deed = File op.now })) answer) }
        ensures memory { OnErr result (may_want_memory self.old.rows (File op.now) ≡ true) }
        ensures named { IfOk result (λ answer. IsNamed self.new.rows answer.outcome) }
        ensures err { OnErr result (self.new ≡ self.old) }
        ensures kept { IsValid self.new.size self.new.rows }
        ensures looks { steps.new ≤ steps.old + cost self.old.rows (record { moment = moment; deed = File op.now }) }
    {
        if moment < self.parts.last_moment {
            return Ok(refused(Refusal::ClockBack));
        }
        arrange_for_op(&mut self.parts.tree, op);
        self.parts.file_op(alloc, op, moment, steps)
    }

    /// Goes on with the active scan, at a moment in seconds since 1970-01-01 00:00:00 UTC, when no act waits: visits
    /// at most `n` folders. If none is left then, the scan is finished: its quota is complete, its thresholds may
    /// have been reached, and the next scan begins. It is refused if the moment is before that of the last command
    /// that lasts (ClockBack), else if no scan is active (NothingToScan). It takes no memory.
    pub fn scan_step<L: Ledger>(&mut self, n: u32, moment: u64, steps: &mut Steps<L>) -> Answer
        requires moment { moment ≤ latest_moment }
        requires idle { self.old.waiting ≡ [] }
        ensures ok { Takes self.old self.new (step self.old.size self.old.rows (record { moment = moment; deed = Step n })) result }
        ensures named { IsNamed self.new.rows result.outcome }
        ensures kept { IsValid self.new.size self.new.rows }
        ensures looks { steps.new ≤ steps.old + cost self.old.rows (record { moment = moment; deed = Step n }) }
    {
        if moment < self.parts.last_moment {
            return refused(Refusal::ClockBack);
        }
        self.parts.tree.arrange();
        self.parts.go_on(n, moment, steps)
    }

    /// Finishes the scan of a folder at once, when no act waits, at a moment in seconds since 1970-01-01 00:00:00 UTC,
    /// which may be before that of the last command. If the folder has a quota that is rebuilding or incomplete, it is
    /// complete from then on and counts what the folder uses. Its scan leaves the queue, and peaks, actions and the
    /// last moment follow as after a command that lasts. Else nothing changes. Another folder's scan stays as it is. It
    /// takes no memory, and at most 3 looks for each node at and below the folder: what is below a folder whose quota
    /// counts isn't looked at again.
    pub fn finish_fresh<L: Ledger>(&mut self, folder: u32, moment: u64, steps: &mut Steps<L>)
        requires moment { moment ≤ latest_moment }
        requires idle { self.old.waiting ≡ [] }
        ensures ok { self.new ≡ record self.old { rows = finish self.old.size self.old.rows moment folder; waiting = finish_acts self.old.size self.old.rows moment folder } }
        ensures kept { IsValid self.new.size self.new.rows }
        ensures looks { steps.new ≤ steps.old + 3 * length (under self.old.rows.nodes folder) }
    {
        self.parts.tree.arrange();
        self.parts.finish_fresh(folder, moment, steps);
    }

    /// Gives all scans up: quotas that are rebuilding are incomplete from then on, and nothing is left to visit. All
    /// else stays, and so do the acts that wait. It looks at no node, and takes no memory.
    pub fn flag_unfinished(&mut self)
        ensures { self.new ≡ record self.old { rows = lasting self.old.rows } }
    {
        self.parts.flag_unfinished();
    }
}
