//! What a command does, at a moment that isn't before the last one.

ghost use Rattle.std.specs.Prelude.{◌≡◌, ◌+◌, ◌≤◌, true, IfOk, OnErr};
ghost use Rattle.fsrm_model.specs.declared.command.Deed.TheVariants.{File};
ghost use Rattle.fsrm_model.specs.commands.Cost.{deed_cost};
ghost use Rattle.fsrm_model.specs.store.Valued.{is_op, is_command};
ghost use Rattle.fsrm_engine.specs.Machine.{Does, IsReady, IsSound, IsWhole, rows_of};
ghost use Rattle.fsrm_engine.specs.Memory.{may_want_memory};

use crate::parts::Parts;
use fsrm_model::{Answer, Command, Deed, FileOp, Ledger, NoMemory, Steps};
use std::alloc::Global;

impl Parts {
    // A file operation.
    fn operate<L: Ledger>(
        &mut self,
        alloc: Global,
        op: &FileOp,
        moment: u64,
        steps: &mut Steps<L>,
    ) -> Result<Answer, NoMemory>
        requires ready { IsReady self.old moment }
        requires valid { is_op op.now ≡ true }
        ensures ok { IfOk result (λ answer. Does self.old self.new moment (File op.now) answer) }
        ensures memory { OnErr result (may_want_memory (rows_of self.old) (File op.now) ≡ true) }
        ensures err { OnErr result (self.new ≡ self.old) }
        ensures sound { IsSound self.new }
        ensures looks { steps.new ≤ steps.old + deed_cost (rows_of self.old) (File op.now) }
    {
        match op {
            FileOp::Mkdir { path, owner } => self.mkdir(alloc, path, *owner, moment, steps),
            FileOp::Create {
                path,
                length,
                owner,
            } => Ok(self.create(path, *length, *owner, moment, steps)),
            FileOp::Resize { path, length } => Ok(self.resize(path, *length, moment, steps)),
            FileOp::Touch { path } => Ok(self.touch(path, moment, steps)),
            FileOp::Move { from, to } => self.move_path(alloc, from, to, moment, steps),
            FileOp::Remove { path } => Ok(self.remove(path, moment, steps)),
        }
    }

    /// Does a file operation, and keeps the rows valid.
    pub(crate) fn file_op<L: Ledger>(
        &mut self,
        alloc: Global,
        op: &FileOp,
        moment: u64,
        steps: &mut Steps<L>,
    ) -> Result<Answer, NoMemory>
        requires ready { IsReady self.old moment }
        requires valid { is_op op.now ≡ true }
        ensures ok { IfOk result (λ answer. Does self.old self.new moment (File op.now) answer) }
        ensures memory { OnErr result (may_want_memory (rows_of self.old) (File op.now) ≡ true) }
        ensures err { OnErr result (self.new ≡ self.old) }
        ensures whole { IsWhole self.new }
        ensures looks { steps.new ≤ steps.old + deed_cost (rows_of self.old) (File op.now) }
    {
        self.operate(alloc, op, moment, steps)
    }

    // A command.
    fn carry_out<L: Ledger>(
        &mut self,
        alloc: Global,
        command: &Command,
        steps: &mut Steps<L>,
    ) -> Result<Answer, NoMemory>
        requires ready { IsReady self.old command.now.moment }
        requires valid { is_command command.now ≡ true }
        ensures ok { IfOk result (λ answer. Does self.old self.new command.now.moment command.now.deed answer) }
        ensures memory { OnErr result (may_want_memory (rows_of self.old) command.now.deed ≡ true) }
        ensures err { OnErr result (self.new ≡ self.old) }
        ensures sound { IsSound self.new }
        ensures looks { steps.new ≤ steps.old + deed_cost (rows_of self.old) command.now.deed }
    {
        let moment = command.moment;
        match &command.deed {
            Deed::File(op) => self.operate(alloc, op, moment, steps),
            Deed::Usage { path } => self.sum(alloc, path, moment, steps),
            Deed::Step { n } => Ok(self.go_on(*n, moment, steps)),
            Deed::Quota(deed) => self.on_quotas(alloc, deed.as_ref(), moment, steps),
            Deed::Template(deed) => self.on_templates(alloc, deed.as_ref(), moment),
            Deed::Autoquota(deed) => self.on_autos(alloc, deed.as_ref(), moment, steps),
            Deed::Filegroup(deed) => self.on_groups(alloc, deed.as_ref(), moment),
            Deed::Screen(deed) => self.on_screens(alloc, deed.as_ref(), moment, steps),
            Deed::Exception(deed) => self.on_exceptions(alloc, deed.as_ref(), moment, steps),
            Deed::Reports(deed) => self.on_reports(alloc, deed.as_ref(), moment, steps),
            Deed::Admin(deed) => Ok(self.on_admin(deed, moment)),
        }
    }

    /// Does a command, and keeps the rows valid.
    pub(crate) fn take<L: Ledger>(
        &mut self,
        alloc: Global,
        command: &Command,
        steps: &mut Steps<L>,
    ) -> Result<Answer, NoMemory>
        requires ready { IsReady self.old command.now.moment }
        requires valid { is_command command.now ≡ true }
        ensures ok { IfOk result (λ answer. Does self.old self.new command.now.moment command.now.deed answer) }
        ensures memory { OnErr result (may_want_memory (rows_of self.old) command.now.deed ≡ true) }
        ensures err { OnErr result (self.new ≡ self.old) }
        ensures whole { IsWhole self.new }
        ensures looks { steps.new ≤ steps.old + deed_cost (rows_of self.old) command.now.deed }
    {
        self.carry_out(alloc, command, steps)
    }
}
