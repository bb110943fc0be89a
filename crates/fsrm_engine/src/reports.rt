//! The commands on reports and report jobs.

ghost use Rattle.std.specs.Prelude.{◌≡◌, ◌+◌, ◌≤◌, true, IfOk, OnErr};
ghost use Rattle.std.specs.Option.{option_copied};
ghost use Rattle.fsrm_model.specs.declared.command.Deed.TheVariants.{Reports};
ghost use Rattle.fsrm_model.specs.declared.command.ReportsDeed.TheVariants.{Generate as ReportsGenerate, Add as ReportsAdd, Delete as ReportsDelete, Run as ReportsRun, List as ReportsList};
ghost use Rattle.fsrm_model.specs.commands.Commands.{is_new_job};
ghost use Rattle.fsrm_model.specs.commands.Cost.{deed_cost};
ghost use Rattle.fsrm_model.specs.objects.Jobs.{job_named};
ghost use Rattle.fsrm_model.specs.store.Valid.{IsValid};
ghost use Rattle.fsrm_model.specs.store.Valued.{is_deed};
ghost use Rattle.fsrm_engine.specs.Machine.{Does, IsReady, IsSound, rows_of};
ghost use Rattle.fsrm_engine.specs.Memory.{may_want_memory};

use crate::parts::Parts;
use fsrm_model::{
    Answer, Ask, JobRow, Ledger, NewJob, NewReport, NoMemory, Refusal, ReportsDeed, Steps, Text,
};
use fsrm_parts::{folder_at, listing, new_job, passing, refused, refused_for, report_of};
use std::alloc::Global;

impl Parts {
    // Makes a report of a folder, by the rows as they are.
    fn make_report<L: Ledger>(
        &self,
        alloc: Global,
        report: &NewReport,
        moment: u64,
        steps: &mut Steps<L>,
    ) -> Result<Answer, NoMemory>
        requires ready { IsReady self.now moment }
        ensures ok { IfOk result (λ answer. Does self.now self.now moment (Reports (ReportsGenerate report.now)) answer) }
        ensures memory { OnErr result (may_want_memory (rows_of self.now) (Reports (ReportsGenerate report.now)) ≡ true) }
        ensures looks { steps.new ≤ steps.old + deed_cost (rows_of self.now) (Reports (ReportsGenerate report.now)) }
    {
        let Some(scope) = folder_at(&self.tree, &report.scope, steps) else {
            return Ok(refused(Refusal::PathNotFound));
        };
        let outcome = report_of(alloc, report.kind, scope, &report.filter)?;
        Ok(passing(outcome))
    }

    // The report job of a name, in any spelling.
    fn job_named(&self, name: &Text) -> Option<&JobRow>
        requires { IsValid self.now.tree.size (rows_of self.now) }
        ensures { option_copied result ≡ job_named self.now.objects.jobs name.now }
    {
        let number = self.objects.find_job(name.as_str())?;
        self.objects.job(number)
    }

    // Makes a report job on a folder.
    fn job_add<L: Ledger>(
        &mut self,
        alloc: Global,
        job: &NewJob,
        moment: u64,
        steps: &mut Steps<L>,
    ) -> Result<Answer, NoMemory>
        requires ready { IsReady self.old moment }
        requires valid { is_new_job job.now ≡ true }
        ensures ok { IfOk result (λ answer. Does self.old self.new moment (Reports (ReportsAdd job.now)) answer) }
        ensures memory { OnErr result (may_want_memory (rows_of self.old) (Reports (ReportsAdd job.now)) ≡ true) }
        ensures err { OnErr result (self.new ≡ self.old) }
        ensures sound { IsSound self.new }
        ensures looks { steps.new ≤ steps.old + deed_cost (rows_of self.old) (Reports (ReportsAdd job.now)) }
    {
        let Some(scope) = folder_at(&self.tree, &job.scope, steps) else {
            return Ok(refused(Refusal::PathNotFound));
        };
        let row = new_job(alloc, job, scope, moment)?;
        let room = self.room();
        match self.objects.add_job(row, room) {
            Ok(_) => Ok(self.done(moment)),
            Err(fault) => refused_for(fault),
        }
    }

    // Takes a report job away.
    fn job_delete(&mut self, name: &Text, moment: u64) -> Answer
        requires ready { IsReady self.old moment }
        ensures ok { Does self.old self.new moment (Reports (ReportsDelete name.now)) result }
        ensures sound { IsSound self.new }
    {
        let Some(job) = self.job_named(name) else {
            return refused(Refusal::NotFound);
        };
        let number = job.number;
        self.objects.drop_job(number);
        self.done(moment)
    }

    // Makes the report of a job, whose last run is now.
    fn job_run(&mut self, alloc: Global, name: &Text, moment: u64) -> Result<Answer, NoMemory>
        requires ready { IsReady self.old moment }
        ensures ok { IfOk result (λ answer. Does self.old self.new moment (Reports (ReportsRun name.now)) answer) }
        ensures memory { OnErr result (may_want_memory (rows_of self.old) (Reports (ReportsRun name.now)) ≡ true) }
        ensures err { OnErr result (self.new ≡ self.old) }
        ensures sound { IsSound self.new }
    {
        let Some(job) = self.job_named(name) else {
            return Ok(refused(Refusal::NotFound));
        };
        let number = job.number;
        let outcome = report_of(alloc, job.kind, job.scope, &job.filter)?;
        self.objects.run_job(number, moment);
        self.end(moment);
        Ok(Answer {
            outcome,
            lasting: true,
        })
    }

    // Lists all report jobs.
    fn list_jobs(&self, moment: u64) -> Answer
        requires ready { IsReady self.now moment }
        ensures { Does self.now self.now moment (Reports ReportsList) result }
    {
        listing(Ask::Jobs)
    }

    /// Does a command on reports and report jobs.
    pub(crate) fn on_reports<L: Ledger>(
        &mut self,
        alloc: Global,
        deed: &ReportsDeed,
        moment: u64,
        steps: &mut Steps<L>,
    ) -> Result<Answer, NoMemory>
        requires ready { IsReady self.old moment }
        requires valid { is_deed (Reports deed.now) ≡ true }
        ensures ok { IfOk result (λ answer. Does self.old self.new moment (Reports deed.now) answer) }
        ensures memory { OnErr result (may_want_memory (rows_of self.old) (Reports deed.now) ≡ true) }
        ensures err { OnErr result (self.new ≡ self.old) }
        ensures sound { IsSound self.new }
        ensures looks { steps.new ≤ steps.old + deed_cost (rows_of self.old) (Reports deed.now) }
    {
        match deed {
            ReportsDeed::Generate(report) => self.make_report(alloc, report, moment, steps),
            ReportsDeed::Add(job) => self.job_add(alloc, job, moment, steps),
            ReportsDeed::Delete { name } => Ok(self.job_delete(name, moment)),
            ReportsDeed::Run { name } => self.job_run(alloc, name, moment),
            ReportsDeed::List => Ok(self.list_jobs(moment)),
        }
    }
}
