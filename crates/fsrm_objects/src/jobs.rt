//! The table of report jobs.

ghost use Rattle.std.specs.Prelude.{◌≡◌, ◌≤◌, ◌<◌, ◌==◌, find, IfOk, IfErr, OnOk, OnErr, None, Some, true, false, is_some, length, option_map, slice_get};
ghost use Rattle.std.specs.Option.{option_copied};
ghost use Rattle.fsrm_base.specs.Keyed.{has_row, is_ascending};
ghost use Rattle.fsrm_model.specs.objects.Jobs.{job_named, job_number, job_of};
ghost use Rattle.fsrm_model.specs.values.Limits.{most_jobs};
ghost use Rattle.fsrm_model.specs.values.Texts.{job_bytes};
ghost use Rattle.fsrm_objects.specs.Kept.{most_job_bytes};
ghost use Rattle.fsrm_objects.specs.Tables.{IsFault, job_fault, numbered, with_job, with_job_run, without_job, without_jobs};

use crate::answer::ObjectFault;
use crate::edits::JobRun;
use crate::kinds::{Named, Reports};
use crate::objects::Objects;
use crate::texts::job_texts;
use fsrm_model::{JobRow, NoMemory};

impl Objects {
    /// Adds a report job under the least number that is free, which is the answer. The row's own number isn't looked at.
    /// Its name and its pattern have at most 255 bytes, and its schedule 200.
    ///
    /// `room` is as at `add_quota`. The job is refused if its name is another one's, in any spelling (DuplicateName),
    /// else if there are 256 jobs (TableFull), else if its texts are longer than `room` (TextsFull). NoMemory comes only
    /// if nothing else refuses it. An `Err` changes nothing, and the row is dropped.
    pub fn add_job(&mut self, row: JobRow, room: u32) -> Result<u32, ObjectFault>
        requires { job_bytes row ≤ most_job_bytes }
        ensures ok { OnOk result (self.new ≡ with_job self.old (numbered self.old.jobs row)) }
        ensures number { IfOk result (λ number. number ≡ (numbered self.old.jobs row).number) }
        ensures may { OnOk result (job_fault self.old row room ≡ None) }
        ensures refused { IfErr result (λ fault. IsFault fault (job_fault self.old row room)) }
        ensures err { OnErr result (self.new ≡ self.old) }
    {
        self.admit_job(&row, room)?;
        let number = self.jobs.free_number();
        self.insert_job(JobRow { number, ..row })?;
        Ok(number)
    }

    /// Puts a stored report job under its own number, which is below 256 and free. It is refused as `add_job` refuses
    /// it. An `Err` changes nothing, and the row is dropped.
    pub fn put_job(&mut self, row: JobRow, room: u32) -> Result<(), ObjectFault>
        requires texts { job_bytes row ≤ most_job_bytes }
        requires free { has_row job_number row.number self.old.jobs ≡ false }
        ensures ok { OnOk result (self.new ≡ with_job self.old row) }
        ensures may { OnOk result (job_fault self.old row room ≡ None) }
        ensures refused { IfErr result (λ fault. IsFault fault (job_fault self.old row room)) }
        ensures err { OnErr result (self.new ≡ self.old) }
    {
        self.admit_job(&row, room)?;
        self.insert_job(row)?;
        Ok(())
    }

    // Whether a new job may be added, whose number isn't looked at.
    fn admit_job(&self, row: &JobRow, room: u32) -> Result<(), ObjectFault>
        requires { job_bytes row.now ≤ most_job_bytes }
        ensures few { OnOk result (length self.now.jobs < most_jobs) }
        ensures may { OnOk result (job_fault self.now row.now room ≡ None) }
        ensures refused { IfErr result (λ fault. job_fault self.now row.now room ≡ Some fault) }
    {
        if self.has_job_named(row.name.as_str()) {
            return Err(ObjectFault::DuplicateName);
        }
        if self.jobs.is_full() {
            return Err(ObjectFault::TableFull);
        }
        if job_texts(row) > room {
            return Err(ObjectFault::TextsFull);
        }
        Ok(())
    }

    // Whether a job has this name, in any spelling.
    fn has_job_named(&self, name: &str) -> bool
        ensures { result ≡ is_some (job_named self.now.jobs name.now) }
    {
        self.jobs.find(&Named { name }).is_some()
    }

    // Puts a job that nothing refuses into its place.
    fn insert_job(&mut self, row: JobRow) -> Result<(), NoMemory>
        requires texts { job_bytes row ≤ most_job_bytes }
        requires free { has_row job_number row.number self.old.jobs ≡ false }
        requires few { length self.old.jobs < most_jobs }
        ensures ok { OnOk result (self.new ≡ with_job self.old row) }
        ensures err { OnErr result (self.new ≡ self.old) }
    {
        self.jobs.reserve(self.jobs.len() + 1)?;
        self.jobs.insert(row);
        Ok(())
    }

    /// Takes the report job of a number away.
    pub fn drop_job(&mut self, number: u32)
        requires { has_row job_number number self.old.jobs ≡ true }
        ensures { self.new ≡ without_job self.old number }
    {
        self.jobs.remove(number);
    }

    /// Takes all report jobs away that report on a folder. It takes no memory.
    pub fn drop_jobs(&mut self, folder: u32)
        ensures { self.new ≡ without_jobs self.old folder }
    {
        while let Some(number) = self.first_on(folder) {
            self.drop_job(number);
        }
    }

    // The number of the first job that reports on a folder.
    fn first_on(&self, folder: u32) -> Option<u32>
        ensures first { result ≡ option_map job_number (find (λ job. job.scope == folder) self.now.jobs) }
        ensures ascending { is_ascending job_number self.now.jobs ≡ true }
    {
        self.jobs.find(&Reports { folder }).map(|job| job.number)
    }

    /// Notes that the report job of a number ran at a moment, in seconds since 1970-01-01 00:00:00 UTC.
    pub fn run_job(&mut self, number: u32, moment: u64)
        requires { has_row job_number number self.old.jobs ≡ true }
        ensures { self.new ≡ with_job_run self.old number moment }
    {
        self.jobs.change(number, &JobRun { moment });
    }

    /// The number of the report job of a name, in any spelling.
    pub fn find_job(&self, name: &str) -> Option<u32>
        ensures { result ≡ option_map job_number (job_named self.now.jobs name.now) }
    {
        self.jobs.find(&Named { name }).map(|job| job.number)
    }

    /// The report job of a number.
    pub fn job(&self, number: u32) -> Option<&JobRow>
        ensures { option_copied result ≡ job_of self.now.jobs number }
    {
        self.jobs.get(number)
    }

    /// How many report jobs there are, at most 256.
    pub fn job_count(&self) -> u32
        ensures { result ≡ length self.now.jobs }
    {
        self.jobs.len()
    }

    /// The report job at a place, from 0, in the order of the numbers.
    pub fn job_at(&self, place: u32) -> &JobRow
        requires { place < length self.now.jobs }
        ensures { slice_get self.now.jobs place ≡ Some result.now }
    {
        self.jobs.at(place)
    }
}
