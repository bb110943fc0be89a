//! The tables of quotas, screens, exceptions and report jobs.

ghost use Rattle.std.specs.Prelude.{◌≡◌, ◌≤◌, [], true, IfOk, IfErr, IsErrOf, OnOk};
ghost use Rattle.fsrm_model.specs.objects.Jobs.{job_name};
ghost use Rattle.fsrm_model.specs.values.Limits.{most_text_bytes};
ghost use Rattle.fsrm_model.specs.values.Name.{names_differ};
ghost use Rattle.fsrm_objects.specs.Tables.{job_texts, quota_texts, screen_texts};
ghost use Rattle.stored_rows.specs.Rows.{are_alone_screens, are_named_excepts, are_whole_jobs, are_whole_quotas};

use fsrm_model::limits::MOST_TEXT_BYTES;
use fsrm_model::{Duplicate, ExceptRow, JobRow, QuotaRow, ScreenRow};
use fsrm_objects::{ObjectFault, Objects};
use std::alloc::Global;
use volume_tree::RowsFault;

/// Tables of these quotas, screens, exceptions and report jobs. They are bad only if two jobs have one name, or the texts
/// of the quotas, those of the screens or those of the jobs are longer than all texts may be.
pub fn objects_of(
    alloc: Global,
    quotas: &[QuotaRow],
    screens: &[ScreenRow],
    excepts: &[ExceptRow],
    jobs: &[JobRow],
) -> Result<Objects, RowsFault>
    requires quotas { are_whole_quotas quotas.now ≡ true }
    requires screens { are_alone_screens excepts.now screens.now ≡ true }
    requires excepts { are_named_excepts excepts.now ≡ true }
    requires jobs { are_whole_jobs jobs.now ≡ true }
    ensures ok { IfOk result (λ tables. tables ≡ record { quotas = quotas.now; screens = screens.now; excepts = excepts.now; jobs = jobs.now; room = 0 }) }
    ensures may { OnOk result (names_differ job_name jobs.now ≡ true) }
    ensures bad { IsErrOf result RowsFault.BadRows → names_differ job_name jobs.now ≡ true → quota_texts quotas.now ≤ most_text_bytes → screen_texts screens.now ≤ most_text_bytes → job_texts jobs.now ≤ most_text_bytes → ⊥ }
{
    let mut tables = Objects::new(alloc);
    match put_all(&mut tables, alloc, quotas, screens, excepts, jobs) {
        Ok(()) => Ok(tables),
        Err(ObjectFault::NoMemory) => Err(RowsFault::NoMemory),
        Err(_) => Err(RowsFault::BadRows),
    }
}

// Puts quotas, exceptions, screens and report jobs into tables that have none. A screen is refused if its folder has an exception, so
// the exceptions come first.
fn put_all(
    tables: &mut Objects,
    alloc: Global,
    quotas: &[QuotaRow],
    screens: &[ScreenRow],
    excepts: &[ExceptRow],
    jobs: &[JobRow],
) -> Result<(), ObjectFault>
    requires none { tables.old ≡ record { quotas = []; screens = []; excepts = []; jobs = []; room = 0 } }
    requires quotas { are_whole_quotas quotas.now ≡ true }
    requires screens { are_alone_screens excepts.now screens.now ≡ true }
    requires excepts { are_named_excepts excepts.now ≡ true }
    requires jobs { are_whole_jobs jobs.now ≡ true }
    ensures ok { OnOk result (tables.new ≡ record { quotas = quotas.now; screens = screens.now; excepts = excepts.now; jobs = jobs.now; room = 0 }) }
    ensures may { OnOk result (names_differ job_name jobs.now ≡ true) }
    ensures only { IfErr result (λ fault. names_differ job_name jobs.now ≡ true → quota_texts quotas.now ≤ most_text_bytes → screen_texts screens.now ≤ most_text_bytes → job_texts jobs.now ≤ most_text_bytes → fault ≡ ObjectFault.NoMemory) }
{
    put_quotas(tables, alloc, quotas)?;
    put_excepts(tables, alloc, excepts)?;
    put_screens(tables, alloc, screens)?;
    put_jobs(tables, alloc, jobs)
}

fn put_quotas(tables: &mut Objects, alloc: Global, rows: &[QuotaRow]) -> Result<(), ObjectFault>
    requires none { tables.old.quotas ≡ [] }
    requires rows { are_whole_quotas rows.now ≡ true }
    ensures ok { OnOk result (tables.new ≡ record tables.old { quotas = rows.now }) }
    ensures only { IfErr result (λ fault. quota_texts rows.now ≤ most_text_bytes → fault ≡ ObjectFault.NoMemory) }
{
    for row in rows {
        tables.add_quota(row.copy(alloc)?, MOST_TEXT_BYTES)?;
    }
    Ok(())
}

fn put_excepts(tables: &mut Objects, alloc: Global, rows: &[ExceptRow]) -> Result<(), ObjectFault>
    requires none { tables.old.excepts ≡ [] }
    requires no_screens { tables.old.screens ≡ [] }
    requires rows { are_named_excepts rows.now ≡ true }
    ensures ok { OnOk result (tables.new ≡ record tables.old { excepts = rows.now }) }
    ensures only { IfErr result (λ fault. fault ≡ ObjectFault.NoMemory) }
{
    for row in rows {
        tables.add_except(row.copy(alloc)?)?;
    }
    Ok(())
}

fn put_screens(tables: &mut Objects, alloc: Global, rows: &[ScreenRow]) -> Result<(), ObjectFault>
    requires none { tables.old.screens ≡ [] }
    requires rows { are_alone_screens tables.old.excepts rows.now ≡ true }
    ensures ok { OnOk result (tables.new ≡ record tables.old { screens = rows.now }) }
    ensures only { IfErr result (λ fault. screen_texts rows.now ≤ most_text_bytes → fault ≡ ObjectFault.NoMemory) }
{
    for row in rows {
        tables.add_screen(row.copy(alloc)?, MOST_TEXT_BYTES)?;
    }
    Ok(())
}

fn put_jobs(tables: &mut Objects, alloc: Global, rows: &[JobRow]) -> Result<(), ObjectFault>
    requires none { tables.old.jobs ≡ [] }
    requires rows { are_whole_jobs rows.now ≡ true }
    ensures ok { OnOk result (tables.new ≡ record tables.old { jobs = rows.now }) }
    ensures may { OnOk result (names_differ job_name rows.now ≡ true) }
    ensures only { IfErr result (λ fault. names_differ job_name rows.now ≡ true → job_texts rows.now ≤ most_text_bytes → fault ≡ ObjectFault.NoMemory) }
{
    for row in rows {
        tables.put_job(row.copy(alloc)?, MOST_TEXT_BYTES)?;
    }
    Ok(())
}
