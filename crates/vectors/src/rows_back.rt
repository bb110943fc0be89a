//! An engine's rows, and an engine that is made of them.

ghost use Rattle.std.specs.Prelude.{◌≡◌, []};

use crate::engines::has_done;
use crate::values::SMALL;
use fsrm_engine::{Engine, RowsFault};
use fsrm_model::{Ledger, Rows, Steps, Weightless};
use std::alloc::Global;
use std::marker::Brand;
use std::process::Abort;
use std::sync::ledger::{Blank, Ledger as Named};
use std::test::Fail;

// Folder 1 with a file, in it folder 2 with a file, and in that folder 3 with a file; then a row in each table that a
// command fills, while two scans wait; and a name that is reported, so that an action runs.
const LINES: [&str; 13] = [
    "7 mkdir D:\\a 1",
    "7 mkdir D:\\a\\b 1",
    "7 mkdir D:\\a\\b\\c 1",
    "7 create D:\\a\\f 1 1",
    "7 create D:\\a\\b\\f 4097 1",
    "7 dirquota template add /Template:T /Limit:1gb /Add-Notification:85,m,60,text",
    "7 dirquota quota add /Path:D:\\a /SourceTemplate:T",
    "7 dirquota quota add /Path:D:\\a\\b /Limit:1gb",
    "7 dirquota autoquota add /Path:D:\\a\\b\\c /SourceTemplate:T /Exclude:x",
    "7 filescrn filegroup add /Filegroup:Music /Members:*.mp3",
    "7 filescrn screen add /Path:D:\\a /Type:passive /Add-Filegroup:Music /Add-Notification:e,0,text",
    "7 filescrn exception add /Path:D:\\a\\b\\c /Add-Filegroup:Music",
    "8 create D:\\a\\s.mp3 1 1",
];

fn make<L: Ledger>(engine: &mut Engine, alloc: Global, end: &impl Abort, steps: &mut Steps<L>) {
    for line in LINES {
        has_done(engine, alloc, end, line, steps);
    }
}

/// Whether no engine is made of these rows.
pub fn is_bad<L: Ledger>(alloc: Global, rows: &Rows, steps: &mut Steps<L>) -> bool {
    let engine = Engine::from_rows(alloc, rows, SMALL, steps);
    matches!(engine, Err(RowsFault::BadRows))
}

// Whether no engine is made of the rows in which two scans wait, the first of which has to visit three folders.
fn is_bad_now<L: Ledger>(
    engine: &Engine,
    alloc: Global,
    steps: &mut Steps<L>,
) -> Result<bool, Fail> {
    let rows = engine.to_rows(alloc, steps)?;
    let wait = rows.queue.len() == 2 && rows.unvisited.len() == 3;
    Ok(wait && is_bad(alloc, &rows, steps))
}

// Whether the quota whose scan was finished counts, and there is an entry in each log, but not what the scan that was
// given up had counted.
fn is_back(engine: &Engine) -> bool {
    let logs = engine.marks().log_len() == 1 && engine.audit().len() == 1;
    logs && engine.used(1) == Some(16_384) && engine.used(2).is_none()
}

fn comes_back<L: Ledger>(alloc: Global, rows: &Rows, steps: &mut Steps<L>) -> Result<bool, Fail> {
    let engine = Engine::from_rows(alloc, rows, SMALL, steps)?;
    Ok(is_back(&engine))
}

// Finishes the first scan and gives the other one up.
fn settle<L: Ledger>(engine: &mut Engine, end: &impl Abort, steps: &mut Steps<L>) {
    assert!(end; engine.next_act().is_some());
    assert!(end; engine.next_act().is_none());
    engine.finish_fresh(1, 9, steps);
    engine.flag_unfinished();
}

fn there_and_back<L: Ledger>(
    engine: &mut Engine,
    alloc: Global,
    end: &impl Abort,
    steps: &mut Steps<L>,
) -> Result<(), Fail> {
    make(engine, alloc, end, steps);
    assert!(end; is_bad_now(engine, alloc, steps)?);
    settle(engine, end, steps);
    let rows = engine.to_rows(alloc, steps)?;
    assert!(end; comes_back(alloc, &rows, steps)?);
    Ok(())
}

fn in_new<L: Ledger>(alloc: Global, end: &impl Abort, steps: &mut Steps<L>) -> Result<(), Fail> {
    let mut engine = Engine::new(alloc, SMALL)?;
    there_and_back(&mut engine, alloc, end, steps)
}

fn engines<N: Named>(rt: &HostRuntime, end: &impl Abort, blank: Blank) -> Result<(), Fail>
    requires name { blank.name ≡ N.name }
    requires parts { blank.parts ≡ N.parts }
    requires one { blank.parts ≡ 1 }
{
    let mut steps = Steps::new(rt, Weightless::<N>::of(blank));
    in_new(rt.alloc(), end, &mut steps)
}

#[test]
fn rows_there_and_back(rt: HostRuntime) -> Result<(), Fail> {
    engines::<Brand>(&rt, &rt, Blank::new(1))
}
