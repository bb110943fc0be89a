//! Reports of which rows come to the same: those stand in the order of their least numbers. That the texts are right is
//! shown by scripts (`.ci/scripts/tied-*`).

ghost use Rattle.std.specs.Prelude.{◌≡◌, ◌≤◌, [], true};
ghost use Rattle.fsrm_model.specs.reports.Filters.{is_filter};

use crate::engines::passes;
use crate::trees::is_folder;
use crate::values::SMALL;
use fsrm_engine::Engine;
use fsrm_model::{Filter, Ledger, ReportAsk, ReportKind, ReportRow, Steps, Table, Weightless};
use std::alloc::Global;
use std::marker::Brand;
use std::process::Abort;
use std::sync::ledger::{Blank, Ledger as Named};
use std::test::Fail;
use storage_reports::report;

const T_QUOTA: &[u8] = b"7 dirquota quota add /Path:D:\\t /Limit:1mb";

const S_QUOTA: &[u8] = b"7 dirquota quota add /Path:D:\\s /Limit:1mb";

// Makes two folders, 2 and 6, with quotas, and files of two clusters each. File 1 is the last that is made.
fn make_folders<L: Ledger>(
    engine: &mut Engine,
    alloc: Global,
    end: &impl Abort,
    steps: &mut Steps<L>,
)
    requires { engine.old.waiting ≡ [] }
    ensures { engine.new.waiting ≡ [] }
{
    assert!(end; passes(engine, alloc, b"7 create D:\\gone 1 1", steps));
    assert!(end; passes(engine, alloc, b"7 mkdir D:\\s 1", steps));
    assert!(end; passes(engine, alloc, b"7 create D:\\b.q 5000 9", steps));
    assert!(end; passes(engine, alloc, b"7 create D:\\a.p 5000 2", steps));
    assert!(end; passes(engine, alloc, b"7 create D:\\long 6000 5", steps));
    assert!(end; passes(engine, alloc, b"7 mkdir D:\\t 1", steps));
    assert!(end; passes(engine, alloc, T_QUOTA, steps));
    assert!(end; passes(engine, alloc, S_QUOTA, steps));
}

fn make_files<L: Ledger>(engine: &mut Engine, alloc: Global, end: &impl Abort, steps: &mut Steps<L>)
    requires { engine.old.waiting ≡ [] }
    ensures { engine.new.waiting ≡ [] }
{
    assert!(end; passes(engine, alloc, b"7 create D:\\s\\A.P 5000 2", steps));
    assert!(end; passes(engine, alloc, b"7 create D:\\t\\B.Q 5000 9", steps));
    assert!(end; passes(engine, alloc, b"7 remove D:\\gone", steps));
    assert!(end; passes(engine, alloc, b"7 create D:\\z. 5000 4", steps));
}

// By which number a test knows a row: that of a node or of an owner, or the first byte of a type.
fn number_of(row: &ReportRow) -> u32 {
    match row {
        ReportRow::File { node, .. } => *node,
        ReportRow::Kind { name, .. } => u32::from(*name.as_str().as_bytes().first().unwrap_or(&0)),
        ReportRow::Owner { owner, .. } => *owner,
        ReportRow::Quota { folder, .. } => *folder,
        ReportRow::Audit { place } => *place,
    }
}

// Whether a report's rows are those of these numbers.
fn has_rows(table: &Table, numbers: &[u32]) -> bool {
    let mut left = numbers.iter();
    for row in table.rows.as_slice() {
        if left.next() != Some(&number_of(row)) {
            return false;
        }
    }
    left.next().is_none()
}

// A report on the whole volume, of so many rows.
fn asked(kind: ReportKind, max: u32) -> ReportAsk
    requires least { 1 ≤ max }
    requires most { max ≤ 9 }
    ensures scope { result.scope ≡ 0 }
    ensures filter { is_filter result.filter ≡ true }
{
    let filter = Filter {
        owner: None,
        pattern: None,
        min_size: Some(5_000),
        days: Some(0),
        min_use: Some(0),
        max,
    };
    ReportAsk {
        kind,
        scope: 0,
        filter,
    }
}

// Whether the first rows of a report are those of these numbers.
fn lists<L: Ledger>(
    engine: &Engine,
    alloc: Global,
    kind: ReportKind,
    max: u32,
    numbers: &[u32],
    steps: &mut Steps<L>,
) -> bool
    requires least { 1 ≤ max }
    requires most { max ≤ 9 }
{
    if !is_folder(engine.tree(), 0, steps) {
        return false;
    }
    match report(alloc, engine, &asked(kind, max), 7, steps) {
        Ok(table) => has_rows(&table, numbers),
        Err(_) => false,
    }
}

fn list_files<L: Ledger>(engine: &Engine, alloc: Global, end: &impl Abort, steps: &mut Steps<L>) {
    let all = [1, 3, 4, 5, 7, 8].as_slice();
    assert!(end;
        lists(
            engine,
            alloc,
            ReportKind::LargeFiles,
            9,
            [5, 1, 3, 4, 7, 8].as_slice(),
            steps
        )
    );
    assert!(end;
        lists(
            engine,
            alloc,
            ReportKind::LargeFiles,
            3,
            [5, 1, 3].as_slice(),
            steps
        )
    );
    assert!(end;
        lists(
            engine,
            alloc,
            ReportKind::LeastRecentlyAccessed,
            9,
            all,
            steps
        )
    );
    assert!(end;
        lists(
            engine,
            alloc,
            ReportKind::MostRecentlyAccessed,
            9,
            all,
            steps
        )
    );
    assert!(end;
        lists(
            engine,
            alloc,
            ReportKind::MostRecentlyAccessed,
            2,
            [1, 3].as_slice(),
            steps
        )
    );
    assert!(end;
        lists(
            engine,
            alloc,
            ReportKind::DuplicateFiles,
            9,
            [3, 8, 4, 7].as_slice(),
            steps
        )
    );
    assert!(end;
        lists(
            engine,
            alloc,
            ReportKind::DuplicateFiles,
            3,
            [3, 8, 4].as_slice(),
            steps
        )
    );
}

fn list_others<L: Ledger>(engine: &Engine, alloc: Global, end: &impl Abort, steps: &mut Steps<L>) {
    assert!(end;
        lists(
            engine,
            alloc,
            ReportKind::FilesByOwner,
            9,
            [9, 2, 4, 5].as_slice(),
            steps
        )
    );
    assert!(end;
        lists(
            engine,
            alloc,
            ReportKind::FilesByOwner,
            3,
            [9, 2, 4].as_slice(),
            steps
        )
    );
    assert!(end;
        lists(
            engine,
            alloc,
            ReportKind::FilesByType,
            9,
            [0, 113, 112].as_slice(),
            steps
        )
    );
    assert!(end;
        lists(
            engine,
            alloc,
            ReportKind::QuotaUsage,
            9,
            [2, 6].as_slice(),
            steps
        )
    );
    assert!(end;
        lists(
            engine,
            alloc,
            ReportKind::QuotaUsage,
            1,
            [2].as_slice(),
            steps
        )
    );
    assert!(end; lists(engine, alloc, ReportKind::FileScreenAudit, 9, &[], steps));
}

fn make_and_list<L: Ledger>(
    engine: &mut Engine,
    alloc: Global,
    end: &impl Abort,
    steps: &mut Steps<L>,
)
    requires { engine.old.waiting ≡ [] }
{
    make_folders(engine, alloc, end, steps);
    make_files(engine, alloc, end, steps);
    list_files(engine, alloc, end, steps);
    list_others(engine, alloc, end, steps);
}

fn list_in_new<L: Ledger>(
    alloc: Global,
    end: &impl Abort,
    steps: &mut Steps<L>,
) -> Result<(), Fail> {
    let mut engine = Engine::new(alloc, SMALL)?;
    make_and_list(&mut engine, alloc, end, steps);
    Ok(())
}

fn reports<N: Named>(rt: &HostRuntime, end: &impl Abort, blank: Blank) -> Result<(), Fail>
    requires name { blank.name ≡ N.name }
    requires parts { blank.parts ≡ N.parts }
    requires one { blank.parts ≡ 1 }
{
    let mut steps = Steps::new(rt, Weightless::<N>::of(blank));
    list_in_new(rt.alloc(), end, &mut steps)
}

#[test]
fn the_least_number_stands_first(rt: HostRuntime) -> Result<(), Fail> {
    reports::<Brand>(&rt, &rt, Blank::new(1))
}
