//! Rows of which an engine is made, and the same rows with one thing wrong, of which none is.

ghost use Rattle.std.specs.Prelude.{◌≡◌};

use crate::rows::{audit, group, template, thresholds};
use crate::rows_back::is_bad;
use crate::values::{SMALL, folder, new_rows, quota};
use fsrm_engine::Engine;
use fsrm_model::{Action, ActionKind, Ledger, List, Rows, Steps, Text, Threshold, Weightless};
use std::alloc::Global;
use std::marker::Brand;
use std::process::Abort;
use std::sync::ledger::{Blank, Ledger as Named};
use std::test::Fail;

// What is wrong with rows.
#[derive(Clone, Copy)]
enum Wrong {
    // A scan waits.
    Queue,
    // Two folders stand in each other.
    Ring,
    // Two groups have one name, in two spellings.
    TwoNames,
    // An entry of the audit log has no name.
    NoName,
    // A quota has two thresholds of one percentage.
    Thresholds,
    // An action of a template ran.
    Ran,
    // No table's texts are too long, but all together are.
    Texts,
}

const WRONG: [Wrong; 7] = [
    Wrong::Queue,
    Wrong::Ring,
    Wrong::TwoNames,
    Wrong::NoName,
    Wrong::Thresholds,
    Wrong::Ran,
    Wrong::Texts,
];

// Adds a folder that stands in one with a greater number, and a group.
fn add_sound(rows: &mut Rows, alloc: Global) -> Result<(), Fail> {
    rows.nodes.push(folder(alloc, 1, 2, "a")?)?;
    rows.nodes.push(folder(alloc, 2, 0, "b")?)?;
    rows.groups.push(group(alloc)?)?;
    Ok(())
}

fn sound(alloc: Global) -> Result<Rows, Fail> {
    let mut rows = new_rows(alloc)?;
    add_sound(&mut rows, alloc)?;
    Ok(rows)
}

fn add_scan(rows: &mut Rows) -> Result<(), Fail> {
    rows.queue.push(1)?;
    Ok(())
}

fn add_ring(rows: &mut Rows, alloc: Global) -> Result<(), Fail> {
    rows.nodes.push(folder(alloc, 3, 4, "c")?)?;
    rows.nodes.push(folder(alloc, 4, 3, "d")?)?;
    Ok(())
}

fn add_group(rows: &mut Rows, alloc: Global) -> Result<(), Fail> {
    let mut again = group(alloc)?;
    again.number = 2;
    again.name = Text::from_str(alloc, "TEXT")?;
    rows.groups.push(again)?;
    Ok(())
}

fn add_audit(rows: &mut Rows, alloc: Global) -> Result<(), Fail> {
    let mut unnamed = audit(alloc)?;
    unnamed.name = Text::from_str(alloc, "")?;
    rows.audits.push(unnamed)?;
    Ok(())
}

// The root's quota.
fn add_quota(rows: &mut Rows, alloc: Global, thresholds: List<Threshold>) -> Result<(), Fail> {
    let mut row = quota(alloc, 0, 1_024);
    row.thresholds = thresholds;
    rows.quotas.push(row)?;
    Ok(())
}

fn same_thresholds(alloc: Global) -> Result<List<Threshold>, Fail> {
    let mut twice = thresholds(alloc)?;
    let actions = List::new(alloc);
    twice.push(Threshold {
        percent: 85,
        actions,
    })?;
    Ok(twice)
}

fn add_same_thresholds(rows: &mut Rows, alloc: Global) -> Result<(), Fail> {
    add_quota(rows, alloc, same_thresholds(alloc)?)
}

fn add_template(rows: &mut Rows, alloc: Global) -> Result<(), Fail> {
    rows.templates.push(template(alloc)?)?;
    Ok(())
}

// As many actions as there may be, with texts as long as they may be.
fn long_actions(alloc: Global) -> Result<List<Action>, Fail> {
    let mut actions = List::new(alloc);
    for _ in 0..8 {
        let spaces = format!(in alloc; "{:1024}", "")?;
        actions.push(Action {
            kind: ActionKind::Mail,
            minutes: 0,
            text: Text::from_str(alloc, &spaces)?,
            last_run: None,
        })?;
    }
    Ok(actions)
}

// As many thresholds as there may be, with 131,072 bytes of texts: the 32nd part of all that there may be.
fn long_thresholds(alloc: Global) -> Result<List<Threshold>, Fail> {
    let mut thresholds = List::new(alloc);
    for percent in 1..17 {
        let actions = long_actions(alloc)?;
        thresholds.push(Threshold { percent, actions })?;
    }
    Ok(thresholds)
}

fn add_long_template(rows: &mut Rows, alloc: Global, number: u32) -> Result<(), Fail> {
    let mut row = template(alloc)?;
    row.number = number;
    row.name = Text::from_str(alloc, &format!(in alloc; "{number}")?)?;
    row.thresholds = long_thresholds(alloc)?;
    rows.templates.push(row)?;
    Ok(())
}

fn add_texts(rows: &mut Rows, alloc: Global) -> Result<(), Fail> {
    for number in 0..31 {
        add_long_template(rows, alloc, number)?;
    }
    add_quota(rows, alloc, long_thresholds(alloc)?)
}

fn spoil(rows: &mut Rows, alloc: Global, wrong: Wrong) -> Result<(), Fail> {
    match wrong {
        Wrong::Queue => add_scan(rows),
        Wrong::Ring => add_ring(rows, alloc),
        Wrong::TwoNames => add_group(rows, alloc),
        Wrong::NoName => add_audit(rows, alloc),
        Wrong::Thresholds => add_same_thresholds(rows, alloc),
        Wrong::Ran => add_template(rows, alloc),
        Wrong::Texts => add_texts(rows, alloc),
    }
}

fn is_refused<L: Ledger>(alloc: Global, wrong: Wrong, steps: &mut Steps<L>) -> Result<bool, Fail> {
    let mut rows = sound(alloc)?;
    spoil(&mut rows, alloc, wrong)?;
    Ok(is_bad(alloc, &rows, steps))
}

fn is_taken<L: Ledger>(alloc: Global, steps: &mut Steps<L>) -> Result<bool, Fail> {
    let rows = sound(alloc)?;
    Ok(Engine::from_rows(alloc, &rows, SMALL, steps).is_ok())
}

fn all_refused<N: Named>(rt: &HostRuntime, end: &impl Abort, blank: Blank) -> Result<(), Fail>
    requires name { blank.name ≡ N.name }
    requires parts { blank.parts ≡ N.parts }
    requires one { blank.parts ≡ 1 }
{
    let mut steps = Steps::new(rt, Weightless::<N>::of(blank));
    assert!(end; is_taken(rt.alloc(), &mut steps)?);
    for wrong in WRONG {
        assert!(end; is_refused(rt.alloc(), wrong, &mut steps)?);
    }
    Ok(())
}

#[test]
fn rows_with_one_thing_wrong(rt: HostRuntime) -> Result<(), Fail> {
    all_refused::<Brand>(&rt, &rt, Blank::new(1))
}
