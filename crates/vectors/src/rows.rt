//! Rows are copied, and the lists and texts in them.

use crate::values::{one, quota, text};
use fsrm_model::{
    ActRow, Action, ActionKind, AuditRow, AutoRow, Duplicate, ExceptRow, Filter, GroupRow, JobRow,
    List, NodeRow, ReportKind, ScreenRow, TemplateRow, Threshold,
};
use std::alloc::Global;
use std::test::Fail;

fn actions(alloc: Global) -> Result<List<Action>, Fail> {
    let action = Action {
        kind: ActionKind::Mail,
        minutes: -1,
        text: text(alloc)?,
        last_run: Some(5),
    };
    one(alloc, action)
}

/// A threshold of 85 percent whose action ran.
pub fn thresholds(alloc: Global) -> Result<List<Threshold>, Fail> {
    let threshold = Threshold {
        percent: 85,
        actions: actions(alloc)?,
    };
    one(alloc, threshold)
}

fn copied<T: Duplicate>(alloc: Global, row: Result<T, Fail>) -> Result<(), Fail> {
    row?.copy(alloc)?;
    Ok(())
}

fn node(alloc: Global) -> Result<NodeRow, Fail> {
    let name = text(alloc)?;
    Ok(NodeRow {
        number: 1,
        parent: 0,
        name,
        folder: false,
        length: 2,
        owner: 3,
        created: 4,
        modified: 5,
        accessed: 6,
    })
}

fn act() -> ActRow {
    ActRow {
        moment: 1,
        folder: 2,
        percent: 85,
        kind: ActionKind::Event,
    }
}

/// An entry of the audit log.
pub fn audit(alloc: Global) -> Result<AuditRow, Fail> {
    let name = text(alloc)?;
    Ok(AuditRow {
        moment: 1,
        active: true,
        owner: 2,
        folder: 3,
        screen: 4,
        name,
    })
}

#[test]
fn nodes_and_logs_are_copied(rt: HostRuntime) -> Result<(), Fail> {
    copied(rt.alloc(), node(rt.alloc()))?;
    copied(rt.alloc(), Ok(act()))?;
    copied(rt.alloc(), audit(rt.alloc()))
}

/// A template whose action ran.
pub fn template(alloc: Global) -> Result<TemplateRow, Fail> {
    let name = text(alloc)?;
    let thresholds = thresholds(alloc)?;
    Ok(TemplateRow {
        number: 1,
        name,
        limit: 1_024,
        enforce: false,
        thresholds,
    })
}

fn auto(alloc: Global) -> Result<AutoRow, Fail> {
    let excluded = one(alloc, text(alloc)?)?;
    Ok(AutoRow {
        folder: 1,
        template: 2,
        excluded,
    })
}

#[test]
fn quotas_and_templates_are_copied(rt: HostRuntime) -> Result<(), Fail> {
    copied(rt.alloc(), Ok(quota(rt.alloc(), 1, 1_024)))?;
    copied(rt.alloc(), template(rt.alloc()))?;
    copied(rt.alloc(), auto(rt.alloc()))
}

/// A file group.
pub fn group(alloc: Global) -> Result<GroupRow, Fail> {
    let name = text(alloc)?;
    let members = one(alloc, text(alloc)?)?;
    Ok(GroupRow {
        number: 1,
        name,
        members,
        non_members: List::new(alloc),
    })
}

fn screen(alloc: Global) -> Result<ScreenRow, Fail> {
    let groups = one(alloc, 2)?;
    let actions = actions(alloc)?;
    Ok(ScreenRow {
        folder: 1,
        active: true,
        groups,
        actions,
    })
}

fn exception(alloc: Global) -> Result<ExceptRow, Fail> {
    let groups = one(alloc, 2)?;
    Ok(ExceptRow { folder: 1, groups })
}

#[test]
fn groups_and_screens_are_copied(rt: HostRuntime) -> Result<(), Fail> {
    copied(rt.alloc(), group(rt.alloc()))?;
    copied(rt.alloc(), screen(rt.alloc()))?;
    copied(rt.alloc(), exception(rt.alloc()))
}

fn job(alloc: Global) -> Result<JobRow, Fail> {
    let name = text(alloc)?;
    let schedule = text(alloc)?;
    let filter = Filter {
        owner: Some(1),
        pattern: Some(text(alloc)?),
        min_size: Some(2),
        days: Some(3),
        min_use: None,
        max: 4,
    };
    Ok(JobRow {
        number: 1,
        name,
        kind: ReportKind::LargeFiles,
        scope: 2,
        filter,
        schedule,
        made: 3,
        last_run: None,
    })
}

#[test]
fn jobs_are_copied(rt: HostRuntime) -> Result<(), Fail> {
    copied(rt.alloc(), job(rt.alloc()))
}
