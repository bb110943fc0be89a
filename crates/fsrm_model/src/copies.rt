//! Copies of rows, each into memory of its own.

use crate::report::ReportRow;
use crate::row::{
    ActRow, Action, AuditRow, AutoRow, ExceptRow, Filter, GroupRow, JobRow, NodeRow, QuotaRow,
    ScreenRow, TemplateRow, Threshold,
};
use fsrm_base::{Duplicate, NoMemory, Text};
use std::alloc::Global;

impl Duplicate for NodeRow {
    fn copy(&self, alloc: Global) -> Result<Self, NoMemory> {
        Ok(NodeRow {
            number: self.number,
            parent: self.parent,
            name: self.name.copy(alloc)?,
            folder: self.folder,
            length: self.length,
            owner: self.owner,
            created: self.created,
            modified: self.modified,
            accessed: self.accessed,
        })
    }
}

impl Duplicate for Action {
    fn copy(&self, alloc: Global) -> Result<Self, NoMemory> {
        Ok(Action {
            kind: self.kind,
            minutes: self.minutes,
            text: self.text.copy(alloc)?,
            last_run: self.last_run,
        })
    }
}

impl Duplicate for Threshold {
    fn copy(&self, alloc: Global) -> Result<Self, NoMemory> {
        Ok(Threshold {
            percent: self.percent,
            actions: self.actions.copy(alloc)?,
        })
    }
}

impl Duplicate for QuotaRow {
    fn copy(&self, alloc: Global) -> Result<Self, NoMemory> {
        Ok(QuotaRow {
            folder: self.folder,
            limit: self.limit,
            enforce: self.enforce,
            state: self.state,
            thresholds: self.thresholds.copy(alloc)?,
            template: self.template,
            peak: self.peak,
            peak_at: self.peak_at,
        })
    }
}

impl Duplicate for TemplateRow {
    fn copy(&self, alloc: Global) -> Result<Self, NoMemory> {
        Ok(TemplateRow {
            number: self.number,
            name: self.name.copy(alloc)?,
            limit: self.limit,
            enforce: self.enforce,
            thresholds: self.thresholds.copy(alloc)?,
        })
    }
}

impl Duplicate for AutoRow {
    fn copy(&self, alloc: Global) -> Result<Self, NoMemory> {
        Ok(AutoRow {
            folder: self.folder,
            template: self.template,
            excluded: self.excluded.copy(alloc)?,
        })
    }
}

impl Duplicate for GroupRow {
    fn copy(&self, alloc: Global) -> Result<Self, NoMemory> {
        Ok(GroupRow {
            number: self.number,
            name: self.name.copy(alloc)?,
            members: self.members.copy(alloc)?,
            non_members: self.non_members.copy(alloc)?,
        })
    }
}

impl Duplicate for ScreenRow {
    fn copy(&self, alloc: Global) -> Result<Self, NoMemory> {
        Ok(ScreenRow {
            folder: self.folder,
            active: self.active,
            groups: self.groups.copy(alloc)?,
            actions: self.actions.copy(alloc)?,
        })
    }
}

impl Duplicate for ExceptRow {
    fn copy(&self, alloc: Global) -> Result<Self, NoMemory> {
        Ok(ExceptRow {
            folder: self.folder,
            groups: self.groups.copy(alloc)?,
        })
    }
}

impl Duplicate for Filter {
    fn copy(&self, alloc: Global) -> Result<Self, NoMemory> {
        Ok(Filter {
            owner: self.owner,
            pattern: self.pattern.copy(alloc)?,
            min_size: self.min_size,
            days: self.days,
            min_use: self.min_use,
            max: self.max,
        })
    }
}

impl Duplicate for JobRow {
    fn copy(&self, alloc: Global) -> Result<Self, NoMemory> {
        Ok(JobRow {
            number: self.number,
            name: self.name.copy(alloc)?,
            kind: self.kind,
            scope: self.scope,
            filter: self.filter.copy(alloc)?,
            schedule: self.schedule.copy(alloc)?,
            made: self.made,
            last_run: self.last_run,
        })
    }
}

impl Duplicate for AuditRow {
    fn copy(&self, alloc: Global) -> Result<Self, NoMemory> {
        Ok(AuditRow {
            moment: self.moment,
            active: self.active,
            owner: self.owner,
            folder: self.folder,
            screen: self.screen,
            name: self.name.copy(alloc)?,
        })
    }
}

impl Duplicate for ActRow {
    fn copy(&self, _alloc: Global) -> Result<Self, NoMemory> {
        Ok(*self)
    }
}

impl Duplicate for ReportRow {
    fn copy(&self, alloc: Global) -> Result<Self, NoMemory> {
        Ok(match self {
            ReportRow::File { node, alloc } => ReportRow::File {
                node: *node,
                alloc: *alloc,
            },
            ReportRow::Kind {
                name,
                files,
                lengths,
                alloc: space,
            } => ReportRow::Kind {
                name: name.copy(alloc)?,
                files: *files,
                lengths: *lengths,
                alloc: *space,
            },
            ReportRow::Owner {
                owner,
                files,
                lengths,
                alloc,
            } => ReportRow::Owner {
                owner: *owner,
                files: *files,
                lengths: *lengths,
                alloc: *alloc,
            },
            ReportRow::Quota { folder, percent } => ReportRow::Quota {
                folder: *folder,
                percent: *percent,
            },
            ReportRow::Audit { place } => ReportRow::Audit { place: *place },
        })
    }
}
