//! All options of the tools' commands, a row each. The definitions have the same rows, and a command whose options had
//! others would not be proved.

use command_words::forms::{
    AbsolutePath, Choice, FileLength, FolderName, Limit, Members, NonMembers, Notice, Number,
    ObjectName, Pattern, Percent, ReportName, RunLimit, Schedule, ScreenAction, UpdateMode,
};
use command_words::{AtMost, Once, Repeated};
use fsrm_model::limits::{LAST_OWNER, MOST_DAYS, MOST_EXCLUDED, MOST_ROWS, MOST_USE};

pub const PATH: Once<AbsolutePath> = Once {
    name: "/Path",
    form: AbsolutePath,
};

pub const LIMIT: Once<Limit> = Once {
    name: "/Limit",
    form: Limit,
};

/// Whether a quota is hard.
pub const QUOTA_TYPE: Once<Choice> = Once {
    name: "/Type",
    form: Choice {
        first: "hard",
        second: "soft",
    },
};

pub const STATUS: Once<Choice> = Once {
    name: "/Status",
    form: Choice {
        first: "enabled",
        second: "disabled",
    },
};

pub const REMOVE_THRESHOLD: Repeated<Percent> = Repeated {
    name: "/Remove-Threshold",
    form: Percent,
};

pub const ADD_THRESHOLD: Repeated<Percent> = Repeated {
    name: "/Add-Threshold",
    form: Percent,
};

pub const ADD_NOTIFICATION: Repeated<Notice> = Repeated {
    name: "/Add-Notification",
    form: Notice,
};

pub const TEMPLATE: Once<ObjectName> = Once {
    name: "/Template",
    form: ObjectName,
};

pub const SOURCE_TEMPLATE: Once<ObjectName> = Once {
    name: "/SourceTemplate",
    form: ObjectName,
};

pub const UPDATE_DERIVED: Once<UpdateMode> = Once {
    name: "/UpdateDerived",
    form: UpdateMode,
};

pub const EXCLUDE: AtMost<FolderName> = AtMost {
    name: "/Exclude",
    most: MOST_EXCLUDED,
    form: FolderName,
};

pub const RUN_LIMIT: Once<RunLimit> = Once {
    name: "/RunLimitInterval",
    form: RunLimit,
};

pub const FILEGROUP: Once<ObjectName> = Once {
    name: "/Filegroup",
    form: ObjectName,
};

pub const MEMBERS: Once<Members> = Once {
    name: "/Members",
    form: Members,
};

pub const NON_MEMBERS: Once<NonMembers> = Once {
    name: "/NonMembers",
    form: NonMembers,
};

/// Whether a screen is active.
pub const SCREEN_TYPE: Once<Choice> = Once {
    name: "/Type",
    form: Choice {
        first: "active",
        second: "passive",
    },
};

pub const REMOVE_FILEGROUP: Repeated<ObjectName> = Repeated {
    name: "/Remove-Filegroup",
    form: ObjectName,
};

pub const ADD_FILEGROUP: Repeated<ObjectName> = Repeated {
    name: "/Add-Filegroup",
    form: ObjectName,
};

/// An action of a screen.
pub const SCREEN_NOTIFICATION: Repeated<ScreenAction> = Repeated {
    name: "/Add-Notification",
    form: ScreenAction,
};

/// The name of a report job.
pub const TASK: Once<ObjectName> = Once {
    name: "/Task",
    form: ObjectName,
};

pub const REPORT: Once<ReportName> = Once {
    name: "/Report",
    form: ReportName,
};

pub const SCOPE: Once<AbsolutePath> = Once {
    name: "/Scope",
    form: AbsolutePath,
};

pub const SCHEDULE: Once<Schedule> = Once {
    name: "/Schedule",
    form: Schedule,
};

pub const OWNER: Once<Number> = Once {
    name: "/Owner",
    form: Number {
        least: 1,
        greatest: LAST_OWNER,
    },
};

pub const PATTERN: Once<Pattern> = Once {
    name: "/Pattern",
    form: Pattern,
};

pub const MIN_SIZE: Once<FileLength> = Once {
    name: "/MinSize",
    form: FileLength,
};

pub const DAYS: Once<Number> = Once {
    name: "/Days",
    form: Number {
        least: 0,
        greatest: MOST_DAYS,
    },
};

/// A percentage of a quota's limit.
pub const MIN_USE: Once<Number> = Once {
    name: "/MinUse",
    form: Number {
        least: 0,
        greatest: MOST_USE,
    },
};

/// How many rows a report may have.
pub const MAX: Once<Number> = Once {
    name: "/Max",
    form: Number {
        least: 1,
        greatest: MOST_ROWS,
    },
};
