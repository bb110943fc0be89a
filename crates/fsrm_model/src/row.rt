//! The rows of a store. They are the object model of Microsoft's File Server Resource Manager
//! (MS-FSRM): quotas, quota templates, auto-apply quotas, file groups, file screens, file screen
//! exceptions and report jobs, beside the folders and files that they govern.
//!
//! Moments are seconds since 1970-01-01 00:00:00 UTC, up to 4,102,444,799. Lists of rows ascend
//! by number or folder, and have each at most once; logs begin with the oldest entry.

ghost use Rattle.std.specs.Prelude.{◌≡◌};
ghost use Rattle.fsrm_model.specs.texts.ActionWords.{kind_word};
ghost use Rattle.fsrm_model.specs.objects.Quota.{is_complete};

use fsrm_base::{List, Text};

/// How much a store holds.
#[derive(Clone, Copy, Debug, PartialEq, Eq)]
pub struct Capacity {
    /// Nodes, the root among them: 2 to 1,048,576.
    pub nodes: u32,
    /// Bytes of all names of nodes together: 256 to 268,435,456.
    pub names: u32,
    /// Bytes of a cluster, the unit in which a file takes space: 512, 1,024, 2,048, 4,096, 8,192,
    /// 16,384, 32,768 or 65,536.
    pub cluster: u32,
}

/// A folder or a file. The root is number 0, its own parent, and has an empty name.
#[derive(Drop)]
pub struct NodeRow {
    /// Below the capacity. A new node takes the least number that is free.
    pub number: u32,
    pub parent: u32,
    pub name: Text,
    pub folder: bool,
    /// At least 1.
    pub owner: u32,
    /// Bytes of a file, up to 17,592,185,978,880. A folder has 0.
    pub length: u64,
    pub created: u64,
    pub modified: u64,
    pub accessed: u64,
}

/// What an action does (MS-FSRM, FsrmActionType).
#[derive(Clone, Copy, Debug, PartialEq, Eq)]
pub enum ActionKind {
    /// An entry of the event log.
    Event,
    Mail,
    /// A command that is run.
    Program,
    Report,
}

impl ActionKind {
    /// The letter that stands for the kind in a script and in a list.
    pub fn letter(self) -> &'static str
        ensures { result.now ≡ kind_word self }
    {
        match self {
            ActionKind::Event => "e",
            ActionKind::Mail => "m",
            ActionKind::Program => "c",
            ActionKind::Report => "r",
        }
    }
}

/// An action of a threshold or a screen (MS-FSRM, IFsrmAction).
#[derive(Drop)]
pub struct Action {
    pub kind: ActionKind,
    /// How many minutes pass before it runs again: 0 to 525,600, or -1 for the service's setting.
    pub minutes: i32,
    /// Up to 1,024 bytes.
    pub text: Text,
    /// The moment of its last run.
    pub last_run: Option<u64>,
}

/// A percentage of a quota's limit, and what is done when the usage reaches it.
#[derive(Drop)]
pub struct Threshold {
    /// 1 to 250.
    pub percent: u16,
    /// At most 8.
    pub actions: List<Action>,
}

/// Whether a quota's counter stands for what is stored (MS-FSRM, FsrmQuotaFlags).
#[derive(Clone, Copy, Debug, PartialEq, Eq)]
pub enum QuotaState {
    /// It does. The quota counts in this state alone.
    Complete,
    Disabled,
    /// A scan counts the folder afresh, or waits to.
    Rebuilding,
    /// Its scan wasn't finished when a run ended.
    Incomplete,
}

impl QuotaState {
    /// Whether a quota in this state counts.
    pub fn counts(self) -> bool
        ensures { result ≡ is_complete self }
    {
        self == QuotaState::Complete
    }
}

/// A limit on what the files at and below a folder take (MS-FSRM, IFsrmQuota).
#[derive(Drop)]
pub struct QuotaRow {
    pub folder: u32,
    /// Bytes, 1,024 to 2^60.
    pub limit: u64,
    /// A hard quota refuses what would pass its limit, a soft one only watches.
    pub enforce: bool,
    pub state: QuotaState,
    /// At most 16, ascending by percentage.
    pub thresholds: List<Threshold>,
    /// The number of the template that it was derived from, until that is deleted.
    pub template: Option<u32>,
    /// The greatest usage since the peak was last reset.
    pub peak: u64,
    pub peak_at: u64,
}

/// A quota template: what a quota that is derived from it begins with (MS-FSRM, IFsrmQuotaTemplate).
#[derive(Drop)]
pub struct TemplateRow {
    /// Below 1,024. A new template takes the least number that is free.
    pub number: u32,
    /// Differs from those of all others, in any spelling.
    pub name: Text,
    /// Bytes, 1,024 to 2^60.
    pub limit: u64,
    /// Whether its quotas are hard.
    pub enforce: bool,
    /// As those of a quota. Their actions never run.
    pub thresholds: List<Threshold>,
}

/// An auto-apply quota: each folder that stands in the folder when it is added, and each that is made in the folder or
/// moved into it later, gets a quota from the template, if it has none (MS-FSRM, IFsrmAutoApplyQuota).
#[derive(Drop)]
pub struct AutoRow {
    pub folder: u32,
    /// The template's number.
    pub template: u32,
    /// The names of folders that get none, at most 32, as they were given.
    pub excluded: List<Text>,
}

/// A file group: names that match a member pattern and no non-member pattern (MS-FSRM, IFsrmFileGroup).
#[derive(Drop)]
pub struct GroupRow {
    pub number: u32,
    pub name: Text,
    pub members: List<Text>,
    pub non_members: List<Text>,
}

/// A file screen (MS-FSRM, IFsrmFileScreen).
#[derive(Drop)]
pub struct ScreenRow {
    pub folder: u32,
    /// An active screen refuses, a passive one reports.
    pub active: bool,
    /// Numbers of file groups, 1 to 16.
    pub groups: List<u32>,
    /// At most 8.
    pub actions: List<Action>,
}

/// A file screen exception (MS-FSRM, IFsrmFileScreenException).
#[derive(Drop)]
pub struct ExceptRow {
    pub folder: u32,
    /// Numbers of file groups, 1 to 16.
    pub groups: List<u32>,
}

/// Which files a report is on, and how many rows it has.
#[derive(Drop)]
pub struct Filter {
    pub owner: Option<u32>,
    pub pattern: Option<Text>,
    /// Bytes.
    pub min_size: Option<u64>,
    pub days: Option<u32>,
    /// A percentage of the limit.
    pub min_use: Option<u32>,
    /// The most rows, 1 to 100,000.
    pub max: u32,
}

/// What a report is about (MS-FSRM, FsrmReportType).
#[derive(Clone, Copy, Debug, PartialEq, Eq)]
pub enum ReportKind {
    LargeFiles,
    FilesByType,
    LeastRecentlyAccessed,
    MostRecentlyAccessed,
    QuotaUsage,
    FilesByOwner,
    DuplicateFiles,
    FileScreenAudit,
}

/// A report job (MS-FSRM, IFsrmReportJob).
#[derive(Drop)]
pub struct JobRow {
    pub number: u32,
    pub name: Text,
    pub kind: ReportKind,
    /// The folder that it reports on.
    pub scope: u32,
    pub filter: Filter,
    /// As given, up to 200 bytes.
    pub schedule: Text,
    pub made: u64,
    pub last_run: Option<u64>,
}

/// An entry of the action log. Its folder's number is as it was then; `percent` is 0 for a screen's.
#[derive(Clone, Copy, Debug, PartialEq, Eq)]
pub struct ActRow {
    pub moment: u64,
    pub folder: u32,
    pub percent: u16,
    pub kind: ActionKind,
}

/// An entry of the audit log. Its numbers are as they were then.
#[derive(Drop)]
pub struct AuditRow {
    pub moment: u64,
    pub active: bool,
    pub owner: u32,
    pub folder: u32,
    pub screen: u32,
    pub name: Text,
}

/// All that a store holds.
#[derive(Drop)]
pub struct Rows {
    pub nodes: List<NodeRow>,
    pub quotas: List<QuotaRow>,
    pub templates: List<TemplateRow>,
    pub autos: List<AutoRow>,
    pub groups: List<GroupRow>,
    pub screens: List<ScreenRow>,
    pub excepts: List<ExceptRow>,
    pub jobs: List<JobRow>,
    /// The last 1,024.
    pub acts: List<ActRow>,
    /// The last 1,024.
    pub audits: List<AuditRow>,
    /// The folders of the rebuilding quotas, in the order of their scans.
    pub queue: List<u32>,
    /// The folders that the scan at the queue's head has still to visit, ascending.
    pub unvisited: List<u32>,
    /// Minutes, 0 to 525,600: what an action's -1 stands for.
    pub run_limit: u32,
    /// The moment of the last command that lasts.
    pub last_moment: u64,
}
