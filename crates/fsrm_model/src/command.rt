//! Commands and what becomes of them.

ghost use Rattle.std.specs.Prelude.{◌≡◌};
ghost use Rattle.fsrm_model.specs.objects.Acts.{folder_in, percent_in};

use crate::boxed::Boxed;
use crate::path::Path;
use crate::report::ReportAsk;
use crate::row::{Action, ActionKind, Filter, ReportKind};
use fsrm_base::{List, Text};

/// Why a command is refused. A refused command changes nothing, with two exceptions. A name that a screen blocks leaves
/// its entry in the audit log and has the screen's actions run that are due. A file operation that a quota refuses has
/// those actions of the quota run that are due. The refusals up to `InvalidLimit` come from reading the line,
/// `OutOfRange` from the command, too.
#[derive(Clone, Copy, Debug, PartialEq, Eq)]
pub enum Refusal {
    /// At this column, in bytes from 1, a word hasn't its form, is missing or is one too many, an option is unknown or
    /// given twice, a quote isn't ended, or a character isn't UTF-8.
    BadLine { column: u32 },
    /// The line has more than 65,536 bytes.
    LineTooLong,
    /// A path isn't one (MS-FSRM, FSRM_E_INVALID_PATH).
    InvalidPath,
    /// A name isn't one (MS-FSRM, FSRM_E_INVALID_NAME).
    InvalidName,
    /// A number isn't in its range, or a list would be too long: a quota or a template has at most 16 thresholds, a
    /// threshold or a screen at most 8 actions, an auto-apply quota at most 32 excluded names, a list of patterns at
    /// most 64 of them, and a screen or an exception at most 16 file groups (MS-FSRM, FSRM_E_OUT_OF_RANGE).
    OutOfRange,
    /// A quota's limit is below 1,024 bytes or above 2^60 (MS-FSRM, FSRM_E_INVALID_LIMIT).
    InvalidLimit,
    /// The command's moment is earlier than that of the last command that lasted.
    ClockBack,
    /// A path, or a path without its last name, leads to nothing of the kind that is wanted (MS-FSRM,
    /// FSRM_E_PATH_NOT_FOUND).
    PathNotFound,
    /// The folder has no such object; no template, no file group or no report job has the name; or what is to be removed,
    /// a threshold of a quota or a template or a file group of a screen, isn't there or is named twice (MS-FSRM,
    /// FSRM_E_NOT_FOUND).
    NotFound,
    /// The place is taken, or the folder has such an object (MS-FSRM, FSRM_E_ALREADY_EXISTS).
    AlreadyExists,
    /// A template, a file group or a report job has the name, in some spelling (MS-FSRM, FSRM_E_DUPLICATE_NAME).
    DuplicateName,
    /// An auto-apply quota names the template, or a screen or an exception the file group.
    InUse,
    /// The quota is disabled, so it can't be scanned; or a folder would have both a screen and an exception, or a
    /// screen no file group (MS-FSRM, FSRM_E_INVALID_COMBINATION).
    InvalidCombination,
    /// The folder has a child.
    NotEmpty,
    /// The root can't be moved or removed, nor a folder moved below itself.
    InvalidMove,
    /// No scan is active.
    NothingToScan,
    /// The store holds as many nodes as it may.
    VolumeFull,
    /// The names of all nodes would have more bytes than the store may hold.
    NamesFull,
    /// There would be more than 4,096 quotas, screens or exceptions, more than 1,024 templates, auto-apply quotas or file
    /// groups, or more than 256 report jobs.
    TableFull,
    /// The texts of all objects would have more than 4,194,304 bytes.
    TextsFull,
    /// The file would get a name that a screen blocks. `screen` is the screen's folder. It is the nearest active screen
    /// that applies to the name.
    ScreenBlocked { screen: u32 },
    /// The usage of a folder with a hard quota that counts would rise, and above the limit. It is the deepest such
    /// folder. `would` is what the files at and below it would take, in bytes.
    QuotaExceeded { folder: u32, would: u64, limit: u64 },
}

/// A file operation.
#[derive(Drop)]
pub enum FileOp {
    /// Makes a folder. If the folder that it is made in has an auto-apply quota that doesn't exclude its name, the new
    /// folder gets a quota, or the operation is refused if there is no room for one (TableFull, TextsFull).
    Mkdir { path: Path, owner: u32 },
    /// Makes a file of this length, in bytes.
    Create { path: Path, length: u64, owner: u32 },
    /// Sets a file's length.
    Resize { path: Path, length: u64 },
    /// Notes that a file was read.
    Touch { path: Path },
    /// Gives a node another place, and that place's spelling. A folder without a quota may get one there, as at
    /// `Mkdir`.
    Move { from: Path, to: Path },
    /// Takes away a file, or a folder without children.
    Remove { path: Path },
}

/// An action that a threshold gets; a quota or a template that hasn't the threshold gets that, too. The action has no
/// last run.
#[derive(Drop)]
pub struct Added {
    /// 1 to 250.
    pub percent: u16,
    pub action: Action,
}

/// Which of the quotas that were derived from a template its change reaches (MS-FSRM, FsrmTemplateApplyOptions). Each
/// of them gets the template's limit, type and thresholds, whose actions never ran; its state and its peak stay.
#[derive(Clone, Copy, Debug, PartialEq, Eq)]
pub enum Update {
    /// None of them.
    Keep,
    /// Those whose limit, type and thresholds are what the template had before, whenever their actions ran.
    Matching,
    /// All of them.
    All,
}

/// Thresholds that a quota or a template gets: percentages, each 1 to 250, and then actions of percentages, both in the
/// order in which they were given.
#[derive(Drop)]
pub struct NewThresholds {
    pub percents: List<u16>,
    pub notices: List<Added>,
}

/// A quota that is to be made. Its limit, its type and its thresholds are those of its template, if one is given;
/// without one it is hard and has no thresholds. A limit and a type that are given count in place of these. Its
/// thresholds get those that are given.
#[derive(Drop)]
pub struct NewQuota {
    pub path: Path,
    pub limit: Option<u64>,
    pub enforce: Option<bool>,
    pub enabled: bool,
    pub template: Option<Text>,
    pub thresholds: NewThresholds,
}

/// What a quota gets in place of what it has. Of its thresholds some are removed, and then others come.
#[derive(Drop)]
pub struct QuotaChange {
    pub path: Path,
    pub limit: Option<u64>,
    pub enforce: Option<bool>,
    pub enabled: Option<bool>,
    pub removed: List<u16>,
    pub thresholds: NewThresholds,
}

/// What a command on a quota is to do.
#[derive(Drop)]
pub enum QuotaDeed {
    /// Limits what the files at and below a folder take, in bytes (MS-FSRM, IFsrmQuota). A hard quota is enforced, a
    /// soft one only watches.
    Add(NewQuota),
    /// Gives a quota another limit, makes it hard or soft, enables or disables it, or changes its thresholds. Its
    /// template stays.
    Modify(QuotaChange),
    /// Takes a folder's quota away.
    Delete { path: Path },
    /// Has what a folder's files take counted afresh, by a scan that waits for its turn (MS-FSRM, IFsrmQuotaManager,
    /// Scan).
    Scan { path: Path },
    /// Makes what is used now the peak, or 0 if the quota doesn't count (MS-FSRM, ResetPeakUsage).
    Resetpeak { path: Path },
    /// Lists the quota of a folder, or all quotas.
    List { path: Option<Path> },
}

/// A template that is to be made.
#[derive(Drop)]
pub struct NewTemplate {
    pub name: Text,
    pub limit: u64,
    pub enforce: bool,
    pub thresholds: NewThresholds,
}

/// What a template gets in place of what it has, as a quota does, and which of the quotas that were derived from it are
/// changed.
#[derive(Drop)]
pub struct TemplateChange {
    pub name: Text,
    pub limit: Option<u64>,
    pub enforce: Option<bool>,
    pub removed: List<u16>,
    pub thresholds: NewThresholds,
    pub update: Update,
}

/// What a command on a template of quotas is to do.
#[derive(Drop)]
pub enum TemplateDeed {
    /// Makes a template of quotas (MS-FSRM, IFsrmQuotaTemplate).
    Add(NewTemplate),
    /// Changes a template as a quota is changed, and then the quotas that were derived from it, as far as the update
    /// reaches them (MS-FSRM, IFsrmQuotaTemplate, CommitAndUpdateDerived).
    Modify(TemplateChange),
    /// Takes a template away that no auto-apply quota names. The quotas that were derived from it stay, without a
    /// template.
    Delete { name: Text },
    /// Lists all templates.
    List,
}

/// An auto-apply quota that is to be made: for the folders in this one, of this template, but for those with an excluded
/// name.
#[derive(Drop)]
pub struct NewAutoquota {
    pub path: Path,
    pub template: Text,
    pub excluded: List<Text>,
}

/// What a command on an auto-apply quota is to do.
#[derive(Drop)]
pub enum AutoquotaDeed {
    /// Gives each folder in a folder a quota of a template, and each that is made in it or moved into it later
    /// (MS-FSRM, IFsrmAutoApplyQuota). Folders with an excluded name get none, nor does one that has a quota.
    Add(NewAutoquota),
    /// Takes a folder's auto-apply quota away. The quotas that it gave stay.
    Delete { path: Path },
    /// Lists all auto-apply quotas.
    List,
}

/// A file group that is to be made. It has 1 to 64 members and at most 64 non-members.
#[derive(Drop)]
pub struct NewFilegroup {
    pub name: Text,
    pub members: List<Text>,
    pub non_members: List<Text>,
}

/// What a file group gets in place of what it has.
#[derive(Drop)]
pub struct FilegroupChange {
    pub name: Text,
    pub members: Option<List<Text>>,
    pub non_members: Option<List<Text>>,
}

/// What a command on a file group is to do.
#[derive(Drop)]
pub enum FilegroupDeed {
    /// Makes a file group: the names that match one of its members and none of its non-members (MS-FSRM,
    /// IFsrmFileGroup).
    Add(NewFilegroup),
    /// Gives a file group other members, other non-members, or both.
    Modify(FilegroupChange),
    /// Takes a file group away that no screen and no exception names.
    Delete { name: Text },
    /// Lists all file groups.
    List,
}

/// A screen that is to be made. Its groups are named, and one that is named twice is kept once. It has 1 to 16 groups and
/// at most 8 actions.
#[derive(Drop)]
pub struct NewScreen {
    pub path: Path,
    pub active: bool,
    pub groups: List<Text>,
    pub actions: List<Action>,
}

/// What a screen gets in place of what it has. Of its groups some are removed, and then others come. A group that is
/// removed must be the screen's, and named once.
#[derive(Drop)]
pub struct ScreenChange {
    pub path: Path,
    pub active: Option<bool>,
    pub removed: List<Text>,
    pub groups: List<Text>,
}

/// What a command on a screen is to do.
#[derive(Drop)]
pub enum ScreenDeed {
    /// Keeps the names of file groups out of a folder and of all that is below it (MS-FSRM, IFsrmFileScreen). An active
    /// screen blocks them, a passive one reports them. Its folder has no exception.
    Add(NewScreen),
    /// Makes a screen active or passive, or changes its groups. The screen's actions stay.
    Modify(ScreenChange),
    /// Takes a folder's screen away.
    Delete { path: Path },
    /// Lists all screens.
    List,
}

/// An exception that is to be made, for 1 to 16 groups, which are named.
#[derive(Drop)]
pub struct NewException {
    pub path: Path,
    pub groups: List<Text>,
}

/// What a command on an exception from screens is to do.
#[derive(Drop)]
pub enum ExceptionDeed {
    /// Lets the names of file groups pass the screens of the folders above this one, in it and in all that is below it
    /// (MS-FSRM, IFsrmFileScreenException). Its folder has no screen.
    Add(NewException),
    /// Takes a folder's exception away.
    Delete { path: Path },
    /// Lists all exceptions.
    List,
}

/// A report that is to be made once.
#[derive(Drop)]
pub struct NewReport {
    pub kind: ReportKind,
    /// Leads to the folder that it reports on.
    pub scope: Path,
    pub filter: Filter,
}

/// A report job that is to be made. A schedule that isn't given is empty.
#[derive(Drop)]
pub struct NewJob {
    pub name: Text,
    pub kind: ReportKind,
    /// Leads to the folder that its reports are on.
    pub scope: Path,
    pub schedule: Option<Text>,
    pub filter: Filter,
}

/// What a command on reports is to do.
#[derive(Drop)]
pub enum ReportsDeed {
    /// Makes a report, and keeps nothing of it (MS-FSRM, IFsrmReportManager).
    Generate(NewReport),
    /// Makes a report job (MS-FSRM, IFsrmReportManager, CreateReportJob).
    Add(NewJob),
    /// Takes a report job away (MS-FSRM, IFsrmObject, Delete).
    Delete { name: Text },
    /// Makes a job's report. The job's last run is now (MS-FSRM, IFsrmReportJob, Run).
    Run { name: Text },
    /// Lists all report jobs.
    List,
}

/// What a command on the service as a whole is to do.
#[derive(Drop)]
pub enum AdminDeed {
    /// Sets how many minutes pass at least between two runs of an action that has none of its own (MS-FSRM,
    /// IFsrmSetting, SetActionRunLimitInterval).
    Options { run_limit: u32 },
    /// Shows the settings, and how full the store is.
    List,
    /// Lists the log of actions.
    Log,
}

/// What a command is to do. Each command has a field for each of its values and options, if there are more than two in a
/// struct of its own. A field that is None wasn't given; what stands for it then is the command's to say. The families with large deeds are
/// boxed, since these are rare, and the command of each line is moved several times.
#[derive(Drop)]
pub enum Deed {
    File(FileOp),
    /// Sums up what the files at and below a node take.
    Usage { path: Path },
    /// Goes on with the active scan, for at most so many folders: 1 to 1,000,000.
    Step { n: u32 },
    Quota(Boxed<QuotaDeed>),
    Template(Boxed<TemplateDeed>),
    Autoquota(Boxed<AutoquotaDeed>),
    Filegroup(Boxed<FilegroupDeed>),
    Screen(Boxed<ScreenDeed>),
    Exception(Boxed<ExceptionDeed>),
    Reports(Boxed<ReportsDeed>),
    Admin(AdminDeed),
}

/// A command, at its moment.
#[derive(Drop)]
pub struct Command {
    pub moment: u64,
    pub deed: Deed,
}

/// What a journal keeps of a command that lasts. From such entries a store recovers its rows.
#[derive(Drop)]
pub enum Entry {
    /// The command itself, which is done again. It is no step of a scan.
    Order(Command),
    /// A step finished the scan of the folder with this number, at this moment, in seconds since 1970-01-01 00:00:00
    /// UTC. What the scan visited isn't kept, so the folder's quota is counted afresh.
    Finish { moment: u64, folder: u32 },
}

/// What is listed.
#[derive(Clone, Copy, Debug, PartialEq, Eq)]
pub enum Ask {
    /// The quota of a folder, or all quotas.
    Quotas(Option<u32>),
    /// All templates.
    Templates,
    /// All auto-apply quotas.
    Autos,
    /// All file groups.
    Groups,
    /// All screens.
    Screens,
    /// All exceptions.
    Excepts,
    /// All report jobs.
    Jobs,
    /// The run limit, the scans that wait, and how full the store is.
    Settings,
    /// The log of actions.
    Acts,
}

/// What a command comes to.
#[derive(Drop)]
pub enum Outcome {
    /// It was done. `passive` is the folder of a passive screen that reports it.
    Done {
        passive: Option<u32>,
    },
    /// What the files at and below a node take, in bytes.
    Sum {
        node: u32,
        bytes: u64,
    },
    Listing(Ask),
    /// A report is to be shown, of the rows as the command leaves them. It is boxed, since it is rare and large.
    Report(Boxed<ReportAsk>),
    /// How many folders the scan of `folder` visited, and, if it is finished, the bytes that the files at and below
    /// that folder take.
    Scanned {
        folder: u32,
        visited: u32,
        done: Option<u64>,
    },
    Refused(Refusal),
}

/// An outcome, and whether the command lasts: whether a store keeps it.
#[derive(Drop)]
pub struct Answer {
    pub outcome: Outcome,
    pub lasting: bool,
}

/// What an action belongs to.
#[derive(Clone, Copy, Debug, PartialEq, Eq)]
pub enum Subject {
    /// A threshold of the quota on a folder.
    Quota { folder: u32, percent: u16 },
    /// The screen on a folder.
    Screen { folder: u32 },
}

impl Subject {
    /// The folder of the quota or of the screen.
    pub fn folder(self) -> u32
        ensures { result ≡ folder_in self }
    {
        match self {
            Subject::Quota { folder, .. } => folder,
            Subject::Screen { folder } => folder,
        }
    }

    /// The percentage of the quota's threshold. A screen has none: 0.
    pub fn percent(self) -> u16
        ensures { result ≡ percent_in self }
    {
        match self {
            Subject::Quota { percent, .. } => percent,
            Subject::Screen { .. } => 0,
        }
    }
}

/// An action that runs.
#[derive(Clone, Copy, Debug, PartialEq, Eq)]
pub struct Act {
    pub subject: Subject,
    /// The action's place in its list, from 0.
    pub place: u16,
    pub kind: ActionKind,
}
