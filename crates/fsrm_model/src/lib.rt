//! What every part of the file server resource manager speaks of: the rows that a store holds, commands and their
//! outcomes, and, in `specs/`, the plain machine.
//!
//! The definitions compute: worked scripts are theorems. `laws` has functions whose contracts are the laws of the
//! definitions, so that the gate proves them.
#![tactic(auto)]

pub mod boxed;
pub mod command;
pub mod copies;
pub mod laws;
pub mod limits;
pub mod path;
pub mod report;
pub mod row;
pub mod space;

pub use boxed::Boxed;
pub use command::{
    Act, Added, AdminDeed, Answer, Ask, AutoquotaDeed, Command, Deed, Entry, ExceptionDeed, FileOp,
    FilegroupChange, FilegroupDeed, NewAutoquota, NewException, NewFilegroup, NewJob, NewQuota,
    NewReport, NewScreen, NewTemplate, NewThresholds, Outcome, QuotaChange, QuotaDeed, Refusal,
    ReportsDeed, ScreenChange, ScreenDeed, Subject, TemplateChange, TemplateDeed, Update,
};
pub use fsrm_base::{Duplicate, Ledger, List, NoMemory, Steps, Text, Weightless, WeightlessPage};
pub use path::{Names, Path};
pub use report::{FileList, Report, ReportAsk, ReportRow, Sums, Table};
pub use row::{
    ActRow, Action, ActionKind, AuditRow, AutoRow, Capacity, ExceptRow, Filter, GroupRow, JobRow,
    NodeRow, QuotaRow, QuotaState, ReportKind, Rows, ScreenRow, TemplateRow, Threshold,
};
pub use space::allocated;
