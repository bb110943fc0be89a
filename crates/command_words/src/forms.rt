//! The forms of the values that options have, each with the reader of its values.

ghost use Rattle.fsrm_model.specs.lines.ValueForms.{PathForm, LimitForm, NumberForm, ChoiceForm, UpdateForm, ObjectForm, NameForm, MembersForm, NonMembersForm, NoticeForm, ActionForm, ReportForm, PatternForm, ScheduleForm, path_of, number_of, choice_of, update_of, text_of, texts_of, notice_of, action_of, report_of};
ghost use Rattle.fsrm_model.specs.values.Limits.{greatest_percent, longest_file, most_minutes};

use crate::actions::{read_notice, read_percent, read_run_limit, read_screen_action};
use crate::fault::LineFault;
use crate::limits::read_limit;
use crate::options::Form;
use crate::patterns::{read_non_members, read_pattern, read_patterns};
use crate::report_words::{read_report, read_schedule};
use crate::values::{
    read_choice, read_length, read_name, read_object_name, read_path_word, read_small, read_update,
};
use fsrm_model::{Action, Added, List, Path, ReportKind, Text, Update};
use std::alloc::Global;

/// A path from the volume on.
#[derive(Clone, Copy)]
pub struct AbsolutePath;

impl Form for AbsolutePath {
    type Value = Path;

    ghost form = { λ _. PathForm };

    ghost of = { path_of };

    fn read(self, alloc: Global, _column: u32, text: &str) -> Result<Path, LineFault> {
        read_path_word(alloc, text)
    }
}

/// A limit, in bytes.
#[derive(Clone, Copy)]
pub struct Limit;

impl Form for Limit {
    type Value = u64;

    ghost form = { λ _. LimitForm };

    ghost of = { number_of };

    fn read(self, _alloc: Global, column: u32, text: &str) -> Result<u64, LineFault> {
        read_limit(text, column)
    }
}

/// A percentage of a limit.
#[derive(Clone, Copy)]
pub struct Percent;

impl Form for Percent {
    type Value = u16;

    ghost form = { λ _. NumberForm 1 greatest_percent };

    ghost of = { number_of };

    fn read(self, _alloc: Global, column: u32, text: &str) -> Result<u16, LineFault> {
        read_percent(text, column)
    }
}

/// A run limit, in minutes.
#[derive(Clone, Copy)]
pub struct RunLimit;

impl Form for RunLimit {
    type Value = u32;

    ghost form = { λ _. NumberForm 0 most_minutes };

    ghost of = { number_of };

    fn read(self, _alloc: Global, column: u32, text: &str) -> Result<u32, LineFault> {
        read_run_limit(text, column)
    }
}

/// One of two words, in letters of either case. Its value is whether it is the first.
#[derive(Clone, Copy)]
pub struct Choice {
    pub first: &'static str,
    pub second: &'static str,
}

impl Form for Choice {
    type Value = bool;

    ghost form = { λ choice. ChoiceForm choice.first.now choice.second.now };

    ghost of = { choice_of };

    fn read(self, _alloc: Global, column: u32, text: &str) -> Result<bool, LineFault> {
        read_choice(self.first, self.second, text, column)
    }
}

/// Which derived quotas a change reaches.
#[derive(Clone, Copy)]
pub struct UpdateMode;

impl Form for UpdateMode {
    type Value = Update;

    ghost form = { λ _. UpdateForm };

    ghost of = { update_of };

    fn read(self, _alloc: Global, column: u32, text: &str) -> Result<Update, LineFault> {
        read_update(text, column)
    }
}

/// The name of a file group, a template or a report job.
#[derive(Clone, Copy)]
pub struct ObjectName;

impl Form for ObjectName {
    type Value = Text;

    ghost form = { λ _. ObjectForm };

    ghost of = { text_of };

    fn read(self, alloc: Global, _column: u32, text: &str) -> Result<Text, LineFault> {
        read_object_name(alloc, text)
    }
}

/// The name of a folder.
#[derive(Clone, Copy)]
pub struct FolderName;

impl Form for FolderName {
    type Value = Text;

    ghost form = { λ _. NameForm };

    ghost of = { text_of };

    fn read(self, alloc: Global, _column: u32, text: &str) -> Result<Text, LineFault> {
        read_name(alloc, text)
    }
}

/// The members of a file group: patterns, one at least.
#[derive(Clone, Copy)]
pub struct Members;

impl Form for Members {
    type Value = List<Text>;

    ghost form = { λ _. MembersForm };

    ghost of = { texts_of };

    fn read(self, alloc: Global, _column: u32, text: &str) -> Result<List<Text>, LineFault> {
        read_patterns(alloc, text)
    }
}

/// The non-members of a file group: patterns, or none.
#[derive(Clone, Copy)]
pub struct NonMembers;

impl Form for NonMembers {
    type Value = List<Text>;

    ghost form = { λ _. NonMembersForm };

    ghost of = { texts_of };

    fn read(self, alloc: Global, _column: u32, text: &str) -> Result<List<Text>, LineFault> {
        read_non_members(alloc, text)
    }
}

/// A threshold with an action.
#[derive(Clone, Copy)]
pub struct Notice;

impl Form for Notice {
    type Value = Added;

    ghost form = { λ _. NoticeForm };

    ghost of = { notice_of };

    fn read(self, alloc: Global, column: u32, text: &str) -> Result<Added, LineFault> {
        read_notice(alloc, text, column)
    }
}

/// An action of a screen.
#[derive(Clone, Copy)]
pub struct ScreenAction;

impl Form for ScreenAction {
    type Value = Action;

    ghost form = { λ _. ActionForm };

    ghost of = { action_of };

    fn read(self, alloc: Global, column: u32, text: &str) -> Result<Action, LineFault> {
        read_screen_action(alloc, text, column)
    }
}

/// A number of up to 32 bits, from one to another.
#[derive(Clone, Copy)]
pub struct Number {
    pub least: u32,
    pub greatest: u32,
}

impl Form for Number {
    type Value = u32;

    ghost form = { λ number. NumberForm number.least number.greatest };

    ghost of = { number_of };

    fn read(self, _alloc: Global, column: u32, text: &str) -> Result<u32, LineFault> {
        read_small(text, column, self.least, self.greatest)
    }
}

/// A file's length, in bytes.
#[derive(Clone, Copy)]
pub struct FileLength;

impl Form for FileLength {
    type Value = u64;

    ghost form = { λ _. NumberForm 0 longest_file };

    ghost of = { number_of };

    fn read(self, _alloc: Global, column: u32, text: &str) -> Result<u64, LineFault> {
        read_length(text, column)
    }
}

/// What a report is about.
#[derive(Clone, Copy)]
pub struct ReportName;

impl Form for ReportName {
    type Value = ReportKind;

    ghost form = { λ _. ReportForm };

    ghost of = { report_of };

    fn read(self, _alloc: Global, column: u32, text: &str) -> Result<ReportKind, LineFault> {
        read_report(text, column)
    }
}

/// A pattern of names.
#[derive(Clone, Copy)]
pub struct Pattern;

impl Form for Pattern {
    type Value = Text;

    ghost form = { λ _. PatternForm };

    ghost of = { text_of };

    fn read(self, alloc: Global, _column: u32, text: &str) -> Result<Text, LineFault> {
        read_pattern(alloc, text)
    }
}

/// The schedule of a report job.
#[derive(Clone, Copy)]
pub struct Schedule;

impl Form for Schedule {
    type Value = Text;

    ghost form = { λ _. ScheduleForm };

    ghost of = { text_of };

    fn read(self, alloc: Global, _column: u32, text: &str) -> Result<Text, LineFault> {
        read_schedule(alloc, text)
    }
}
