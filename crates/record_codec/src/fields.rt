//! Kinds of fields that lists and optional values are of.

ghost use Rattle.std.specs.Prelude.{◌≡◌, ℕ, Bool, List as Items};
ghost use Rattle.fsrm_model.specs.objects.Jobs.{is_schedule};
ghost use Rattle.fsrm_model.specs.objects.Thresholds.{is_action_text};
ghost use Rattle.fsrm_model.specs.values.Name.{is_name};
ghost use Rattle.fsrm_model.specs.values.Patterns.{is_object_name, is_pattern};
ghost use Rattle.record_fields.specs.Formats.{tested, text as text_format};
ghost use Rattle.record_codec.specs.Fields.{members, non_members, excluded_names};

use fsrm_base::{List, Text};
use fsrm_model::limits::{MOST_EXCLUDED, MOST_PATTERNS};
use name_patterns::is_pattern;
use name_rules::is_name;
use record_fields::{Field, FieldFault, Flaw, Reader, put_short_list, put_text, read_short_list};
use std::alloc::Global;
use std::marker::PhantomData;
use text_rules::{is_action_text, is_object_name, is_schedule};

/// A rule that some texts meet.
pub trait TextRule {
    ghost meets: { Items ℕ → Bool };

    /// Whether a text meets it.
    fn is_met(text: &str) -> bool
        ensures { result ≡ meets text.now };
}

/// A text that meets a rule.
pub struct RuledTextField<R: TextRule> {
    rule: PhantomData<R>,
}

impl<R: TextRule> Field for RuledTextField<R> {
    type Value = Text;

    ghost format = { tested R.meets text_format };

    #[tactic(auto, unfolding(record_fields::specs::Formats::known_at))]
    fn read(alloc: Global, reader: &mut Reader<'_>) -> Result<Text, FieldFault> {
        let left = reader.left();
        let text = reader.read_text()?;
        if !R::is_met(text) {
            return Err(FieldFault::Flawed(Flaw::Illegal { left }));
        }
        Ok(Text::from_str(alloc, text)?)
    }

    fn write(value: &Text, into: &mut [u8], at: usize) -> usize {
        put_text(into, at, value.as_str())
    }
}

/// What the name of a template, a file group or a report job meets.
pub struct ObjectNameRule;

impl TextRule for ObjectNameRule {
    ghost meets = { is_object_name };

    fn is_met(text: &str) -> bool {
        is_object_name(text)
    }
}

/// The name of a template, a file group or a report job.
pub type ObjectNameField = RuledTextField<ObjectNameRule>;

/// What the name of a node meets.
pub struct NameRule;

impl TextRule for NameRule {
    ghost meets = { is_name };

    fn is_met(text: &str) -> bool {
        is_name(text)
    }
}

/// The name of a node.
pub type NameField = RuledTextField<NameRule>;

/// What a pattern of names meets.
pub struct PatternRule;

impl TextRule for PatternRule {
    ghost meets = { is_pattern };

    fn is_met(text: &str) -> bool {
        is_pattern(text)
    }
}

/// A pattern of names.
pub type PatternField = RuledTextField<PatternRule>;

/// What the text of an action meets.
pub struct ActionTextRule;

impl TextRule for ActionTextRule {
    ghost meets = { is_action_text };

    fn is_met(text: &str) -> bool {
        is_action_text(text)
    }
}

/// The text of an action.
pub type ActionTextField = RuledTextField<ActionTextRule>;

/// What the schedule of a report job meets.
pub struct ScheduleRule;

impl TextRule for ScheduleRule {
    ghost meets = { is_schedule };

    fn is_met(text: &str) -> bool {
        is_schedule(text)
    }
}

/// The schedule of a report job.
pub type ScheduleField = RuledTextField<ScheduleRule>;

/// The members of a file group: 1 to 64 patterns.
pub struct MembersField;

impl Field for MembersField {
    type Value = List<Text>;

    ghost format = { members };

    fn read(alloc: Global, reader: &mut Reader<'_>) -> Result<List<Text>, FieldFault> {
        read_short_list::<PatternField>(alloc, reader, 1, MOST_PATTERNS as u16)
    }

    fn write(value: &List<Text>, into: &mut [u8], at: usize) -> usize {
        put_short_list::<PatternField>(value, into, at)
    }
}

/// The non-members of a file group: at most 64 patterns.
pub struct NonMembersField;

impl Field for NonMembersField {
    type Value = List<Text>;

    ghost format = { non_members };

    fn read(alloc: Global, reader: &mut Reader<'_>) -> Result<List<Text>, FieldFault> {
        read_short_list::<PatternField>(alloc, reader, 0, MOST_PATTERNS as u16)
    }

    fn write(value: &List<Text>, into: &mut [u8], at: usize) -> usize {
        put_short_list::<PatternField>(value, into, at)
    }
}

/// The names that an auto-apply quota excludes: at most 32.
pub struct ExcludedField;

impl Field for ExcludedField {
    type Value = List<Text>;

    ghost format = { excluded_names };

    fn read(alloc: Global, reader: &mut Reader<'_>) -> Result<List<Text>, FieldFault> {
        read_short_list::<NameField>(alloc, reader, 0, MOST_EXCLUDED as u16)
    }

    fn write(value: &List<Text>, into: &mut [u8], at: usize) -> usize {
        put_short_list::<NameField>(value, into, at)
    }
}
