//! The rules of the texts that objects have: the names of templates, of file groups and of report jobs, the texts of
//! actions, and the schedules of report jobs.
//!
//! `is_object_name`, `is_action_text` and `is_schedule` are those of the definitions. Words of a line are judged by them,
//! and fields of a record.
#![tactic(auto)]

ghost use Rattle.std.specs.Prelude.{◌≡◌};
ghost use Rattle.std.specs.List.{list_all};
ghost use Rattle.fsrm_model.specs.objects.Jobs.{is_schedule};
ghost use Rattle.fsrm_model.specs.objects.Thresholds.{is_action_text, is_printing};
ghost use Rattle.fsrm_model.specs.values.Patterns.{is_object_byte, is_object_name};

use fsrm_model::limits::{LONGEST_ACTION_TEXT, LONGEST_SCHEDULE};
use name_rules::is_name_length;

/// Whether a text is the name of a file group, a template or a report job: 1 to 255 bytes, no `|` and no control character.
pub fn is_object_name(text: &str) -> bool
    ensures { result ≡ is_object_name text.now }
{
    is_name_length(text.len()) && are_object_bytes(text.as_bytes())
}

fn are_object_bytes(bytes: &[u8]) -> bool
    ensures { result ≡ list_all is_object_byte bytes.now }
{
    bytes.iter().all(|byte| is_object_byte(*byte))
}

fn is_object_byte(byte: u8) -> bool
    ensures { result ≡ is_object_byte byte }
{
    is_printing(byte) && byte != b'|'
}

/// Whether a text is that of an action: at most 1,024 bytes, no control character.
pub fn is_action_text(text: &str) -> bool
    ensures { result ≡ is_action_text text.now }
{
    text.len() <= LONGEST_ACTION_TEXT && are_printing(text.as_bytes())
}

/// Whether a text may be the schedule of a report job: at most 200 bytes, no control character. Whether it tells of
/// moments is another question.
pub fn is_schedule(text: &str) -> bool
    ensures { result ≡ is_schedule text.now }
{
    text.len() <= LONGEST_SCHEDULE && are_printing(text.as_bytes())
}

fn are_printing(bytes: &[u8]) -> bool
    ensures { result ≡ list_all is_printing bytes.now }
{
    bytes.iter().all(|byte| is_printing(*byte))
}

// Whether a byte is no control character.
fn is_printing(byte: u8) -> bool
    ensures { result ≡ is_printing byte }
{
    byte >= 32 && byte != 127
}
