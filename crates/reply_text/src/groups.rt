//! Writes the list of file groups, and the names of groups in other lists.

ghost use Rattle.std.specs.Prelude.{◌≡◌, flat_map, true};
ghost use Rattle.std.specs.List.{list_all};
ghost use Rattle.fsrm_base.specs.Keyed.{has_row};
ghost use Rattle.fsrm_model.specs.declared.command.Ask.TheVariants.{Groups as TheGroups};
ghost use Rattle.fsrm_model.specs.values.Patterns.{group_number};
ghost use Rattle.fsrm_model.specs.texts.Text.{list_lines};
ghost use Rattle.reply_text.specs.Lines.{group_text, named_text};
ghost use Rattle.line_parts.specs.Writes.{Writes};

use crate::lines::{write_each_labelled, write_labelled, write_word};
use file_groups::Groups;
use fsrm_engine::Engine;
use fsrm_model::GroupRow;
use fsrm_outside::Sink;
use line_parts::TextFault;

// Writes the lines of a group: its name, and its patterns.
fn write_group<S: Sink>(sink: &mut S, group: &GroupRow) -> Result<(), TextFault>
    ensures writes { Writes S.Sink result sink.old sink.new (group_text group.now) }
{
    write_word(sink, group.name.as_str())?;
    write_each_labelled(sink, b"member", group.members.as_slice())?;
    write_each_labelled(sink, b"nonmember", group.non_members.as_slice())
}

/// Writes the lines of all groups.
pub fn write_groups<S: Sink>(sink: &mut S, engine: &Engine) -> Result<(), TextFault>
    ensures writes { Writes S.Sink result sink.old sink.new (list_lines engine.now.size engine.now.rows TheGroups) }
{
    let groups = engine.groups();
    for place in 0..groups.count() {
        write_group(sink, groups.at(place))?;
    }
    Ok(())
}

/// Writes the lines of the groups of these numbers, each of which is there.
pub fn write_names<S: Sink>(sink: &mut S, groups: &Groups, numbers: &[u32]) -> Result<(), TextFault>
    requires { list_all (λ number. has_row group_number number groups.now) numbers.now ≡ true }
    ensures writes { Writes S.Sink result sink.old sink.new (flat_map (named_text groups.now) numbers.now) }
{
    for number in numbers {
        write_labelled(sink, b"group", &groups.group(*number).name)?;
    }
    Ok(())
}
