//! The commands on file groups, each read from the options after its name.

ghost use Rattle.fsrm_model.specs.declared.command.Deed.TheVariants.{Filegroup};
ghost use Rattle.fsrm_model.specs.lines.Line.{option_words, named_word};
ghost use Rattle.fsrm_model.specs.lines.Tools.{group_add, group_commands, group_delete, group_modify};
ghost use Rattle.command_words.specs.Taking.{left, end};
ghost use Rattle.tool_commands.specs.LineFaults.{ReadsIn};

use crate::keys;
use command_words::{LineFault, Words, is_named, read_options, required};
use fsrm_model::{FilegroupChange, FilegroupDeed, List, NewFilegroup};
use std::alloc::Global;

fn add(alloc: Global, words: &mut Words<'_>) -> Result<FilegroupDeed, LineFault>
    ensures { ReadsIn (λ deed. Filegroup deed) result (option_words group_add (end words.old) (left words.old)) }
{
    let options = (keys::FILEGROUP, (keys::MEMBERS, keys::NON_MEMBERS));
    let (name, (members, non_members)) = read_options(alloc, options, words)?;
    let name = required(name, words)?;
    let members = required(members, words)?;
    Ok(FilegroupDeed::Add(NewFilegroup {
        name,
        members,
        non_members: non_members.unwrap_or(List::new(alloc)),
    }))
}

fn modify(alloc: Global, words: &mut Words<'_>) -> Result<FilegroupDeed, LineFault>
    ensures { ReadsIn (λ deed. Filegroup deed) result (option_words group_modify (end words.old) (left words.old)) }
{
    let options = (keys::FILEGROUP, (keys::MEMBERS, keys::NON_MEMBERS));
    let (name, (members, non_members)) = read_options(alloc, options, words)?;
    let name = required(name, words)?;
    Ok(FilegroupDeed::Modify(FilegroupChange {
        name,
        members,
        non_members,
    }))
}

fn delete(alloc: Global, words: &mut Words<'_>) -> Result<FilegroupDeed, LineFault>
    ensures { ReadsIn (λ deed. Filegroup deed) result (option_words group_delete (end words.old) (left words.old)) }
{
    let name = read_options(alloc, keys::FILEGROUP, words)?;
    let name = required(name, words)?;
    Ok(FilegroupDeed::Delete { name })
}

/// What the words after `filescrn filegroup` spell.
pub fn filegroup(alloc: Global, words: &mut Words<'_>) -> Result<FilegroupDeed, LineFault>
    ensures { ReadsIn (λ deed. Filegroup deed) result (named_word group_commands (end words.old) (left words.old) (λ command more. option_words command (end words.old) more)) }
{
    let name = words.next(alloc)?;
    let word = name.text.as_str();
    if is_named("add", word) {
        return add(alloc, words);
    }
    if is_named("modify", word) {
        return modify(alloc, words);
    }
    if is_named("delete", word) {
        return delete(alloc, words);
    }
    if is_named("list", word) {
        words.finish()?;
        return Ok(FilegroupDeed::List);
    }
    Err(LineFault::bad_line(name.column))
}
