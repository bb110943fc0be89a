//! The commands on screens, each read from the options after its name.

ghost use Rattle.fsrm_model.specs.declared.command.Deed.TheVariants.{Screen};
ghost use Rattle.fsrm_model.specs.lines.Line.{option_words, named_word};
ghost use Rattle.fsrm_model.specs.lines.Tools.{screen_add, screen_commands, screen_modify};
ghost use Rattle.command_words.specs.Taking.{left, end};
ghost use Rattle.tool_commands.specs.LineFaults.{ReadsIn};

use crate::keys;
use crate::paths::path_alone;
use command_words::{LineFault, Words, is_named, read_options, required};
use fsrm_model::{NewScreen, ScreenChange, ScreenDeed};
use std::alloc::Global;

fn add(alloc: Global, words: &mut Words<'_>) -> Result<ScreenDeed, LineFault>
    ensures { ReadsIn (λ deed. Screen deed) result (option_words screen_add (end words.old) (left words.old)) }
{
    let options = (
        keys::PATH,
        (
            keys::SCREEN_TYPE,
            (keys::ADD_FILEGROUP, keys::SCREEN_NOTIFICATION),
        ),
    );
    let (path, (active, (groups, actions))) = read_options(alloc, options, words)?;
    let path = required(path, words)?;
    if groups.is_empty() {
        return Err(LineFault::bad_line(words.end()));
    }
    Ok(ScreenDeed::Add(NewScreen {
        path,
        active: active.unwrap_or(true),
        groups,
        actions,
    }))
}

fn modify(alloc: Global, words: &mut Words<'_>) -> Result<ScreenDeed, LineFault>
    ensures { ReadsIn (λ deed. Screen deed) result (option_words screen_modify (end words.old) (left words.old)) }
{
    let options = (
        keys::PATH,
        (
            keys::SCREEN_TYPE,
            (keys::REMOVE_FILEGROUP, keys::ADD_FILEGROUP),
        ),
    );
    let (path, (active, (removed, groups))) = read_options(alloc, options, words)?;
    let path = required(path, words)?;
    Ok(ScreenDeed::Modify(ScreenChange {
        path,
        active,
        removed,
        groups,
    }))
}

/// What the words after `filescrn screen` spell.
pub fn screen(alloc: Global, words: &mut Words<'_>) -> Result<ScreenDeed, LineFault>
    ensures { ReadsIn (λ deed. Screen deed) result (named_word screen_commands (end words.old) (left words.old) (λ command more. option_words command (end words.old) more)) }
{
    let name = words.next(alloc)?;
    let word = name.text.as_str();
    if is_named("add", word) {
        return add(alloc, words);
    }
    if is_named("modify", word) {
        return modify(alloc, words);
    }
    if is_named("delete", word) {
        let path = path_alone(alloc, words)?;
        return Ok(ScreenDeed::Delete { path });
    }
    if is_named("list", word) {
        words.finish()?;
        return Ok(ScreenDeed::List);
    }
    Err(LineFault::bad_line(name.column))
}
