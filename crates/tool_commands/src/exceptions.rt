//! The commands on exceptions, each read from the options after its name.

ghost use Rattle.fsrm_model.specs.declared.command.Deed.TheVariants.{Exception};
ghost use Rattle.fsrm_model.specs.lines.Line.{option_words, named_word};
ghost use Rattle.fsrm_model.specs.lines.Tools.{except_add, except_commands};
ghost use Rattle.command_words.specs.Taking.{left, end};
ghost use Rattle.tool_commands.specs.LineFaults.{ReadsIn};

use crate::keys;
use crate::paths::path_alone;
use command_words::{LineFault, Words, is_named, read_options, required};
use fsrm_model::{ExceptionDeed, NewException};
use std::alloc::Global;

fn add(alloc: Global, words: &mut Words<'_>) -> Result<ExceptionDeed, LineFault>
    ensures { ReadsIn (λ deed. Exception deed) result (option_words except_add (end words.old) (left words.old)) }
{
    let (path, groups) = read_options(alloc, (keys::PATH, keys::ADD_FILEGROUP), words)?;
    let path = required(path, words)?;
    if groups.is_empty() {
        return Err(LineFault::bad_line(words.end()));
    }
    Ok(ExceptionDeed::Add(NewException { path, groups }))
}

/// What the words after `filescrn exception` spell.
pub fn exception(alloc: Global, words: &mut Words<'_>) -> Result<ExceptionDeed, LineFault>
    ensures { ReadsIn (λ deed. Exception deed) result (named_word except_commands (end words.old) (left words.old) (λ command more. option_words command (end words.old) more)) }
{
    let name = words.next(alloc)?;
    let word = name.text.as_str();
    if is_named("add", word) {
        return add(alloc, words);
    }
    if is_named("delete", word) {
        let path = path_alone(alloc, words)?;
        return Ok(ExceptionDeed::Delete { path });
    }
    if is_named("list", word) {
        words.finish()?;
        return Ok(ExceptionDeed::List);
    }
    Err(LineFault::bad_line(name.column))
}
