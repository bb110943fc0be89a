//! The commands on the settings of the service and on the log of actions, each read from the options after its name.

ghost use Rattle.fsrm_model.specs.lines.Line.{option_words, named_word};
ghost use Rattle.fsrm_model.specs.lines.Tools.{admin_commands, admin_options};
ghost use Rattle.command_words.specs.LineFaults.{Reads};
ghost use Rattle.command_words.specs.Taking.{left, end};

use crate::keys;
use command_words::{LineFault, Words, is_named, read_options, required};
use fsrm_model::{AdminDeed, Deed};
use std::alloc::Global;

fn options(alloc: Global, words: &mut Words<'_>) -> Result<Deed, LineFault>
    ensures { Reads result (option_words admin_options (end words.old) (left words.old)) }
{
    let run_limit = read_options(alloc, keys::RUN_LIMIT, words)?;
    let run_limit = required(run_limit, words)?;
    Ok(Deed::Admin(AdminDeed::Options { run_limit }))
}

/// What the words after `dirquota admin` spell.
pub fn admin(alloc: Global, words: &mut Words<'_>) -> Result<Deed, LineFault>
    ensures { Reads result (named_word admin_commands (end words.old) (left words.old) (λ command more. option_words command (end words.old) more)) }
{
    let name = words.next(alloc)?;
    let word = name.text.as_str();
    if is_named("options", word) {
        return options(alloc, words);
    }
    if is_named("list", word) {
        words.finish()?;
        return Ok(Deed::Admin(AdminDeed::List));
    }
    if is_named("log", word) {
        words.finish()?;
        return Ok(Deed::Admin(AdminDeed::Log));
    }
    Err(LineFault::bad_line(name.column))
}
