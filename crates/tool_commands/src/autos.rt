//! The commands on auto-apply quotas, each read from the options after its name.

ghost use Rattle.fsrm_model.specs.declared.command.Deed.TheVariants.{Autoquota};
ghost use Rattle.fsrm_model.specs.lines.Line.{option_words, named_word};
ghost use Rattle.fsrm_model.specs.lines.Tools.{auto_add, auto_commands};
ghost use Rattle.command_words.specs.Taking.{left, end};
ghost use Rattle.tool_commands.specs.LineFaults.{ReadsIn};

use crate::keys;
use crate::paths::path_alone;
use command_words::{LineFault, Words, is_named, read_options, required};
use fsrm_model::{AutoquotaDeed, NewAutoquota};
use std::alloc::Global;

fn add(alloc: Global, words: &mut Words<'_>) -> Result<AutoquotaDeed, LineFault>
    ensures { ReadsIn (λ deed. Autoquota deed) result (option_words auto_add (end words.old) (left words.old)) }
{
    let options = (keys::PATH, (keys::SOURCE_TEMPLATE, keys::EXCLUDE));
    let (path, (template, excluded)) = read_options(alloc, options, words)?;
    let path = required(path, words)?;
    let template = required(template, words)?;
    Ok(AutoquotaDeed::Add(NewAutoquota {
        path,
        template,
        excluded,
    }))
}

/// What the words after `dirquota autoquota` spell.
pub fn autoquota(alloc: Global, words: &mut Words<'_>) -> Result<AutoquotaDeed, LineFault>
    ensures { ReadsIn (λ deed. Autoquota deed) result (named_word auto_commands (end words.old) (left words.old) (λ command more. option_words command (end words.old) more)) }
{
    let name = words.next(alloc)?;
    let word = name.text.as_str();
    if is_named("add", word) {
        return add(alloc, words);
    }
    if is_named("delete", word) {
        let path = path_alone(alloc, words)?;
        return Ok(AutoquotaDeed::Delete { path });
    }
    if is_named("list", word) {
        words.finish()?;
        return Ok(AutoquotaDeed::List);
    }
    Err(LineFault::bad_line(name.column))
}
