//! The commands on templates, each read from the options after its name.

ghost use Rattle.fsrm_model.specs.declared.command.Deed.TheVariants.{Template};
ghost use Rattle.fsrm_model.specs.lines.Line.{option_words, named_word};
ghost use Rattle.fsrm_model.specs.lines.Tools.{template_add, template_modify, template_delete, template_commands};
ghost use Rattle.command_words.specs.Taking.{left, end};
ghost use Rattle.tool_commands.specs.LineFaults.{ReadsIn};

use crate::keys;
use command_words::{LineFault, Words, is_named, read_options, required};
use fsrm_model::{NewTemplate, NewThresholds, TemplateChange, TemplateDeed, Update};
use std::alloc::Global;

fn add(alloc: Global, words: &mut Words<'_>) -> Result<TemplateDeed, LineFault>
    ensures { ReadsIn (λ deed. Template deed) result (option_words template_add (end words.old) (left words.old)) }
{
    let thresholds = (keys::ADD_THRESHOLD, keys::ADD_NOTIFICATION);
    let options = (
        (keys::TEMPLATE, keys::LIMIT),
        (keys::QUOTA_TYPE, thresholds),
    );
    let ((name, limit), (enforce, thresholds)) = read_options(alloc, options, words)?;
    let (percents, notices) = thresholds;
    let name = required(name, words)?;
    let limit = required(limit, words)?;
    let thresholds = NewThresholds { percents, notices };
    Ok(TemplateDeed::Add(NewTemplate {
        name,
        limit,
        enforce: enforce.unwrap_or(true),
        thresholds,
    }))
}

fn modify(alloc: Global, words: &mut Words<'_>) -> Result<TemplateDeed, LineFault>
    ensures { ReadsIn (λ deed. Template deed) result (option_words template_modify (end words.old) (left words.old)) }
{
    let thresholds = (
        keys::REMOVE_THRESHOLD,
        (keys::ADD_THRESHOLD, keys::ADD_NOTIFICATION),
    );
    let options = (
        (keys::TEMPLATE, keys::LIMIT),
        (keys::QUOTA_TYPE, (thresholds, keys::UPDATE_DERIVED)),
    );
    let ((name, limit), (enforce, (thresholds, update))) = read_options(alloc, options, words)?;
    let (removed, (percents, notices)) = thresholds;
    let name = required(name, words)?;
    let thresholds = NewThresholds { percents, notices };
    Ok(TemplateDeed::Modify(TemplateChange {
        name,
        limit,
        enforce,
        removed,
        thresholds,
        update: update.unwrap_or(Update::Keep),
    }))
}

fn delete(alloc: Global, words: &mut Words<'_>) -> Result<TemplateDeed, LineFault>
    ensures { ReadsIn (λ deed. Template deed) result (option_words template_delete (end words.old) (left words.old)) }
{
    let name = read_options(alloc, keys::TEMPLATE, words)?;
    let name = required(name, words)?;
    Ok(TemplateDeed::Delete { name })
}

/// What the words after `dirquota template` spell.
pub fn template(alloc: Global, words: &mut Words<'_>) -> Result<TemplateDeed, LineFault>
    ensures { ReadsIn (λ deed. Template deed) result (named_word template_commands (end words.old) (left words.old) (λ command more. option_words command (end words.old) more)) }
{
    let name = words.next(alloc)?;
    let word = name.text.as_str();
    if is_named("add", word) {
        return add(alloc, words);
    }
    if is_named("modify", word) {
        return modify(alloc, words);
    }
    if is_named("delete", word) {
        return delete(alloc, words);
    }
    if is_named("list", word) {
        words.finish()?;
        return Ok(TemplateDeed::List);
    }
    Err(LineFault::bad_line(name.column))
}
