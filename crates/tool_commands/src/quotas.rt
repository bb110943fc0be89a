//! The commands on quotas, each read from the options after its name.

ghost use Rattle.std.specs.Prelude.{◌≡◌, ◌||◌, is_some};
ghost use Rattle.fsrm_model.specs.declared.command.Deed.TheVariants.{Quota};
ghost use Rattle.fsrm_model.specs.lines.Line.{option_words, named_word};
ghost use Rattle.fsrm_model.specs.lines.Tools.{quota_add, quota_modify, quota_list, quota_commands};
ghost use Rattle.command_words.specs.Taking.{left, end};
ghost use Rattle.tool_commands.specs.LineFaults.{ReadsIn};

use crate::keys;
use crate::paths::path_alone;
use command_words::{LineFault, Words, is_named, read_options, required};
use fsrm_model::{NewQuota, NewThresholds, QuotaChange, QuotaDeed, Text};
use std::alloc::Global;

// Whether a new quota has a limit, of its own or its template's.
fn has_limit(limit: &Option<u64>, template: &Option<Text>) -> bool
    ensures { result ≡ (is_some limit.now || is_some template.now) }
{
    limit.is_some() || template.is_some()
}

fn add(alloc: Global, words: &mut Words<'_>) -> Result<QuotaDeed, LineFault>
    ensures { ReadsIn (λ deed. Quota deed) result (option_words quota_add (end words.old) (left words.old)) }
{
    let kind = (keys::QUOTA_TYPE, keys::STATUS);
    let thresholds = (keys::ADD_THRESHOLD, keys::ADD_NOTIFICATION);
    let options = (
        (keys::PATH, keys::LIMIT),
        (kind, (keys::SOURCE_TEMPLATE, thresholds)),
    );
    let ((path, limit), (kind, (template, thresholds))) = read_options(alloc, options, words)?;
    let (enforce, enabled) = kind;
    let (percents, notices) = thresholds;
    let path = required(path, words)?;
    if !has_limit(&limit, &template) {
        return Err(LineFault::bad_line(words.end()));
    }
    let thresholds = NewThresholds { percents, notices };
    Ok(QuotaDeed::Add(NewQuota {
        path,
        limit,
        enforce,
        enabled: enabled.unwrap_or(true),
        template,
        thresholds,
    }))
}

fn modify(alloc: Global, words: &mut Words<'_>) -> Result<QuotaDeed, LineFault>
    ensures { ReadsIn (λ deed. Quota deed) result (option_words quota_modify (end words.old) (left words.old)) }
{
    let kind = (keys::QUOTA_TYPE, keys::STATUS);
    let thresholds = (keys::ADD_THRESHOLD, keys::ADD_NOTIFICATION);
    let options = (
        (keys::PATH, keys::LIMIT),
        (kind, (keys::REMOVE_THRESHOLD, thresholds)),
    );
    let ((path, limit), (kind, (removed, thresholds))) = read_options(alloc, options, words)?;
    let (enforce, enabled) = kind;
    let (percents, notices) = thresholds;
    let path = required(path, words)?;
    let thresholds = NewThresholds { percents, notices };
    Ok(QuotaDeed::Modify(QuotaChange {
        path,
        limit,
        enforce,
        enabled,
        removed,
        thresholds,
    }))
}

fn list(alloc: Global, words: &mut Words<'_>) -> Result<QuotaDeed, LineFault>
    ensures { ReadsIn (λ deed. Quota deed) result (option_words quota_list (end words.old) (left words.old)) }
{
    let path = read_options(alloc, keys::PATH, words)?;
    Ok(QuotaDeed::List { path })
}

/// What the words after `dirquota quota` spell.
pub fn quota(alloc: Global, words: &mut Words<'_>) -> Result<QuotaDeed, LineFault>
    ensures { ReadsIn (λ deed. Quota deed) result (named_word quota_commands (end words.old) (left words.old) (λ command more. option_words command (end words.old) more)) }
{
    let name = words.next(alloc)?;
    let word = name.text.as_str();
    if is_named("add", word) {
        return add(alloc, words);
    }
    if is_named("modify", word) {
        return modify(alloc, words);
    }
    if is_named("delete", word) {
        let path = path_alone(alloc, words)?;
        return Ok(QuotaDeed::Delete { path });
    }
    if is_named("scan", word) {
        let path = path_alone(alloc, words)?;
        return Ok(QuotaDeed::Scan { path });
    }
    if is_named("resetpeak", word) {
        let path = path_alone(alloc, words)?;
        return Ok(QuotaDeed::Resetpeak { path });
    }
    if is_named("list", word) {
        return list(alloc, words);
    }
    Err(LineFault::bad_line(name.column))
}
