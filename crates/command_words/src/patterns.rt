//! The patterns of file groups and of reports, in the values of options.

ghost use Rattle.std.specs.Prelude.{◌≡◌, nat_le, length, IfOk};
ghost use Rattle.std.specs.List.{list_all, slice_split};
ghost use Rattle.fsrm_model.specs.lines.GroupWords.{is_bar, non_members_from, patterns_from};
ghost use Rattle.fsrm_model.specs.texts.ReportWords.{pattern_from};
ghost use Rattle.fsrm_model.specs.values.Limits.{most_patterns};
ghost use Rattle.fsrm_model.specs.values.Patterns.{is_pattern};
ghost use Rattle.command_words.specs.LineFaults.{Reads};

use crate::fault::LineFault;
use fsrm_model::limits::MOST_PATTERNS;
use fsrm_model::{List, NoMemory, Refusal, Text};
use memchr::memchr_iter;
use name_patterns::is_pattern;
use std::alloc::Global;

/// Reads a text as one pattern.
pub fn read_pattern(alloc: Global, text: &str) -> Result<Text, LineFault>
    ensures { Reads result (pattern_from text.now) }
{
    if !is_pattern(text) {
        return Err(LineFault::Refused(Refusal::InvalidName));
    }
    Ok(Text::from_str(alloc, text)?)
}

// Whether each part of a text between bars is a pattern.
fn are_patterns(text: &str) -> bool
    ensures { result ≡ list_all is_pattern (slice_split is_bar text.now) }
{
    text.split('|').all(|part| is_pattern(part))
}

// Whether a text has no more parts between bars than a file group may have patterns.
fn are_few(text: &str) -> bool
    ensures { result ≡ nat_le (length (slice_split is_bar text.now)) most_patterns }
{
    memchr_iter(b'|', text.as_bytes()).count() < MOST_PATTERNS
}

// The parts of a text between bars, each in memory of its own.
fn copied_parts(alloc: Global, text: &str) -> Result<List<Text>, NoMemory>
    ensures { IfOk result (λ parts. parts ≡ slice_split is_bar text.now) }
{
    let mut parts = List::new(alloc);
    for part in text.split('|') {
        parts.push(Text::from_str(alloc, part)?)?;
    }
    Ok(parts)
}

/// The patterns that a text is, parted by `|`. That each is one is judged before there may be too many, and both before
/// any of them takes memory.
pub fn read_patterns(alloc: Global, text: &str) -> Result<List<Text>, LineFault>
    ensures { Reads result (patterns_from text.now) }
{
    if !are_patterns(text) {
        return Err(LineFault::Refused(Refusal::InvalidName));
    }
    if !are_few(text) {
        return Err(LineFault::Refused(Refusal::OutOfRange));
    }
    Ok(copied_parts(alloc, text)?)
}

/// The same; an empty text is none.
pub fn read_non_members(alloc: Global, text: &str) -> Result<List<Text>, LineFault>
    ensures { Reads result (non_members_from text.now) }
{
    if text.is_empty() {
        return Ok(List::new(alloc));
    }
    read_patterns(alloc, text)
}
