//! The patterns of file groups that commands give, and whether a group is used.

ghost use Rattle.std.specs.Prelude.{◌≡◌, [], true, IfOk};
ghost use Rattle.std.specs.List.{list_all, list_any};
ghost use Rattle.std.specs.Option.{option_map_or};
ghost use Rattle.fsrm_base.specs.Numbers.{is_in};
ghost use Rattle.fsrm_model.specs.commands.GroupWork.{is_used};
ghost use Rattle.fsrm_model.specs.values.Patterns.{is_pattern};
ghost use Rattle.fsrm_parts.specs.Places.{rows_with};

use fsrm_model::{List, NoMemory, Text};
use fsrm_objects::Objects;
use name_patterns::Pattern;
use std::alloc::Global;

// The pattern that a text is.
fn pattern_of(alloc: Global, text: &Text) -> Result<Pattern, NoMemory>
    requires { is_pattern text.now ≡ true }
    ensures { IfOk result (λ pattern. pattern ≡ text.now) }
{
    match Pattern::read(alloc, text.as_str()) {
        Ok(pattern) => Ok(pattern),
        Err(_) => Err(NoMemory),
    }
}

/// The patterns that texts are, each of which is one.
pub fn patterns_of(alloc: Global, texts: &List<Text>) -> Result<List<Pattern>, NoMemory>
    requires { list_all is_pattern texts.now ≡ true }
    ensures { IfOk result (λ patterns. patterns ≡ texts.now) }
{
    let mut patterns = List::new(alloc);
    for text in texts.as_slice() {
        patterns.push(pattern_of(alloc, text)?)?;
    }
    Ok(patterns)
}

/// The patterns that texts are, if these are given.
pub fn given_patterns(
    alloc: Global,
    texts: &Option<List<Text>>,
) -> Result<Option<List<Pattern>>, NoMemory>
    requires { option_map_or (list_all is_pattern) texts.now true ≡ true }
    ensures { IfOk result (λ patterns. patterns ≡ texts.now) }
{
    match texts {
        Some(texts) => Ok(Some(patterns_of(alloc, texts)?)),
        None => Ok(None),
    }
}

// Whether a screen names a group.
fn is_screened(objects: &Objects, number: u32) -> bool
    ensures { result ≡ list_any (λ screen. is_in screen.groups number) objects.now.screens }
{
    for place in 0..objects.screen_count() {
        if objects.screen_at(place).groups.as_slice().contains(&number) {
            return true;
        }
    }
    false
}

// Whether an exception names a group.
fn is_excepted(objects: &Objects, number: u32) -> bool
    ensures { result ≡ list_any (λ except. is_in except.groups number) objects.now.excepts }
{
    for place in 0..objects.except_count() {
        if objects.except_at(place).groups.as_slice().contains(&number) {
            return true;
        }
    }
    false
}

/// Whether a screen or an exception names a group.
pub fn is_used(objects: &Objects, number: u32) -> bool
    ensures { result ≡ is_used (rows_with [] objects.now) number }
{
    is_screened(objects, number) || is_excepted(objects, number)
}
