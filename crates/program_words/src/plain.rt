//! The modes that take no option, by the words after their names.

ghost use Rattle.std.specs.Prelude.{◌≡◌, map, IfOk, IfSome};
ghost use Rattle.program_words.specs.Modes.{show_mode, outbox_mode, work_mode, tick_mode, path_in, pattern_in, expire_in, expire_mode, plain_mode, Answers, IsLegal};

use crate::fault::WordsFault;
use crate::modes::Mode;
use crate::numbers::{number_in, small_number_in};
use fsrm_model::Path;
use fsrm_model::limits::LATEST_MOMENT;
use name_patterns::Pattern;
use name_rules::{NameFault, PathFault, read_path};
use std::alloc::Global;

const MOST_COMMANDS: u32 = 1_000_000;

const MOST_DAYS: u32 = 36_500;

fn show_mode(words: &[&str]) -> Option<Mode>
    ensures asked { result ≡ show_mode (map (λ s. s.now) words.now) }
    ensures legal { IfSome result IsLegal }
{
    words.is_empty().then_some(Mode::Show)
}

fn outbox_mode(words: &[&str]) -> Option<Mode>
    ensures asked { result ≡ outbox_mode (map (λ s. s.now) words.now) }
    ensures legal { IfSome result IsLegal }
{
    let [since] = words else {
        return None;
    };
    let since = number_in(since, 0, LATEST_MOMENT)?;
    Some(Mode::Outbox { since })
}

fn work_mode(words: &[&str]) -> Option<Mode>
    ensures asked { result ≡ work_mode (map (λ s. s.now) words.now) }
    ensures legal { IfSome result IsLegal }
{
    let [seed, count] = words else {
        return None;
    };
    let seed = number_in(seed, 0, u64::MAX)?;
    let count = small_number_in(count, 1, MOST_COMMANDS)?;
    Some(Mode::Work { seed, count })
}

fn tick_mode(words: &[&str]) -> Option<Mode>
    ensures asked { result ≡ tick_mode (map (λ s. s.now) words.now) }
    ensures legal { IfSome result IsLegal }
{
    let [moment] = words else {
        return None;
    };
    let moment = number_in(moment, 0, LATEST_MOMENT)?;
    Some(Mode::Tick { moment })
}

/// The answer to words that ask for a mode, or for nothing.
pub fn answer(asked: Option<Mode>) -> Result<Mode, WordsFault>
    requires { IfSome asked IsLegal }
    ensures asked { Answers result asked }
    ensures legal { IfOk result IsLegal }
{
    match asked {
        Some(mode) => Ok(mode),
        None => Err(WordsFault::Usage),
    }
}

#[tactic(auto, unfolding(crate::specs::Modes::path_in))]
fn path_in(alloc: Global, text: &str) -> Result<Path, WordsFault>
    ensures { Answers result (path_in text.now) }
{
    match read_path(alloc, text) {
        Ok(path) => Ok(path),
        Err(PathFault::NoMemory) => Err(WordsFault::NoMemory),
        Err(_) => Err(WordsFault::Usage),
    }
}

#[tactic(auto, unfolding(crate::specs::Modes::pattern_in))]
fn pattern_in(alloc: Global, text: &str) -> Result<Pattern, WordsFault>
    ensures { Answers result (pattern_in text.now) }
{
    match Pattern::read(alloc, text) {
        Ok(pattern) => Ok(pattern),
        Err(NameFault::NoMemory) => Err(WordsFault::NoMemory),
        Err(NameFault::InvalidName) => Err(WordsFault::Usage),
    }
}

// Which files are to be moved, by the five words that tell it.
fn expire_in(
    alloc: Global,
    from: &str,
    to: &str,
    days: &str,
    pattern: &str,
    moment: &str,
) -> Result<Mode, WordsFault>
    ensures asked { Answers result (expire_in from.now to.now days.now pattern.now moment.now) }
    ensures legal { IfOk result IsLegal }
{
    let from = path_in(alloc, from)?;
    let to = path_in(alloc, to)?;
    let Some(days) = small_number_in(days, 0, MOST_DAYS) else {
        return Err(WordsFault::Usage);
    };
    let pattern = pattern_in(alloc, pattern)?;
    let Some(moment) = number_in(moment, 0, LATEST_MOMENT) else {
        return Err(WordsFault::Usage);
    };
    Ok(Mode::Expire {
        from,
        to,
        days,
        pattern,
        moment,
    })
}

fn expire_mode(alloc: Global, words: &[&str]) -> Result<Mode, WordsFault>
    ensures asked { Answers result (expire_mode (map (λ s. s.now) words.now)) }
    ensures legal { IfOk result IsLegal }
{
    let [from, to, days, pattern, moment] = words else {
        return Err(WordsFault::Usage);
    };
    expire_in(alloc, from, to, days, pattern, moment)
}

/// A mode without options, by the words after its name.
pub fn plain_mode(alloc: Global, name: &str, words: &[&str]) -> Result<Mode, WordsFault>
    ensures asked { Answers result (plain_mode name.now (map (λ s. s.now) words.now)) }
    ensures legal { IfOk result IsLegal }
{
    match name {
        "show" => answer(show_mode(words)),
        "outbox" => answer(outbox_mode(words)),
        "work" => answer(work_mode(words)),
        "expire" => expire_mode(alloc, words),
        "tick" => answer(tick_mode(words)),
        _ => Err(WordsFault::Usage),
    }
}
