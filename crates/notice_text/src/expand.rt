//! Writes a text with its macros expanded, piece by piece.

ghost use Rattle.std.specs.Prelude.{◌≡◌, ◌+◌, ◌*◌, ◌/◌, ◌<◌, ◌≤◌, true, drop, length};
ghost use Rattle.std.specs.List.{position_or_len};
ghost use Rattle.line_parts.specs.Parts.{part_text};
ghost use Rattle.line_parts.specs.Writes.{Writes};
ghost use Rattle.notice_text.specs.Expand.{expand, is_bracket, is_wide, number_text, quota_value, value, values_of};
ghost use Rattle.notice_text.specs.Pieces.{WritesPiece};

use crate::macros::{Facts, Macro, QuotaFacts, macro_at};
use fsrm_outside::Sink;
use line_parts::{Part, TextFault, send_part};

// A number, or `-` if there is none.
fn number_or_dash<'a>(number: Option<u64>) -> Part<'a>
    ensures { part_text result ≡ number_text number }
{
    match number {
        Some(number) => Part::Number(number),
        None => Part::Text(b"-"),
    }
}

// How many percent of a limit a number is, rounded down.
fn percent_of(bytes: u64, limit: u64) -> u64
    requires { 1024 ≤ limit }
    ensures { result ≡ 100 * bytes / limit }
{
    (100 * u128::from(bytes) / u128::from(limit)) as u64
}

// What a macro of a quota stands for.
fn quota_value<'a>(quota: &QuotaFacts, name: Macro) -> Part<'a>
    requires { 1024 ≤ quota.now.limit }
    ensures { part_text result ≡ quota_value quota.now name }
{
    match name {
        Macro::QuotaLimit => Part::Number(quota.limit),
        Macro::QuotaLimitKb => Part::Number(quota.limit / 1024),
        Macro::QuotaLimitMb => Part::Number(quota.limit / 1_048_576),
        Macro::QuotaUsed => number_or_dash(quota.used),
        Macro::QuotaUsedPercent => {
            number_or_dash(quota.used.map(|bytes| percent_of(bytes, quota.limit)))
        }
        Macro::QuotaPeak => Part::Number(quota.peak),
        Macro::QuotaThreshold => Part::Number(u64::from(quota.percent)),
        _ => Part::Text(b""),
    }
}

// What a macro stands for.
fn value<'a>(facts: &Facts<'a>, name: Macro) -> Part<'a>
    requires { is_wide facts.now.quota ≡ true }
    ensures { part_text result ≡ value (values_of facts.now) name }
{
    match name {
        Macro::QuotaPath | Macro::ScreenPath => Part::Text(facts.path.as_bytes()),
        Macro::NoticeDate => Part::Text(facts.date),
        _ => match facts.quota {
            Some(quota) => quota_value(&quota, name),
            None => Part::Text(b""),
        },
    }
}

// So many of a text's first bytes that no macro begins at one of them, if none begins at the first.
fn plain_bytes(text: &[u8]) -> usize
    requires { 0 < length text.now }
    ensures { result ≡ 1 + position_or_len is_bracket (drop 1 text.now) }
{
    let rest = &text[1..];
    1 + rest
        .iter()
        .position(|byte| *byte == b'[')
        .unwrap_or(rest.len())
}

// Writes what the next bytes of a text stand for, and answers how many they are.
fn write_next<S: Sink>(sink: &mut S, text: &[u8], facts: &Facts) -> Result<usize, TextFault>
    requires facts { is_wide facts.now.quota ≡ true }
    requires some { 0 < length text.now }
    ensures piece { WritesPiece S.Sink result sink.old sink.new (values_of facts.now) text.now }
{
    match macro_at(facts, text) {
        Some(name) => {
            send_part(sink, &value(facts, name))?;
            Ok(name.spelling().len())
        }
        None => {
            let bytes = plain_bytes(text);
            send_part(sink, &Part::Text(&text[..bytes]))?;
            Ok(bytes)
        }
    }
}

/// Writes a text with its macros expanded. It goes out in pieces, and is never held whole.
pub fn write_expanded<S: Sink>(sink: &mut S, text: &[u8], facts: &Facts) -> Result<(), TextFault>
    requires { is_wide facts.now.quota ≡ true }
    ensures writes { Writes S.Sink result sink.old sink.new (expand (values_of facts.now) text.now) }
{
    let mut at = 0;
    while at < text.len() {
        at += write_next(sink, &text[at..], facts)?;
    }
    Ok(())
}
