//! The folded text of a name, and its type.

ghost use Rattle.std.specs.Prelude.{◌≡◌, ◌≤◌, ◌||◌, ◌++◌, [], if◌then◌else◌, chars, drop, length, IfOk, OnOk};
ghost use Rattle.std.specs.Char.{encode_utf8};
ghost use Rattle.std.specs.String.{string_bytes};
ghost use Rattle.ucd_case.specs.CaseFolding.{simple_fold};
ghost use Rattle.fsrm_model.specs.reports.Reports.{after_last_dot, folded_text, is_dot, type_of};

use fsrm_model::NoMemory;
use std::alloc::Global;
use unicode::case::simple_fold;

fn push_folded(text: &mut String, character: char) -> Result<(), NoMemory>
    ensures { OnOk result (string_bytes text.new ≡ string_bytes text.old ++ encode_utf8 (simple_fold character)) }
{
    text.push(simple_fold(character))?;
    Ok(())
}

/// The folded text of a name.
pub fn folded_name(alloc: Global, name: &str) -> Result<String, NoMemory>
    ensures { IfOk result (λ text. string_bytes text ≡ folded_text (chars name.now)) }
{
    if name.is_ascii() {
        return Ok(name.to_ascii_lowercase(alloc)?);
    }
    folded_characters(alloc, name)
}

// The same, whatever the characters are.
fn folded_characters(alloc: Global, name: &str) -> Result<String, NoMemory>
    ensures { IfOk result (λ text. string_bytes text ≡ folded_text (chars name.now)) }
{
    let mut text = String::new(alloc);
    for character in name.chars() {
        push_folded(&mut text, character)?;
    }
    Ok(text)
}

// One more character. It answers whether a dot came so far: what comes after it is kept, folded.
fn take(text: &mut String, dotted: bool, character: char) -> Result<bool, NoMemory>
    ensures dotted { IfOk result (λ now. now ≡ (dotted || is_dot character)) }
    ensures text { OnOk result (string_bytes text.new ≡ (if is_dot character then [] else if dotted then string_bytes text.old ++ encode_utf8 (simple_fold character) else string_bytes text.old)) }
{
    if character == '.' {
        text.clear();
        return Ok(true);
    }
    if dotted {
        push_folded(text, character)?;
    }
    Ok(dotted)
}

// Where the text begins that stands after the last dot: at the end, if there is no dot.
fn type_start(bytes: &[u8]) -> usize
    ensures within { result ≤ length bytes.now }
    ensures rest { drop result bytes.now ≡ after_last_dot bytes.now }
{
    let mut start = bytes.len();
    while 0 < start {
        if bytes[start - 1] == b'.' {
            return start;
        }
        start -= 1;
    }
    bytes.len()
}

/// The folded text after the last dot of a name; empty if there is none.
pub fn type_of(alloc: Global, name: &str) -> Result<String, NoMemory>
    ensures { IfOk result (λ text. string_bytes text ≡ type_of name.now) }
{
    if name.is_ascii() {
        let start = type_start(name.as_bytes());
        return Ok(name[start..].to_ascii_lowercase(alloc)?);
    }
    type_of_characters(alloc, name)
}

// The same, whatever the characters are.
fn type_of_characters(alloc: Global, name: &str) -> Result<String, NoMemory>
    ensures { IfOk result (λ text. string_bytes text ≡ type_of name.now) }
{
    let mut text = String::new(alloc);
    let mut dotted = false;
    for character in name.chars() {
        dotted = take(&mut text, dotted, character)?;
    }
    Ok(text)
}
