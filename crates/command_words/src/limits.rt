//! The limits of quotas.

ghost use Rattle.std.specs.Prelude.{◌≡◌, ◌≤◌, ◌<◌, ◌*◌, ◌^◌, true, length, IfSome, IfNone};
ghost use Rattle.std.specs.Char.{is_ascii_digit};
ghost use Rattle.std.specs.List.{list_all, prefix_len};
ghost use Rattle.std.specs.Str.Parse.{digits_value};
ghost use Rattle.fsrm_model.specs.declared.command.Refusal.TheVariants.{InvalidLimit};
ghost use Rattle.fsrm_model.specs.objects.Quota.{is_limit};
ghost use Rattle.fsrm_model.specs.lines.Reading.{unit_bytes, guarded, limit_from};
ghost use Rattle.command_words.specs.LineFaults.{Reads};

use crate::fault::LineFault;
use crate::values::is_named;
use crate::words::{after, before};
use fsrm_model::Refusal;
use fsrm_model::limits::{GREATEST_LIMIT, LEAST_LIMIT};

// How many digits a text begins with.
fn digit_count(text: &[u8]) -> usize
    ensures { result ≡ prefix_len is_ascii_digit text.now }
{
    text.iter().take_while(|byte| byte.is_ascii_digit()).count()
}

// How many bytes a unit stands for, in letters of either case: one byte if it is empty.
fn unit_bytes(unit: &str) -> Option<u64>
    ensures { result ≡ unit_bytes unit.now }
{
    if unit.is_empty() {
        return Some(1);
    }
    if is_named("kb", unit) {
        return Some(1 << 10);
    }
    if is_named("mb", unit) {
        return Some(1 << 20);
    }
    if is_named("gb", unit) {
        return Some(1 << 30);
    }
    if is_named("tb", unit) {
        return Some(1 << 40);
    }
    None
}

fn is_limit(limit: u64) -> bool
    ensures { result ≡ is_limit limit }
{
    LEAST_LIMIT <= limit && limit <= GREATEST_LIMIT
}

// So many units, in bytes. None if they don't fit 64 bits.
fn in_bytes(digits: &str, unit: u64) -> Option<u64>
    requires some { 0 < length digits.now }
    requires digits { list_all is_ascii_digit digits.now ≡ true }
    requires unit { 1 ≤ unit }
    ensures fits { IfSome result (λ bytes. bytes ≡ digits_value 10 digits.now * unit) }
    ensures too_many { IfNone result (2 ^ 64 ≤ digits_value 10 digits.now * unit) }
{
    match digits.parse::<u64>() {
        Ok(number) => number.checked_mul(unit),
        Err(_) => None,
    }
}

// The limit of so many units.
fn limit_of(digits: &str, unit: u64) -> Result<u64, LineFault>
    requires some { 0 < length digits.now }
    requires digits { list_all is_ascii_digit digits.now ≡ true }
    requires unit { 1 ≤ unit }
    ensures { Reads result (guarded (is_limit (digits_value 10 digits.now * unit)) InvalidLimit (digits_value 10 digits.now * unit)) }
{
    match in_bytes(digits, unit) {
        Some(limit) if is_limit(limit) => Ok(limit),
        _ => Err(LineFault::Refused(Refusal::InvalidLimit)),
    }
}

/// The limit that a text of a word at this column is, in bytes: digits, as many as are given, and a
/// unit. BadLine if it hasn't that form, InvalidLimit below 1,024 bytes or above 2^60.
pub fn read_limit(text: &str, column: u32) -> Result<u64, LineFault>
    ensures { Reads result (limit_from column text.now) }
{
    let count = digit_count(text.as_bytes());
    if count == 0 {
        return Err(LineFault::bad_line(column));
    }
    let Some(unit) = unit_bytes(after(text, count)) else {
        return Err(LineFault::bad_line(column));
    };
    limit_of(before(text, count), unit)
}
