//! Numbers in words.

ghost use Rattle.std.specs.Prelude.{◌≡◌, ◌≤◌, ◌^◌, true, IfSome, IfNone};
ghost use Rattle.std.specs.Char.{is_ascii_digit};
ghost use Rattle.std.specs.List.{list_all};
ghost use Rattle.std.specs.Str.Parse.{digits_value};
ghost use Rattle.fsrm_model.specs.lines.Reading.{is_number};
ghost use Rattle.program_words.specs.Numbers.{number_in};

const MOST_DIGITS: usize = 20;

fn are_digits(text: &[u8]) -> bool
    ensures { result ≡ list_all is_ascii_digit text.now }
{
    text.iter().all(|byte| byte.is_ascii_digit())
}

fn is_number(text: &str) -> bool
    ensures { result ≡ is_number text.now }
{
    0 < text.len() && text.len() <= MOST_DIGITS && are_digits(text.as_bytes())
}

// The number that digits write. None if it doesn't fit 64 bits.
fn value_of(text: &str) -> Option<u64>
    requires { is_number text.now ≡ true }
    ensures fits { IfSome result (λ n. n ≡ digits_value 10 text.now) }
    ensures too_large { IfNone result (2 ^ 64 ≤ digits_value 10 text.now) }
{
    match text.parse::<u64>() {
        Ok(number) => Some(number),
        Err(_) => None,
    }
}

/// The number from `low` to `high` that a text writes in 1 to 20 digits.
pub fn number_in(text: &str, low: u64, high: u64) -> Option<u64>
    ensures { result ≡ number_in low high text.now }
{
    if !is_number(text) {
        return None;
    }
    match value_of(text) {
        Some(number) if low <= number && number <= high => Some(number),
        _ => None,
    }
}

/// The same of numbers of 32 bits.
pub fn small_number_in(text: &str, low: u32, high: u32) -> Option<u32>
    ensures { result ≡ number_in low high text.now }
{
    match number_in(text, u64::from(low), u64::from(high)) {
        Some(number) => Some(number as u32),
        None => None,
    }
}
