//! Texts of parts, in memory.

ghost use Rattle.std.specs.Prelude.{◌≡◌, ◌++◌, decimal, flat_map, OnOk};
ghost use Rattle.line_parts.specs.Parts.{part_text};

use fsrm_base::NoMemory;
use itoa::Buffer;
use line_parts::Part;

/// Adds bytes to a text.
#[inline(always)]
pub fn put_text(text: &mut Vec<u8>, bytes: &[u8]) -> Result<(), NoMemory>
    ensures { OnOk result (text.new.items ≡ text.old.items ++ bytes.now) }
{
    text.extend_from_slice(bytes)?;
    Ok(())
}

// Adds the digits of a number. It stands apart, so that fewer registers are saved where there are few digits.
#[inline(never)]
fn put_digits(text: &mut Vec<u8>, number: u64) -> Result<(), NoMemory>
    ensures { OnOk result (text.new.items ≡ text.old.items ++ decimal number) }
{
    let mut digits = Buffer::new();
    text.extend_from_slice(digits.format(number).as_bytes())?;
    Ok(())
}

/// Adds the digits of a number to a text. One or two are put without a buffer, which takes less time.
#[inline]
pub fn put_number(text: &mut Vec<u8>, number: u64) -> Result<(), NoMemory>
    ensures { OnOk result (text.new.items ≡ text.old.items ++ decimal number) }
{
    if number < 10 {
        return put_text(text, &[b'0' + number as u8]);
    }
    if number < 100 {
        let (tens, ones) = (number / 10, number % 10);
        return put_text(text, &[b'0' + tens as u8, b'0' + ones as u8]);
    }
    put_digits(text, number)
}

// Adds a part to a text.
fn put_part(text: &mut Vec<u8>, part: &Part) -> Result<(), NoMemory>
    ensures { OnOk result (text.new.items ≡ text.old.items ++ part_text part.now) }
{
    match *part {
        Part::Number(number) => put_number(text, number),
        Part::Text(bytes) => put_text(text, bytes),
    }
}

/// Adds parts to a text, one after the other.
pub fn put(text: &mut Vec<u8>, parts: &[Part]) -> Result<(), NoMemory>
    ensures { OnOk result (text.new.items ≡ text.old.items ++ flat_map part_text parts.now) }
{
    'parts: for part in parts {
        put_part(text, part)?;
    }
    Ok(())
}
