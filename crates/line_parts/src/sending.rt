//! Sends lines to a sink: a short one whole, and the parts of another one after another.

ghost use Rattle.std.specs.Prelude.{◌≡◌, ◌≤◌, ◌+◌, ◌++◌, ◌∷◌, [], decimal, drop, flat_map, length};
ghost use Rattle.line_parts.specs.Parts.{part_text};
ghost use Rattle.line_parts.specs.Writes.{Writes};

use crate::fault::TextFault;
use fsrm_outside::{Sink, write_all};
use itoa::write_digits;

// The digits of the greatest number, which is below 2^64.
const MOST_DIGITS: usize = 20;

// The bytes of the longest short line: a number and 44 more, or two numbers, 23 between them, and the LF.
const SHORT_LINE: usize = 64;

/// What a line is made of.
#[derive(Clone, Copy, Debug)]
pub enum Part<'a> {
    /// A number, in decimal.
    Number(u64),
    /// The bytes of a text, as they are.
    Text(&'a [u8]),
}

// Writes bytes whole, or a front of them if the sink fails.
#[inline]
fn send_bytes<S: Sink>(sink: &mut S, bytes: &[u8]) -> Result<(), TextFault>
    ensures writes { Writes S.Sink result sink.old sink.new bytes.now }
{
    write_all(sink, bytes)?;
    Ok(())
}

fn send_number<S: Sink>(sink: &mut S, number: u64) -> Result<(), TextFault>
    ensures writes { Writes S.Sink result sink.old sink.new (decimal number) }
{
    let mut digits = [0u8; MOST_DIGITS];
    let start = write_digits(number, &mut digits, MOST_DIGITS);
    send_bytes(sink, &digits[start..])
}

/// Writes a part whole, or a front of it if the sink fails.
pub fn send_part<S: Sink>(sink: &mut S, part: &Part) -> Result<(), TextFault>
    ensures writes { Writes S.Sink result sink.old sink.new (part_text part.now) }
{
    match *part {
        Part::Number(number) => send_number(sink, number),
        Part::Text(bytes) => send_bytes(sink, bytes),
    }
}

// Puts a text into a line so that it ends at a place, and answers where it starts.
#[inline]
fn put_text(text: &[u8], line: &mut [u8], end: usize) -> usize
    requires { (length text.now ≤ end) × (end ≤ length line.old) }
    ensures start { result + length text.now ≡ end }
    ensures written { drop result line.new ≡ text.now ++ drop end line.old }
{
    let start = end - text.len();
    line[start..end].copy_from_slice(text);
    start
}

/// Writes a short line: a number, and the text after it, with its LF. It is made whole, from its end to its front,
/// since that takes less time than another write.
pub fn send_short<S: Sink>(sink: &mut S, number: u64, text: &[u8]) -> Result<(), TextFault>
    requires { length text.now ≤ 44 }
    ensures writes { Writes S.Sink result sink.old sink.new (decimal number ++ text.now) }
{
    let mut line = [0u8; SHORT_LINE];
    let text_start = put_text(text, &mut line, SHORT_LINE);
    let start = write_digits(number, &mut line, text_start);
    send_bytes(sink, &line[start..])
}

/// The same with another number between the text and the LF.
pub fn send_short_with<S: Sink>(
    sink: &mut S,
    number: u64,
    text: &[u8],
    last: u64,
) -> Result<(), TextFault>
    requires { length text.now ≤ 23 }
    ensures writes { Writes S.Sink result sink.old sink.new (decimal number ++ (text.now ++ (decimal last ++ 10 ∷ []))) }
{
    let mut line = [b'\n'; SHORT_LINE];
    let last_start = write_digits(last, &mut line, SHORT_LINE - 1);
    let text_start = put_text(text, &mut line, last_start);
    let start = write_digits(number, &mut line, text_start);
    send_bytes(sink, &line[start..])
}

/// Writes the parts, or a front of them if the sink fails. No part is written after a failed write.
pub fn send<S: Sink>(sink: &mut S, parts: &[Part]) -> Result<(), TextFault>
    ensures writes { Writes S.Sink result sink.old sink.new (flat_map part_text parts.now) }
{
    'parts: for part in parts {
        send_part(sink, part)?;
    }
    Ok(())
}
