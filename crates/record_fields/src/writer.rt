//! Writing single fields, one after the other, into bytes that are lent.
//!
//! A call writes at a place, and answers the place after what it wrote. What there is no room for is left out, and
//! nothing else is: so no call needs room, and what was written is whole if all of it had room together.

ghost use Rattle.std.specs.Prelude.{◌≡◌, ◌≤◌, length, take, drop};
ghost use Rattle.record_fields.specs.Formats.{number_spelled, text_spelled, truth_code};
ghost use Rattle.record_fields.specs.Writers.{Writes};

/// Writes bytes at a place.
// It is inlined everywhere, since most calls write so many bytes as are known when they are compiled: these are copied
// without a call.
#[inline(always)]
pub fn put(into: &mut [u8], at: usize, bytes: &[u8]) -> usize
    requires { at ≤ length into.old }
    ensures { Writes into.old at into.new result bytes.now }
{
    if into.len() - at < bytes.len() {
        return put_front(into, at, bytes);
    }
    let end = at + bytes.len();
    into[at..end].copy_from_slice(bytes);
    end
}

// Writes the first of these bytes, as many as have room.
#[inline(never)]
fn put_front(into: &mut [u8], at: usize, bytes: &[u8]) -> usize
    requires { at ≤ length into.old }
    ensures { Writes into.old at into.new result bytes.now }
{
    let count = bytes.len().min(into.len() - at);
    into[at..at + count].copy_from_slice(&bytes[..count]);
    at + count
}

/// Writes the low bytes of a number, so many of them, the lowest first.
// If not all have room, what is passed on is the number, and no reference to its bytes: so these need no memory.
#[inline(always)]
pub fn put_number(into: &mut [u8], at: usize, width: usize, number: u64) -> usize
    requires place { at ≤ length into.old }
    requires width { width ≤ 8 }
    ensures { Writes into.old at into.new result (number_spelled width number) }
{
    if into.len() - at < width {
        return put_number_front(into, at, width, number);
    }
    let bytes = number.to_le_bytes();
    put(into, at, &bytes[..width])
}

// Writes the first of a number's low bytes, as many as have room.
#[inline(never)]
fn put_number_front(into: &mut [u8], at: usize, width: usize, number: u64) -> usize
    requires place { at ≤ length into.old }
    requires width { width ≤ 8 }
    ensures { Writes into.old at into.new result (number_spelled width number) }
{
    let bytes = number.to_le_bytes();
    put_front(into, at, &bytes[..width])
}

/// Writes a number in one byte.
pub fn put_u8(into: &mut [u8], at: usize, number: u8) -> usize
    requires { at ≤ length into.old }
    ensures { Writes into.old at into.new result (number_spelled 1 number) }
{
    put_number(into, at, 1, number as u64)
}

/// Writes a number in two bytes.
pub fn put_u16(into: &mut [u8], at: usize, number: u16) -> usize
    requires { at ≤ length into.old }
    ensures { Writes into.old at into.new result (number_spelled 2 number) }
{
    put_number(into, at, 2, number as u64)
}

/// Writes a number in four bytes.
pub fn put_u32(into: &mut [u8], at: usize, number: u32) -> usize
    requires { at ≤ length into.old }
    ensures { Writes into.old at into.new result (number_spelled 4 number) }
{
    put_number(into, at, 4, number as u64)
}

/// Writes a number in eight bytes.
pub fn put_u64(into: &mut [u8], at: usize, number: u64) -> usize
    requires { at ≤ length into.old }
    ensures { Writes into.old at into.new result (number_spelled 8 number) }
{
    put_number(into, at, 8, number)
}

/// Writes a truth value, in one byte.
pub fn put_truth(into: &mut [u8], at: usize, holds: bool) -> usize
    requires { at ≤ length into.old }
    ensures { Writes into.old at into.new result (number_spelled 1 (truth_code holds)) }
{
    put_u8(into, at, if holds { 1 } else { 0 })
}

/// Writes a text, after its length in two bytes. A text of more than 65,535 bytes isn't legal, and isn't read again.
pub fn put_text(into: &mut [u8], at: usize, text: &str) -> usize
    requires { at ≤ length into.old }
    ensures { Writes into.old at into.new result (text_spelled text.now) }
{
    let after = put_number(into, at, 2, text.len() as u64);
    put(into, after, text.as_bytes())
}
