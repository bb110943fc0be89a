//! The first characters of names as numbers, by which most names are told apart without being read.

ghost use Rattle.std.specs.Prelude.{◌≡◌, ◌-◌, ◌*◌, ◌^◌, ◌<◌, ◌≤◌, nat_lt, min, if◌then◌else◌, drop, length, slice_index};
ghost use Rattle.std.specs.Str.{IsUtf8};
ghost use Rattle.std.specs.Str.Iter.{chars_rest};
ghost use Rattle.fsrm_model.specs.values.Name.{folded};
ghost use Rattle.name_rules.specs.Prefix.{prefix};

use std::str::Chars;
use unicode::case::simple_fold;

// The bytes of ASCII, each in lower case.
static LOWER: [u8; 128] = *b"\
    \x00\x01\x02\x03\x04\x05\x06\x07\x08\x09\x0a\x0b\x0c\x0d\x0e\x0f\
    \x10\x11\x12\x13\x14\x15\x16\x17\x18\x19\x1a\x1b\x1c\x1d\x1e\x1f\
    \x20!\"#$%&'()*+,-./\
    0123456789:;<=>?\
    @abcdefghijklmno\
    pqrstuvwxyz[\\]^_\
    `abcdefghijklmno\
    pqrstuvwxyz{|}~\x7f";

/// The first eight characters of a name, folded, as a number: each is a digit of base 256, and after the last one all
/// digits are 0; but from the first character on that is 255 or more all are 255. So two names whose numbers differ are
/// in the order of these.
pub fn fold_prefix(name: &str) -> u64
    ensures { result ≡ prefix name.now }
{
    // Most names have eight bytes and more. Then their count is known when the program is made, and no loop is left.
    let len = name.len();
    if len >= 8 {
        return prefix_of_bytes(name, 8);
    }
    prefix_of_bytes(name, len)
}

// The same, of so many bytes at the front: eight, or all if there are fewer.
#[inline(always)]
fn prefix_of_bytes(name: &str, count: usize) -> u64
    requires { count ≡ min (length name.now) 8 }
    ensures { result ≡ prefix name.now }
{
    let bytes = name.as_bytes();
    let mut number = 0;
    for place in 0..count {
        let byte = bytes[place];
        if !byte.is_ascii() {
            return prefix_of_characters(name);
        }
        number = number * 256 + u64::from(LOWER[byte as usize]);
    }
    with_zeros(number, 8 - count)
}

// A number with so many digits of 0 behind it.
#[inline]
fn with_zeros(number: u64, zeros: usize) -> u64
    requires few { zeros ≤ 8 }
    requires small { number < 256 ^ (8 - zeros) }
    ensures { result ≡ number * 256 ^ zeros }
{
    if zeros == 8 {
        return 0;
    }
    number << (8 * zeros)
}

// The same, whatever the characters are.
fn prefix_of_characters(name: &str) -> u64
    ensures { result ≡ prefix name.now }
{
    let mut characters = name.chars();
    let mut number = 0;
    let mut digit = 0;
    let mut left = 8u32;
    while left > 0 {
        left -= 1;
        digit = digit_after(digit, next_folded(&mut characters));
        number = number * 256 + digit;
    }
    number
}

// The digit of a character. After a digit of 255 all are the same.
#[inline]
fn digit_after(last: u64, character: u64) -> u64
    ensures { result ≡ (if nat_lt last 255 then min character 255 else last) }
{
    if last < 255 { character.min(255) } else { last }
}

// The number of the next character, folded, or 0 after the last one.
fn next_folded(characters: &mut Chars<'_>) -> u64
    requires text { IsUtf8 (chars_rest characters.old) }
    ensures text { IsUtf8 (chars_rest characters.new) }
    ensures number { result ≡ slice_index (folded (chars_rest characters.old)) 0 }
    ensures rest { folded (chars_rest characters.new) ≡ drop 1 (folded (chars_rest characters.old)) }
{
    match characters.next() {
        Some(character) => u64::from(simple_fold(character)),
        None => 0,
    }
}
