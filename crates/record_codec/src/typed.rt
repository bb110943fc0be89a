//! Writing values with texts. That these are UTF-8 is known from their types, and told by who writes them.

ghost use Rattle.std.specs.Prelude.{◌≡◌, ◌≤◌, ℕ, Bool, List as Items, true, length};
ghost use Rattle.std.specs.List.{flat_map};
ghost use Rattle.std.specs.Str.{is_utf8};
ghost use Rattle.record_fields.specs.Formats.{number_spelled, text_spelled, optional_spelled, listed_spelled};
ghost use Rattle.record_fields.specs.Writers.{Writes};
ghost use Rattle.record_codec.specs.Typed.{all_typed, some_typed};

use fsrm_base::{List, Text};
use record_fields::{put_text, put_u8, put_u16};

/// How a value is written that has texts.
pub trait Typed {
    /// What is written.
    type Value: Drop;

    ghost spell: { Self.Value → Items ℕ };

    ghost typed: { Self.Value → Bool };

    /// Writes a value at a place, as far as there is room, and answers the place after it. Its texts are UTF-8.
    fn put(value: &Self::Value, into: &mut [u8], at: usize) -> usize
        requires { at ≤ length into.old }
        ensures written { Writes into.old at into.new result (spell value.now) }
        ensures typed { typed value.now ≡ true };
}

/// A text of its own, after its length.
pub struct OwnText;

impl Typed for OwnText {
    type Value = Text;

    ghost spell = { text_spelled };

    ghost typed = { is_utf8 };

    fn put(value: &Text, into: &mut [u8], at: usize) -> usize {
        put_text(into, at, value.as_str())
    }
}

/// Texts of their own, after their count.
pub struct OwnTexts;

impl Typed for OwnTexts {
    type Value = List<Text>;

    ghost spell = { listed_spelled (number_spelled 2) text_spelled };

    ghost typed = { all_typed is_utf8 };

    fn put(value: &List<Text>, into: &mut [u8], at: usize) -> usize {
        put_all::<OwnText>(value, into, at)
    }
}

/// Writes a value that may be left out.
pub fn put_some<T: Typed>(value: &Option<T::Value>, into: &mut [u8], at: usize) -> usize
    requires { at ≤ length into.old }
    ensures written { Writes into.old at into.new result (optional_spelled T.spell value.now) }
    ensures typed { some_typed T.typed value.now ≡ true }
{
    match value {
        None => put_u8(into, at, 0),
        Some(value) => {
            let after = put_u8(into, at, 1);
            T::put(value, into, after)
        }
    }
}

// Writes values, one after the other.
fn put_each<T: Typed>(values: &[T::Value], into: &mut [u8], at: usize) -> usize
    requires { at ≤ length into.old }
    ensures written { Writes into.old at into.new result (flat_map T.spell values.now) }
    ensures typed { all_typed T.typed values.now ≡ true }
{
    let mut end = at;
    for value in values {
        end = T::put(value, into, end);
    }
    end
}

/// Writes a list after its count in two bytes. A list of more than 65,535 values isn't legal.
pub fn put_all<T: Typed>(values: &List<T::Value>, into: &mut [u8], at: usize) -> usize
    requires { at ≤ length into.old }
    ensures written { Writes into.old at into.new result (listed_spelled (number_spelled 2) T.spell values.now) }
    ensures typed { all_typed T.typed values.now ≡ true }
{
    let after = put_u16(into, at, (values.len() % 65_536) as u16);
    put_each::<T>(values.as_slice(), into, after)
}
