//! Parts of rows: how they are written, and what their types tell of them.

ghost use Rattle.std.specs.Prelude.{◌≡◌, ◌≤◌, ◌<◌, ◌^◌, ℕ, Bool, true, length};
ghost use Rattle.std.specs.List.{flat_map, list_all};
ghost use Rattle.record_fields.specs.Formats.{Format, number, text, truth, number_spelled, optional, optional_spelled, listed_spelled};
ghost use Rattle.record_fields.specs.Writers.{Writes};
ghost use Rattle.record_codec.specs.Fields.{action_kind, report_kind};
ghost use Rattle.image_codec.specs.Parts.{any, is_short, few_meet, some_meets};
ghost use Rattle.image_codec.specs.Rows.{rows};

use fsrm_base::{List, Text};
use fsrm_model::{ActionKind, ReportKind};
use record_codec::{ActionKindField, ReportKindField};
use record_fields::writer::put_number;
use record_fields::{
    Field, TextField, TruthField, U16Field, U32Field, U64Field, put_text, put_truth, put_u8,
    put_u16, put_u32, put_u64,
};

/// How a part of a row is written.
pub trait Part {
    /// What is written.
    type Value: Drop;

    ghost format: { Format Self.Value };

    ghost meets: { Self.Value → Bool };

    /// Writes a value at a place, as far as there is room, and answers the place after it.
    fn put(value: &Self::Value, into: &mut [u8], at: usize) -> usize
        requires { at ≤ length into.old }
        ensures written { Writes into.old at into.new result (format.spell value.now) }
        // A text is UTF-8 and a number has its width by their types. What else is asked of it, `meets` says.
        ensures legal { meets value.now ≡ true → format.legal value.now ≡ true };
}

impl Part for U16Field {
    type Value = u16;

    ghost format = { number 2 };

    ghost meets = { any };

    fn put(value: &u16, into: &mut [u8], at: usize) -> usize {
        put_u16(into, at, *value)
    }
}

impl Part for U32Field {
    type Value = u32;

    ghost format = { number 4 };

    ghost meets = { any };

    fn put(value: &u32, into: &mut [u8], at: usize) -> usize {
        put_u32(into, at, *value)
    }
}

impl Part for U64Field {
    type Value = u64;

    ghost format = { number 8 };

    ghost meets = { any };

    fn put(value: &u64, into: &mut [u8], at: usize) -> usize {
        put_u64(into, at, *value)
    }
}

impl Part for TruthField {
    type Value = bool;

    ghost format = { truth };

    ghost meets = { any };

    fn put(value: &bool, into: &mut [u8], at: usize) -> usize {
        put_truth(into, at, *value)
    }
}

impl Part for ActionKindField {
    type Value = ActionKind;

    ghost format = { action_kind };

    ghost meets = { any };

    fn put(value: &ActionKind, into: &mut [u8], at: usize) -> usize {
        ActionKindField::write(value, into, at)
    }
}

impl Part for ReportKindField {
    type Value = ReportKind;

    ghost format = { report_kind };

    ghost meets = { any };

    fn put(value: &ReportKind, into: &mut [u8], at: usize) -> usize {
        ReportKindField::write(value, into, at)
    }
}

impl Part for TextField {
    type Value = Text;

    ghost format = { text };

    ghost meets = { is_short };

    fn put(value: &Text, into: &mut [u8], at: usize) -> usize {
        put_name(value.as_str(), into, at)
    }
}

/// Writes a text that is lent.
pub fn put_name(name: &str, into: &mut [u8], at: usize) -> usize
    requires { at ≤ length into.old }
    ensures written { Writes into.old at into.new result (text.spell name.now) }
    ensures legal { is_short name.now ≡ true → text.legal name.now ≡ true }
{
    put_text(into, at, name)
}

/// Writes a value that may be left out.
pub fn put_maybe<P: Part>(value: &Option<P::Value>, into: &mut [u8], at: usize) -> usize
    requires { at ≤ length into.old }
    ensures written { Writes into.old at into.new result (optional_spelled P.format.spell value.now) }
    ensures legal { some_meets P.meets value.now ≡ true → (optional P.format).legal value.now ≡ true }
{
    match value {
        None => put_u8(into, at, 0),
        Some(value) => {
            let after = put_u8(into, at, 1);
            P::put(value, into, after)
        }
    }
}

/// Writes a list, after its count in four bytes.
pub fn put_rows<P: Part>(values: &List<P::Value>, into: &mut [u8], at: usize) -> usize
    requires { at ≤ length into.old }
    ensures written { Writes into.old at into.new result (listed_spelled (number_spelled 4) P.format.spell values.now) }
    ensures legal { (most : ℕ) → most < 2 ^ 32 → few_meet most P.meets values.now ≡ true → (rows P.format).legal values.now ≡ true }
{
    let after = put_number(into, at, 4, values.len() as u64);
    put_each::<P>(values.as_slice(), into, after)
}

fn put_each<P: Part>(values: &[P::Value], into: &mut [u8], at: usize) -> usize
    requires { at ≤ length into.old }
    ensures written { Writes into.old at into.new result (flat_map P.format.spell values.now) }
    ensures legal { list_all P.meets values.now ≡ true → list_all P.format.legal values.now ≡ true }
{
    let mut end = at;
    for value in values {
        end = P::put(value, into, end);
    }
    end
}
