//! Optional values and lists, of any kind of field.

ghost use Rattle.std.specs.Prelude.{◌≡◌, ◌≤◌, length};
ghost use Rattle.std.specs.List.{flat_map};
ghost use Rattle.record_fields.specs.Formats.{number, number_spelled, number_within, optional_at, optional_spelled, items_at, listed_at, listed_spelled};
ghost use Rattle.record_fields.specs.Readers.{Gives};
ghost use Rattle.record_fields.specs.Writers.{Writes};

use crate::fields::Field;
use crate::flaw::{FieldFault, Flaw};
use crate::reader::Reader;
use crate::writer::put_number;
use fsrm_base::List;
use std::alloc::Global;

/// A value that may be left out, unless it is required: a byte 0, or 1 and the value. Illegal at that byte if it is
/// another one, or if it is 0 and the value is required.
#[tactic(auto, unfolding(crate::specs::Formats::optional_at))]
pub fn read_optional<F: Field>(
    alloc: Global,
    reader: &mut Reader<'_>,
    required: bool,
) -> Result<Option<F::Value>, FieldFault>
    ensures { Gives result reader.new (optional_at required F.format reader.old) }
{
    let left = reader.left();
    match reader.read_u8()? {
        0 if !required => Ok(None),
        1 => Ok(Some(F::read(alloc, reader)?)),
        _ => Err(FieldFault::Flawed(Flaw::Illegal { left })),
    }
}

/// So many values, one after the other. Memory is taken as they are read, whatever the count.
pub fn read_items<F: Field>(
    alloc: Global,
    reader: &mut Reader<'_>,
    count: usize,
) -> Result<List<F::Value>, FieldFault>
    ensures { Gives result reader.new (items_at F.format count reader.old) }
{
    let mut items = List::new(alloc);
    for _ in 0..count {
        items.push(F::read(alloc, reader)?)?;
    }
    Ok(items)
}

/// A list, after its count in two bytes. Illegal at the count if there are fewer than `least` or more than `most`.
#[tactic(auto, unfolding(crate::specs::Formats::listed_at))]
pub fn read_short_list<F: Field>(
    alloc: Global,
    reader: &mut Reader<'_>,
    least: u16,
    most: u16,
) -> Result<List<F::Value>, FieldFault>
    ensures { Gives result reader.new (listed_at (number_within 2 least most) F.format reader.old) }
{
    let count = reader.read_u16_within(least, most)?;
    read_items::<F>(alloc, reader, count as usize)
}

/// A list, after its count in four bytes.
#[tactic(auto, unfolding(crate::specs::Formats::listed_at))]
pub fn read_long_list<F: Field>(
    alloc: Global,
    reader: &mut Reader<'_>,
) -> Result<List<F::Value>, FieldFault>
    ensures { Gives result reader.new (listed_at (number 4) F.format reader.old) }
{
    let count = reader.read_u32()?;
    read_items::<F>(alloc, reader, count as usize)
}

/// Writes a value that may be left out.
pub fn put_optional<F: Field>(value: &Option<F::Value>, into: &mut [u8], at: usize) -> usize
    requires { at ≤ length into.old }
    ensures { Writes into.old at into.new result (optional_spelled F.format.spell value.now) }
{
    match value {
        None => put_number(into, at, 1, 0),
        Some(value) => {
            let after = put_number(into, at, 1, 1);
            F::write(value, into, after)
        }
    }
}

/// Writes values, one after the other.
pub fn put_items<F: Field>(values: &[F::Value], into: &mut [u8], at: usize) -> usize
    requires { at ≤ length into.old }
    ensures { Writes into.old at into.new result (flat_map F.format.spell values.now) }
{
    let mut end = at;
    for value in values {
        end = F::write(value, into, end);
    }
    end
}

/// Writes a list after its count in two bytes. A list of more than 65,535 values isn't legal, and isn't read again.
pub fn put_short_list<F: Field>(values: &List<F::Value>, into: &mut [u8], at: usize) -> usize
    requires { at ≤ length into.old }
    ensures { Writes into.old at into.new result (listed_spelled (number_spelled 2) F.format.spell values.now) }
{
    let after = put_number(into, at, 2, values.len() as u64);
    put_items::<F>(values.as_slice(), into, after)
}

/// Writes a list after its count in four bytes. A list of 2^32 values or more isn't legal, and isn't read again.
pub fn put_long_list<F: Field>(values: &List<F::Value>, into: &mut [u8], at: usize) -> usize
    requires { at ≤ length into.old }
    ensures { Writes into.old at into.new result (listed_spelled (number_spelled 4) F.format.spell values.now) }
{
    let after = put_number(into, at, 4, values.len() as u64);
    put_items::<F>(values.as_slice(), into, after)
}
