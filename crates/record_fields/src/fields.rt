//! Fields by their kinds. A kind is a type without values, which tells how values of another type are read and written,
//! so that lists and optional values are read and written by one function for all.

ghost use Rattle.std.specs.Prelude.{◌≡◌, ◌≤◌, length};
ghost use Rattle.record_fields.specs.Formats.{Format, number, text, truth};
ghost use Rattle.record_fields.specs.Readers.{Gives};
ghost use Rattle.record_fields.specs.Writers.{Writes};

use crate::flaw::FieldFault;
use crate::reader::Reader;
use crate::writer::{put_text, put_truth, put_u8, put_u16, put_u32, put_u64};
use fsrm_base::Text;
use std::alloc::Global;

/// How a value is read and written.
pub trait Field {
    /// What is read and written.
    type Value: Drop;

    ghost format: { Format Self.Value };

    /// Reads the value that the bytes begin with, and takes it off them.
    fn read(alloc: Global, reader: &mut Reader<'_>) -> Result<Self::Value, FieldFault>
        ensures { Gives result reader.new (format.read reader.old) };

    /// Writes a value at a place, as far as there is room, and answers the place after it.
    fn write(value: &Self::Value, into: &mut [u8], at: usize) -> usize
        requires { at ≤ length into.old }
        ensures { Writes into.old at into.new result (format.spell value.now) };
}

/// A number in one byte.
pub struct U8Field;

impl Field for U8Field {
    type Value = u8;

    ghost format = { number 1 };

    fn read(_alloc: Global, reader: &mut Reader<'_>) -> Result<u8, FieldFault> {
        Ok(reader.read_u8()?)
    }

    fn write(value: &u8, into: &mut [u8], at: usize) -> usize {
        put_u8(into, at, *value)
    }
}

/// A number in two bytes.
pub struct U16Field;

impl Field for U16Field {
    type Value = u16;

    ghost format = { number 2 };

    fn read(_alloc: Global, reader: &mut Reader<'_>) -> Result<u16, FieldFault> {
        Ok(reader.read_u16()?)
    }

    fn write(value: &u16, into: &mut [u8], at: usize) -> usize {
        put_u16(into, at, *value)
    }
}

/// A number in four bytes.
pub struct U32Field;

impl Field for U32Field {
    type Value = u32;

    ghost format = { number 4 };

    fn read(_alloc: Global, reader: &mut Reader<'_>) -> Result<u32, FieldFault> {
        Ok(reader.read_u32()?)
    }

    fn write(value: &u32, into: &mut [u8], at: usize) -> usize {
        put_u32(into, at, *value)
    }
}

/// A number in eight bytes.
pub struct U64Field;

impl Field for U64Field {
    type Value = u64;

    ghost format = { number 8 };

    fn read(_alloc: Global, reader: &mut Reader<'_>) -> Result<u64, FieldFault> {
        Ok(reader.read_u64()?)
    }

    fn write(value: &u64, into: &mut [u8], at: usize) -> usize {
        put_u64(into, at, *value)
    }
}

/// A truth value, in one byte.
pub struct TruthField;

impl Field for TruthField {
    type Value = bool;

    ghost format = { truth };

    fn read(_alloc: Global, reader: &mut Reader<'_>) -> Result<bool, FieldFault> {
        Ok(reader.read_truth()?)
    }

    fn write(value: &bool, into: &mut [u8], at: usize) -> usize {
        put_truth(into, at, *value)
    }
}

/// A text, after its length in two bytes.
pub struct TextField;

impl Field for TextField {
    type Value = Text;

    ghost format = { text };

    fn read(alloc: Global, reader: &mut Reader<'_>) -> Result<Text, FieldFault> {
        let text = reader.read_text()?;
        Ok(Text::from_str(alloc, text)?)
    }

    fn write(value: &Text, into: &mut [u8], at: usize) -> usize {
        put_text(into, at, value.as_str())
    }
}
