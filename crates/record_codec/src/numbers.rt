//! Numbers in their ranges. Each has eight bytes.

ghost use Rattle.record_fields.specs.Formats.{number_within};
ghost use Rattle.record_codec.specs.Fields.{percent};

use fsrm_model::limits::{
    GREATEST_LIMIT, GREATEST_PERCENT, LAST_OWNER, LATEST_MOMENT, LEAST_LIMIT, LONGEST_FILE,
    MOST_DAYS, MOST_ROWS, MOST_USE,
};
use record_fields::{Field, FieldFault, Reader, put_u64};
use std::alloc::Global;

/// A number from `LOW` to `HIGH`.
pub struct NumberField<const LOW: u64, const HIGH: u64>;

impl<const LOW: u64, const HIGH: u64> Field for NumberField<LOW, HIGH> {
    type Value = u64;

    ghost format = { number_within 8 LOW HIGH };

    fn read(_alloc: Global, reader: &mut Reader<'_>) -> Result<u64, FieldFault> {
        Ok(reader.read_u64_within(LOW, HIGH)?)
    }

    fn write(value: &u64, into: &mut [u8], at: usize) -> usize {
        put_u64(into, at, *value)
    }
}

/// A moment.
pub type MomentField = NumberField<0, LATEST_MOMENT>;

/// The length of a file.
pub type LengthField = NumberField<0, LONGEST_FILE>;

/// A limit of a quota.
pub type LimitField = NumberField<LEAST_LIMIT, GREATEST_LIMIT>;

/// A number from `LOW` to `HIGH` that is held in 32 bits.
pub struct SmallNumberField<const LOW: u32, const HIGH: u32>;

impl<const LOW: u32, const HIGH: u32> Field for SmallNumberField<LOW, HIGH> {
    type Value = u32;

    ghost format = { number_within 8 LOW HIGH };

    fn read(_alloc: Global, reader: &mut Reader<'_>) -> Result<u32, FieldFault> {
        let number = reader.read_u64_within(LOW as u64, HIGH as u64)?;
        Ok(number as u32)
    }

    fn write(value: &u32, into: &mut [u8], at: usize) -> usize {
        put_u64(into, at, *value as u64)
    }
}

const LAST_FOLDER: u32 = u32::MAX;

/// The number of a folder.
pub type FolderField = SmallNumberField<0, LAST_FOLDER>;

/// The number of an owner.
pub type OwnerField = SmallNumberField<1, LAST_OWNER>;

/// How many days a report looks back.
pub type DaysField = SmallNumberField<0, MOST_DAYS>;

/// The least percentage of a limit that a report shows.
pub type LeastUseField = SmallNumberField<0, MOST_USE>;

/// How many rows a report has at most.
pub type RowCountField = SmallNumberField<1, MOST_ROWS>;

/// A percentage of a limit.
pub struct PercentField;

impl Field for PercentField {
    type Value = u16;

    ghost format = { percent };

    fn read(_alloc: Global, reader: &mut Reader<'_>) -> Result<u16, FieldFault> {
        let number = reader.read_u64_within(1, GREATEST_PERCENT as u64)?;
        Ok(number as u16)
    }

    fn write(value: &u16, into: &mut [u8], at: usize) -> usize {
        put_u64(into, at, *value as u64)
    }
}
