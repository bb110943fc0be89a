//! What reports are asked for: their kinds, and which rows they have.

ghost use Rattle.std.specs.Prelude.{◌≡◌, ◌≤◌, true, length};
ghost use Rattle.record_fields.specs.Readers.{Gives};
ghost use Rattle.record_fields.specs.Writers.{Writes};
ghost use Rattle.record_codec.specs.Fields.{report_kind};
ghost use Rattle.record_codec.specs.Filters.{filter as filter_format, filter_typed};

use crate::fields::PatternField;
use crate::numbers::{DaysField, LeastUseField, LengthField, OwnerField, RowCountField};
use crate::typed::{OwnText, put_some};
use fsrm_model::{Filter, ReportKind};
use record_fields::{
    Field, FieldFault, Flaw, Reader, put_optional, put_u8, put_u64, read_optional,
};
use std::alloc::Global;

/// What a report is about.
pub struct ReportKindField;

impl Field for ReportKindField {
    type Value = ReportKind;

    ghost format = { report_kind };

    #[tactic(auto, unfolding(record_fields::specs::Formats::known_at))]
    fn read(_alloc: Global, reader: &mut Reader<'_>) -> Result<ReportKind, FieldFault> {
        let left = reader.left();
        match reader.read_u8()? {
            1 => Ok(ReportKind::LargeFiles),
            2 => Ok(ReportKind::FilesByType),
            3 => Ok(ReportKind::LeastRecentlyAccessed),
            4 => Ok(ReportKind::MostRecentlyAccessed),
            5 => Ok(ReportKind::QuotaUsage),
            6 => Ok(ReportKind::FilesByOwner),
            7 => Ok(ReportKind::DuplicateFiles),
            8 => Ok(ReportKind::FileScreenAudit),
            _ => Err(FieldFault::Flawed(Flaw::Illegal { left })),
        }
    }

    fn write(value: &ReportKind, into: &mut [u8], at: usize) -> usize {
        let code = match *value {
            ReportKind::LargeFiles => 1,
            ReportKind::FilesByType => 2,
            ReportKind::LeastRecentlyAccessed => 3,
            ReportKind::MostRecentlyAccessed => 4,
            ReportKind::QuotaUsage => 5,
            ReportKind::FilesByOwner => 6,
            ReportKind::DuplicateFiles => 7,
            ReportKind::FileScreenAudit => 8,
        };
        put_u8(into, at, code)
    }
}

#[tactic(auto, unfolding(record_fields::specs::Formats::known_at))]
pub fn read_filter(alloc: Global, reader: &mut Reader<'_>) -> Result<Filter, FieldFault>
    ensures { Gives result reader.new (filter_format.read reader.old) }
{
    let owner = read_optional::<OwnerField>(alloc, reader, false)?;
    let pattern = read_optional::<PatternField>(alloc, reader, false)?;
    let min_size = read_optional::<LengthField>(alloc, reader, false)?;
    let days = read_optional::<DaysField>(alloc, reader, false)?;
    let min_use = read_optional::<LeastUseField>(alloc, reader, false)?;
    let max = RowCountField::read(alloc, reader)?;
    Ok(Filter {
        owner,
        pattern,
        min_size,
        days,
        min_use,
        max,
    })
}

pub fn put_filter(filter: &Filter, into: &mut [u8], at: usize) -> usize
    requires { at ≤ length into.old }
    ensures written { Writes into.old at into.new result (filter_format.spell filter.now) }
    ensures typed { filter_typed filter.now ≡ true }
{
    let owner_end = put_optional::<OwnerField>(&filter.owner, into, at);
    let pattern_end = put_some::<OwnText>(&filter.pattern, into, owner_end);
    let size_end = put_optional::<LengthField>(&filter.min_size, into, pattern_end);
    let days_end = put_optional::<DaysField>(&filter.days, into, size_end);
    let use_end = put_optional::<LeastUseField>(&filter.min_use, into, days_end);
    put_u64(into, use_end, filter.max as u64)
}
