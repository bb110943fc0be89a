//! Reading the parts of an image as far as they have come.

ghost use Rattle.std.specs.Prelude.{◌≡◌, ◌≢◌, ◌⊎◌, ◌+◌, ◌++◌, List as Items, ℕ, length, IfOk, Ok, Err};
ghost use Rattle.record_fields.specs.declared.flaw.FieldFault.TheVariants.{Flawed as FlawedFault};
ghost use Rattle.record_fields.specs.declared.flaw.Flaw.TheVariants.{Truncated as TruncatedFlaw, Illegal as IllegalFlaw};
ghost use Rattle.record_fields.specs.Formats.{items_at};
ghost use Rattle.record_fields.specs.Laws.{Exact};
ghost use Rattle.record_fields.specs.Pieces.{with_front};
ghost use Rattle.image_codec.specs.Sections.{items_of, start_of};

use crate::jobs::JobField;
use crate::logs::{ActField, AuditField};
use crate::nodes::NodeField;
use crate::objects::{AutoField, ExceptField, GroupField, QuotaField, ScreenField, TemplateField};
use crate::section::Section;
use fsrm_base::List;
use fsrm_model::Rows;
use record_fields::{Field, FieldFault, Flaw, Reader, feed};
use std::alloc::Global;

/// Reads the rows of a section that have come whole, of so many that are still to come. Answers how many are still to
/// come then, the bytes of the next one, and how many of these are left from the field on that is cut short.
pub fn feed_section<'a>(
    alloc: Global,
    rows: &mut Rows,
    section: Section,
    still: usize,
    bytes: &'a [u8],
) -> Result<(usize, &'a [u8], usize), FieldFault>
    ensures goes_on { IfOk result (λ r. (more : Items ℕ) → items_of section rows.new r.0 (r.1.now ++ more) ≡ items_of section rows.old still (bytes.now ++ more)) }
    ensures stops { IfOk result (λ r. (r.0 ≡ 0) ⊎ (items_of section rows.new r.0 r.1.now ≡ Err (TruncatedFlaw r.2))) }
    ensures only { (left : ℕ) → result ≢ Err (FlawedFault (TruncatedFlaw left)) }
    ensures flaw { (left : ℕ) → result ≡ Err (FlawedFault (IllegalFlaw left)) → (more : Items ℕ) → items_of section rows.old still (bytes.now ++ more) ≡ Err (IllegalFlaw (left + length more)) }
{
    match section {
        Section::Start => Ok(feed_start(rows, still, bytes)),
        Section::Nodes => feed_rows::<NodeField>(alloc, &mut rows.nodes, still, bytes),
        Section::Quotas => feed_rows::<QuotaField>(alloc, &mut rows.quotas, still, bytes),
        Section::Templates => feed_rows::<TemplateField>(alloc, &mut rows.templates, still, bytes),
        Section::Autos => feed_rows::<AutoField>(alloc, &mut rows.autos, still, bytes),
        Section::Groups => feed_rows::<GroupField>(alloc, &mut rows.groups, still, bytes),
        Section::Screens => feed_rows::<ScreenField>(alloc, &mut rows.screens, still, bytes),
        Section::Excepts => feed_rows::<ExceptField>(alloc, &mut rows.excepts, still, bytes),
        Section::Jobs => feed_rows::<JobField>(alloc, &mut rows.jobs, still, bytes),
        Section::Acts => feed_rows::<ActField>(alloc, &mut rows.acts, still, bytes),
        Section::Audits => feed_rows::<AuditField>(alloc, &mut rows.audits, still, bytes),
    }
}

// What comes first has no field that isn't legal.
fn feed_start<'a>(rows: &mut Rows, still: usize, bytes: &'a [u8]) -> (usize, &'a [u8], usize)
    ensures goes_on { (more : Items ℕ) → start_of rows.new result.0 (result.1.now ++ more) ≡ start_of rows.old still (bytes.now ++ more) }
    ensures stops { (result.0 ≡ 0) ⊎ (start_of rows.new result.0 result.1.now ≡ Err (TruncatedFlaw result.2)) }
{
    if still == 0 {
        return (0, bytes, 0);
    }
    let mut reader = Reader::new(bytes);
    let Ok(last_moment) = reader.read_u64() else {
        return (still, bytes, bytes.len());
    };
    let left = reader.left();
    let Ok(run_limit) = reader.read_u32() else {
        return (still, bytes, left);
    };
    rows.last_moment = last_moment;
    rows.run_limit = run_limit;
    (0, reader.rest(), 0)
}

// As `feed`, and tells where the next value is cut short.
fn feed_rows<'a, F: Field>(
    alloc: Global,
    items: &mut List<F::Value>,
    still: usize,
    bytes: &'a [u8],
) -> Result<(usize, &'a [u8], usize), FieldFault>
    requires exact { Exact F.format }
    ensures goes_on { IfOk result (λ r. (more : Items ℕ) → with_front items.new (items_at F.format r.0 (r.1.now ++ more)) ≡ with_front items.old (items_at F.format still (bytes.now ++ more))) }
    ensures stops { IfOk result (λ r. (r.0 ≡ 0) ⊎ (items_at F.format r.0 r.1.now ≡ Err (TruncatedFlaw r.2))) }
    ensures only { (left : ℕ) → result ≢ Err (FlawedFault (TruncatedFlaw left)) }
    ensures flaw { (left : ℕ) → result ≡ Err (FlawedFault (IllegalFlaw left)) → (more : Items ℕ) → with_front items.old (items_at F.format still (bytes.now ++ more)) ≡ Err (IllegalFlaw (left + length more)) }
{
    let (still, rest) = feed::<F>(alloc, items, still, bytes)?;
    if still == 0 {
        return Ok((0, rest, 0));
    }
    let mut reader = Reader::new(rest);
    match F::read(alloc, &mut reader) {
        Err(FieldFault::Flawed(Flaw::Truncated { left })) => Ok((still, rest, left)),
        Err(FieldFault::NoMemory) => Err(FieldFault::NoMemory),
        Err(FieldFault::Flawed(Flaw::Illegal { left: _ })) | Ok(_) => unreachable!(),
    }
}
