//! Reading an image as far as it has come.

ghost use Rattle.std.specs.Prelude.{◌≡◌, ◌≢◌, ◌+◌, ◌++◌, List as Items, ℕ, length, IfOk, Err};
ghost use Rattle.record_fields.specs.declared.flaw.FieldFault.TheVariants.{Flawed as FlawedFault};
ghost use Rattle.record_fields.specs.declared.flaw.Flaw.TheVariants.{Truncated as TruncatedFlaw, Illegal as IllegalFlaw};
ghost use Rattle.image_codec.specs.Sections.{resume, Pauses};

use crate::section::Section;
use crate::sections::feed_section;
use fsrm_model::Rows;
use record_fields::{FieldFault, Reader};
use std::alloc::Global;

/// Where reading stands.
#[derive(Clone, Copy)]
pub struct Pause<'a> {
    /// The section that is read.
    pub section: Section,
    /// How many of its rows are still to come.
    pub still: usize,
    /// The bytes that aren't read.
    pub rest: &'a [u8],
    /// How many of these are left from the field on that is cut short. None at the end of the image.
    pub cut: Option<usize>,
}

/// Reads all that has come whole, of an image of which all before a section was read, and of the section all but so
/// many rows.
pub fn go_on<'a>(
    alloc: Global,
    rows: &mut Rows,
    mut section: Section,
    mut still: usize,
    bytes: &'a [u8],
) -> Result<Pause<'a>, FieldFault>
    ensures goes_on { IfOk result (λ p. (more : Items ℕ) → resume p.section rows.new p.still (p.rest.now ++ more) ≡ resume section rows.old still (bytes.now ++ more)) }
    ensures pauses { IfOk result (λ p. Pauses p.section rows.new p.still p.rest.now p.cut) }
    ensures only { (left : ℕ) → result ≢ Err (FlawedFault (TruncatedFlaw left)) }
    ensures flaw { (left : ℕ) → result ≡ Err (FlawedFault (IllegalFlaw left)) → (more : Items ℕ) → resume section rows.old still (bytes.now ++ more) ≡ Err (IllegalFlaw (left + length more)) }
{
    let mut rest = bytes;
    'sections: loop {
        let (more, after, left) = feed_section(alloc, rows, section, still, rest)?;
        if more > 0 {
            return Ok(Pause {
                section,
                still: more,
                rest: after,
                cut: Some(left),
            });
        }
        let Some(next) = section.next() else {
            return Ok(Pause {
                section,
                still: 0,
                rest: after,
                cut: None,
            });
        };
        let mut reader = Reader::new(after);
        let Ok(count) = reader.read_u32() else {
            return Ok(Pause {
                section,
                still: 0,
                rest: after,
                cut: Some(after.len()),
            });
        };
        section = next;
        still = count as usize;
        rest = reader.rest();
    }
}
