//! Reading a list from bytes that come in pieces.

ghost use Rattle.std.specs.Prelude.{◌≡◌, ◌≢◌, ◌⊎◌, ◌+◌, ◌++◌, List as Items, ℕ, length, IfOk, Ok, Err};
ghost use Rattle.record_fields.specs.declared.flaw.FieldFault.TheVariants.{Flawed as FlawedFault};
ghost use Rattle.record_fields.specs.declared.flaw.Flaw.TheVariants.{Truncated as TruncatedFlaw, Illegal as IllegalFlaw};
ghost use Rattle.record_fields.specs.Formats.{items_at};
ghost use Rattle.record_fields.specs.Laws.{Exact};
ghost use Rattle.record_fields.specs.Pieces.{with_front};

use crate::fields::Field;
use crate::flaw::{FieldFault, Flaw};
use crate::reader::Reader;
use fsrm_base::List;
use std::alloc::Global;

/// Reads as many of the next `count` values as the bytes hold whole, and adds them to those that are there. Answers how
/// many are still to come, and the bytes of the next one that are there already: the caller holds these, and puts them
/// before the next piece. A value that is cut short is no flaw here, since it may go on in the next piece; one that
/// isn't legal is, and then what `items` holds isn't said.
pub fn feed<'a, F: Field>(
    alloc: Global,
    items: &mut List<F::Value>,
    count: usize,
    bytes: &'a [u8],
) -> Result<(usize, &'a [u8]), FieldFault>
    requires exact { Exact F.format }
    // Whatever follows, all values are those that are there now, and those that are read of the rest and what follows.
    ensures goes_on { IfOk result (λ r. (more : Items ℕ) → with_front items.new (items_at F.format r.0 (r.1.now ++ more)) ≡ with_front items.old (items_at F.format count (bytes.now ++ more))) }
    // It stops only where the next value isn't there whole.
    ensures stops { IfOk result (λ r. (r.0 ≡ 0) ⊎ ((n : ℕ) × (F.format.read r.1.now ≡ Err (TruncatedFlaw n)))) }
    // No other flaw is told than a field that isn't legal.
    ensures only { (left : ℕ) → result ≢ Err (FlawedFault (TruncatedFlaw left)) }
    // That is the flaw of all the values, whatever follows.
    ensures flaw { (left : ℕ) → result ≡ Err (FlawedFault (IllegalFlaw left)) → (more : Items ℕ) → with_front items.old (items_at F.format count (bytes.now ++ more)) ≡ Err (IllegalFlaw (left + length more)) }
{
    let mut rest = bytes;
    let mut still = count;
    while still > 0 {
        let mut reader = Reader::new(rest);
        match F::read(alloc, &mut reader) {
            Ok(value) => {
                items.push(value)?;
                rest = reader.rest();
                still -= 1;
            }
            Err(FieldFault::Flawed(Flaw::Truncated { left: _ })) => return Ok((still, rest)),
            Err(FieldFault::Flawed(Flaw::Illegal { left })) => {
                return Err(FieldFault::Flawed(Flaw::Illegal { left }));
            }
            Err(FieldFault::NoMemory) => return Err(FieldFault::NoMemory),
        }
    }
    Ok((0, rest))
}
