//! The record in bytes that were read ahead.

ghost use Rattle.std.specs.Prelude.{◌≡◌, ◌⊎◌, ◌≤◌, ◌<◌, ◌+◌, ◌^◌, ℕ, List, length, drop, slice_index, Err, IfOk, IfSome, OnErr};
ghost use Rattle.byteorder.specs.Endian.{little_number};
ghost use Rattle.fsrm_model.specs.values.Limits.{longest_entry};
ghost use Rattle.fsrm_journal.specs.Next.{record_at, Tells};
ghost use Rattle.fsrm_journal.specs.Ahead.{AreEnough, StandThere};
ghost use Rattle.fsrm_journal.specs.declared.fault.JournalFault.TheVariants.{Damaged};

use crate::fault::JournalFault;
use byteorder::{ByteOrder, LittleEndian};
use fsrm_model::limits::LONGEST_ENTRY;
use fsrm_outside::Part;

/// The place and the length of the body of the record that stands at a place of the half that rules, which is so long,
/// or none at a closed gate. The bytes are those from there on, enough of them for the longest record, unless the half
/// ends.
pub fn record_in(
    bytes: &[u8],
    ruling: Part,
    len: u64,
    place: u64,
) -> Result<Option<(u64, usize)>, JournalFault>
    requires place { place ≤ 2 ^ 62 }
    requires len { len ≤ 2 ^ 62 }
    ensures tells { (half : List ℕ) → len ≡ length half → StandThere half place bytes.now → AreEnough half place bytes.now → Tells ruling (record_at half place) result }
    ensures only { OnErr result ((at : ℕ) × (result ≡ Err (Damaged ruling at))) }
    ensures there { IfOk result (λ found. IfSome found (λ at. (at.0 ≡ place + 5) × (at.0 + at.1 ≤ len))) }
    ensures size { IfOk result (λ found. IfSome found (λ at. (1 ≤ at.1) × (at.1 ≤ longest_entry))) }
    ensures whole { IfOk result (λ found. IfSome found (λ at. at.1 + 5 ≤ length bytes.now)) }
{
    if place >= len || bytes.is_empty() {
        return Err(damaged(ruling, place));
    }
    if bytes[0] != 1 {
        return Ok(None);
    }
    if len < place + 5 || bytes.len() < 5 {
        return Err(damaged(ruling, place + 1));
    }
    let size = LittleEndian::read_u32(&bytes[1..]);
    if size < 1 || size > LONGEST_ENTRY as u32 {
        return Err(damaged(ruling, place + 1));
    }
    let (body, size) = (place + 5, size as usize);
    if len - body < size as u64 || bytes.len() - 5 < size {
        return Err(damaged(ruling, body));
    }
    Ok(Some((body, size)))
}

/// The damage at a place.
fn damaged(part: Part, place: u64) -> JournalFault
    ensures { result ≡ Damaged part place }
{
    JournalFault::Damaged { part, place }
}
