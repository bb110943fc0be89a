//! Which files may have a double: those whose slot another file takes, too. Most files have a slot of their own, and need
//! no key.

ghost use Rattle.std.specs.Prelude.{◌≡◌, ℕ, ◌<◌, ◌==◌, chars, map, if◌then◌else◌, IfOk};
ghost use Rattle.std.specs.Char.{to_ascii_lowercase};
ghost use Rattle.node_table.specs.Views.{seen};
ghost use Rattle.fsrm_model.specs.reports.Reports.{folded_text};
ghost use Rattle.storage_reports.specs.Doubles.{may_double, mixed, mixed_with, once_more, slot_of, times};

use crate::type_text::folded_name;
use fsrm_model::NoMemory;
use number_set::NumberSet;
use std::alloc::Global;
use volume_tree::NodeView;

// The prime of the hashes of Fowler, Noll and Vo.
const PRIME: u64 = 1_099_511_628_211;

// The lower half of a number picks a slot: a remainder of 32 bits is found sooner than one of 64.
const HALF: u64 = 1 << 32;

#[inline]
fn mix(hash: u64, word: u64) -> u64
    ensures { result ≡ mixed_with hash word }
{
    hash.wrapping_mul(PRIME).wrapping_add(word)
}

fn mix_bytes(hash: u64, bytes: &[u8]) -> u64
    ensures { result ≡ mixed hash bytes.now }
{
    let mut mixed = hash;
    for byte in bytes {
        mixed = mix(mixed, u64::from(*byte));
    }
    mixed
}

// Bytes of ASCII, each in lower case.
fn mix_lower(hash: u64, bytes: &[u8]) -> u64
    ensures { result ≡ mixed hash (map to_ascii_lowercase bytes.now) }
{
    let mut mixed = hash;
    for byte in bytes {
        mixed = mix(mixed, u64::from(byte.to_ascii_lowercase()));
    }
    mixed
}

// The folded text of a name. Most names need no text of their own for it.
fn mix_name(alloc: Global, hash: u64, name: &str) -> Result<u64, NoMemory>
    ensures { IfOk result (λ made. made ≡ mixed hash (folded_text (chars name.now))) }
{
    if name.is_ascii() {
        return Ok(mix_lower(hash, name.as_bytes()));
    }
    let text = folded_name(alloc, name)?;
    Ok(mix_bytes(hash, text.as_bytes()))
}

/// The slot that a file takes, of so many.
pub fn slot_of(alloc: Global, node: &NodeView<'_>, slots: u32) -> Result<u32, NoMemory>
    requires { 0 < slots }
    ensures slot { IfOk result (λ slot. slot ≡ slot_of slots (seen node.now)) }
    ensures within { IfOk result (λ slot. slot < slots) }
{
    let start = mix(mix(0, node.length), node.modified);
    let hash = mix_name(alloc, start, node.name)?;
    Ok((hash % HALF) as u32 % slots)
}

/// Takes a slot once more: it is shared if it was taken before.
pub fn take_slot(slot: u32, taken: &mut NumberSet, shared: &mut NumberSet)
    requires taken { slot < taken.old.bound }
    requires shared { slot < shared.old.bound }
    ensures times { (n : ℕ) → times taken.new shared.new n ≡ (if slot == n then once_more (times taken.old shared.old n) else times taken.old shared.old n) }
    ensures taken_bound { taken.new.bound ≡ taken.old.bound }
    ensures shared_bound { shared.new.bound ≡ shared.old.bound }
{
    if taken.contains(slot) {
        shared.insert(slot);
    } else {
        taken.insert(slot);
    }
}

/// Whether a file may have a double: its slot is shared.
pub fn may_double(alloc: Global, shared: &NumberSet, node: &NodeView<'_>) -> Result<bool, NoMemory>
    requires { 0 < shared.now.bound }
    ensures { IfOk result (λ may. may ≡ may_double shared.now (seen node.now)) }
{
    let slot = slot_of(alloc, node, shared.bound())?;
    Ok(shared.contains(slot))
}
