//! Texts that slide down over others.

ghost use Rattle.std.specs.Prelude.{◌≡◌, ◌+◌, ◌-◌, ◌<◌, ◌≤◌, ◌++◌, drop, filter, length, take};
ghost use Rattle.std.specs.Vec.{vec_capacity};
ghost use Rattle.name_region.specs.Log.{AreEnds, is_kept, stored_in};

use crate::log::{NO_KEY, Record};

// Moves bytes down to a place, over what stands there.
fn slide(block: &mut Vec<u8>, from: usize, end: usize, to: usize)
    requires down { to ≤ from }
    requires from { from ≤ end }
    requires end { end ≤ length block.old.items }
    ensures capacity { vec_capacity block.new ≡ vec_capacity block.old }
    ensures size { length block.new.items ≡ length block.old.items }
    ensures front { take (to + (end - from)) block.new.items ≡ take to block.old.items ++ take (end - from) (drop from block.old.items) }
    ensures rest { drop end block.new.items ≡ drop end block.old.items }
{
    block.copy_within(from..end, to);
}

/// Slides the texts down that weren't released, each to the end of the one before it.
pub fn gather_texts(records: &mut Vec<Record>, block: &mut Vec<u8>)
    requires ends { AreEnds 0 records.old.items (length block.old.items) }
    requires small { length block.old.items < 4294967296 }
    ensures stored { stored_in 0 records.new.items block.new.items ≡ filter is_kept (stored_in 0 records.old.items block.old.items) }
    ensures ends { AreEnds 0 records.new.items (length block.new.items) }
    ensures size { length block.new.items ≤ length block.old.items }
    ensures count { length records.new.items ≤ length records.old.items }
    ensures block_capacity { vec_capacity block.new ≡ vec_capacity block.old }
    ensures records_capacity { vec_capacity records.new ≡ vec_capacity records.old }
{
    let mut kept = 0;
    let mut from = 0;
    let mut to = 0;
    for index in 0..records.len() {
        let Record { key, end } = records[index];
        let end = end as usize;
        if key != NO_KEY {
            slide(block, from, end, to);
            to += end - from;
            records[kept] = Record {
                key,
                end: to as u32,
            };
            kept += 1;
        }
        from = end;
    }
    records.truncate(kept);
    block.truncate(to);
}
