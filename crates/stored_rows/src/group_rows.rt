//! The table of file groups.

ghost use Rattle.std.specs.Prelude.{◌≡◌, ◌≤◌, [], true, IfOk, IfErr, IsErrOf, OnOk};
ghost use Rattle.file_groups.specs.Kept.{group_texts};
ghost use Rattle.fsrm_model.specs.store.Valid.{are_groups};
ghost use Rattle.fsrm_model.specs.values.Limits.{most_text_bytes};
ghost use Rattle.fsrm_model.specs.values.Patterns.{are_apart};
ghost use Rattle.row_rules.specs.Kept.{are_numbered_groups};

use file_groups::{GroupFault, Groups};
use fsrm_model::limits::MOST_TEXT_BYTES;
use fsrm_model::{Duplicate, GroupRow};
use std::alloc::Global;
use volume_tree::RowsFault;

/// A table of these groups. They are bad only if two of them have one name, or their texts are longer than all texts may
/// be.
pub fn groups_of(alloc: Global, rows: &[GroupRow]) -> Result<Groups, RowsFault>
    requires { are_numbered_groups rows.now ≡ true }
    ensures ok { IfOk result (λ groups. groups ≡ rows.now) }
    ensures may { OnOk result (are_groups rows.now ≡ true) }
    ensures bad { IsErrOf result RowsFault.BadRows → are_apart rows.now ≡ true → group_texts rows.now ≤ most_text_bytes → ⊥ }
{
    let mut groups = Groups::new(alloc);
    match put_groups(&mut groups, alloc, rows) {
        Ok(()) => Ok(groups),
        Err(GroupFault::NoMemory) => Err(RowsFault::NoMemory),
        Err(_) => Err(RowsFault::BadRows),
    }
}

// Puts groups into a table that has none.
fn put_groups(groups: &mut Groups, alloc: Global, rows: &[GroupRow]) -> Result<(), GroupFault>
    requires none { groups.old ≡ [] }
    requires rows { are_numbered_groups rows.now ≡ true }
    ensures ok { OnOk result (groups.new ≡ rows.now) }
    ensures may { OnOk result (are_groups rows.now ≡ true) }
    ensures only { IfErr result (λ fault. are_apart rows.now ≡ true → group_texts rows.now ≤ most_text_bytes → fault ≡ GroupFault.NoMemory) }
{
    for row in rows {
        groups.put(row.copy(alloc)?, MOST_TEXT_BYTES)?;
    }
    Ok(())
}
