//! What groups of files come to.

ghost use Rattle.std.specs.Prelude.{◌≡◌, ◌+◌, ◌<◌, ◌^◌, OnOk, OnErr, IfOk, map, unwrap_or};
ghost use Rattle.std.specs.Map.{lookup};
ghost use Rattle.indexmap.specs.IndexMap.{insert_entry};
ghost use Rattle.storage_reports.specs.Files.{no_files, with_file};

use fsrm_model::{NoMemory, Sums};
use indexmap::IndexMap;
use std::hash::Hash;

fn no_files() -> Sums
    ensures { result ≡ no_files }
{
    Sums {
        first: 0,
        files: 0,
        lengths: 0,
        alloc: 0,
    }
}

fn with_file(sums: Sums, number: u32, length: u64, alloc: u64) -> Sums
    requires files { sums.files + 1 < 2 ^ 64 }
    requires lengths { sums.lengths + length < 2 ^ 64 }
    requires alloc { sums.alloc + alloc < 2 ^ 64 }
    ensures { result ≡ with_file sums number length alloc }
{
    Sums {
        first: if sums.files == 0 { number } else { sums.first },
        files: sums.files + 1,
        lengths: sums.lengths + length,
        alloc: sums.alloc + alloc,
    }
}

/// What the group of a key came to so far: nothing if it is new.
pub fn sums_of<K: Hash + Eq>(groups: &IndexMap<K, Sums>, key: &K) -> Sums
    ensures { result ≡ unwrap_or (lookup (K.eq key.now) groups.now.entries) no_files }
{
    match groups.get(key) {
        Some(sums) => *sums,
        None => no_files(),
    }
}

/// Adds a file to the group of a key. If memory runs out the groups stay.
pub fn add_file<K: Hash + Eq + Drop>(
    groups: &mut IndexMap<K, Sums>,
    key: K,
    number: u32,
    length: u64,
    alloc: u64,
) -> Result<(), NoMemory>
    requires files { (unwrap_or (lookup (K.eq key) groups.old.entries) no_files).files + 1 < 2 ^ 64 }
    requires lengths { (unwrap_or (lookup (K.eq key) groups.old.entries) no_files).lengths + length < 2 ^ 64 }
    requires alloc { (unwrap_or (lookup (K.eq key) groups.old.entries) no_files).alloc + alloc < 2 ^ 64 }
    ensures added { OnOk result (groups.new.entries ≡ insert_entry K.eq groups.old.entries key (with_file (unwrap_or (lookup (K.eq key) groups.old.entries) no_files) number length alloc)) }
{
    let sums = with_file(sums_of(groups, &key), number, length, alloc);
    groups.insert(key, sums)?;
    Ok(())
}
