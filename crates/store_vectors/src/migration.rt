//! A store of version 1, which a checkpoint makes one of version 2.

ghost use Rattle.std.specs.Prelude.{◌≡◌};

use crate::halves::{changed, half_with_folder, is_closed};
use crate::opening::{Task, open};
use crate::taking::checkpoint;
use fsrm_model::{Ledger, Steps, Weightless};
use fsrm_outside::{Disk, MemoryOutside, Part};
use fsrm_store::{Store, StoreFault};
use std::alloc::Global;
use std::marker::Brand;
use std::process::Abort;
use std::sync::ledger::{Blank, Ledger as Named};
use std::test::Fail;

// A store that is old gives the other half an image, and is old no more. `NoMemory` if it isn't so.
#[derive(Drop)]
struct Renew;

impl Task for Renew {
    fn run<D: Disk, L: Ledger>(
        &mut self,
        _alloc: Global,
        store: &mut Store,
        disk: &mut D,
        steps: &mut Steps<L>,
    ) -> Result<(), StoreFault> {
        let was_old = store.old();
        checkpoint(store, disk, steps)?;
        if !was_old || store.old() {
            return Err(StoreFault::NoMemory);
        }
        Ok(())
    }
}

// The head of the new half: generation 2, version 2, and an image of 147 bytes.
const HEAD: &[u8] =
    b"\x01\0\0\0\0\0\0\0FSRMHALF\x02\0\0\0\0\0\0\0\x02\0\0\0\0\0\x01\0\0\0\x40\0\0\x10\0\0\x93\0\0\0\0\0\0\0";

fn is_renewed<L: Ledger>(alloc: Global, old: &[u8], steps: &mut Steps<L>) -> bool {
    let Ok(mut disk) = MemoryOutside::with_parts(alloc, old, &[0], &[], [].as_slice()) else {
        return false;
    };
    let is_new = open(alloc, &mut disk, &mut Renew, steps).is_ok();
    let part = disk.part(Part::One);
    is_new && part.starts_with(HEAD) && part.len() == 196 && is_closed(part, 195)
}

fn open_old<L: Ledger>(alloc: Global, end: &impl Abort, steps: &mut Steps<L>) -> Result<(), Fail> {
    let half = half_with_folder(alloc)?;
    let old = changed(alloc, &half, 24, 25, 1)?;
    assert!(end; is_renewed(alloc, &old, steps));
    Ok(())
}

fn migrations<N: Named>(rt: &HostRuntime, end: &impl Abort, blank: Blank) -> Result<(), Fail>
    requires name { blank.name ≡ N.name }
    requires parts { blank.parts ≡ N.parts }
    requires one { blank.parts ≡ 1 }
{
    let mut steps = Steps::new(rt, Weightless::<N>::of(blank));
    open_old(rt.alloc(), end, &mut steps)
}

#[test]
fn an_old_store_becomes_a_new_one(rt: HostRuntime) -> Result<(), Fail> {
    migrations::<Brand>(&rt, &rt, Blank::new(1))
}
