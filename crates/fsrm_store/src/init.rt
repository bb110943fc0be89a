//! A new store.

ghost use Rattle.std.specs.Prelude.{◌≡◌, ◌⊎◌, ◌≤◌, true, length, Err, IfOk, IsErrOf, OnErr, OnOk};
ghost use Rattle.std.specs.Option.{ForSome};
ghost use Rattle.fsrm_model.specs.nodes.Fresh.{new_rows as fresh_rows};
ghost use Rattle.fsrm_model.specs.store.Capacities.{is_capacity};
ghost use Rattle.fsrm_outside.specs.Causes.{Rose};
ghost use Rattle.fsrm_outside.specs.Changes.{Same, Through};
ghost use Rattle.fsrm_journal.specs.Formatted.{has_store};
ghost use Rattle.image_codec.specs.NewImage.{new_image as fresh_image};
ghost use Rattle.fsrm_store.specs.Init.{IsInit, IsNew, MakesStore};
ghost use Rattle.fsrm_store.specs.declared.fault.StoreFault.TheVariants.{AlreadyStore, DiskFault, NoMemory as OutOfMemory};

use crate::fault::StoreFault;
use crate::store::Store;
use fsrm_base::NoMemory;
use fsrm_journal::{Head, Journal};
use fsrm_model::{Capacity, List, NodeRow, Rows, Text};
use fsrm_outside::Disk;
use image_codec::{ImageOut, image_len};
use std::alloc::Global;

// The rows of a new store: the root alone.
fn new_rows(alloc: Global) -> Result<Rows, NoMemory>
    ensures { IfOk result (λ rows. rows ≡ fresh_rows) }
{
    let mut nodes = List::new(alloc);
    nodes.push(NodeRow {
        number: 0,
        parent: 0,
        name: Text::from_str(alloc, "")?,
        folder: true,
        length: 0,
        owner: 1,
        created: 0,
        modified: 0,
        accessed: 0,
    })?;
    Ok(Rows {
        nodes,
        quotas: List::new(alloc),
        templates: List::new(alloc),
        autos: List::new(alloc),
        groups: List::new(alloc),
        screens: List::new(alloc),
        excepts: List::new(alloc),
        jobs: List::new(alloc),
        acts: List::new(alloc),
        audits: List::new(alloc),
        queue: List::new(alloc),
        unvisited: List::new(alloc),
        run_limit: 60,
        last_moment: 0,
    })
}

// The image of a new store.
fn new_image(alloc: Global) -> Result<Vec<u8>, NoMemory>
    ensures { IfOk result (λ image. image.items ≡ fresh_image) }
{
    let rows = new_rows(alloc)?;
    let mut image = vec![in alloc; 0; image_len(&rows) as usize]?;
    let mut out = ImageOut::new(alloc, &rows)?;
    out.next(&mut image);
    Ok(image)
}

impl Store {
    /// Makes a store of this size that holds the root alone, unless a store is there already. `AlreadyStore` exactly if a
    /// gate is open; then nothing is ever written, also if a call fails. Before the gates are closed, a crash leaves what it
    /// might have left already, but for the gates; from then on no store or the new one, and after `Ok` the new one.
    /// `NoMemory` makes no call of the disk.
    pub fn init<D: Disk>(alloc: Global, disk: &mut D, size: Capacity) -> Result<(), StoreFault>
        requires legal { is_capacity size ≡ true }
        ensures tells { ForSome (D.reads disk.old) (λ parts. IsInit parts result) }
        ensures only { OnErr result ((result ≡ Err AlreadyStore) ⊎ (result ≡ Err DiskFault) ⊎ (result ≡ Err OutOfMemory)) }
        ensures made { ForSome (D.reads disk.old) (λ parts. OnOk result (IsNew D.reads D.disk_clock D.images size disk.new)) }
        ensures any_moment { ForSome (D.reads disk.old) (λ parts. MakesStore D.disk_clock D.images size disk.old disk.new) }
        ensures kept { ForSome (D.reads disk.old) (λ parts. has_store parts ≡ true → D.reads disk.new ≡ D.reads disk.old) }
        ensures quiet { ForSome (D.reads disk.old) (λ parts. has_store parts ≡ true → Through D.disk_clock D.images Same disk.old disk.new) }
        ensures full { IsErrOf result OutOfMemory → disk.new ≡ disk.old }
        ensures by { D.by_disk disk.old disk.new }
        ensures later { D.disk_faults disk.old ≤ D.disk_faults disk.new }
        ensures failed { IsErrOf result DiskFault → Rose (D.disk_faults disk.old) (D.disk_faults disk.new) }
        ensures counted { IsErrOf result DiskFault ⊎ (D.disk_faults disk.new ≡ D.disk_faults disk.old) }
    {
        let image = new_image(alloc)?;
        let head = Head {
            generation: 1,
            version: 2,
            size,
            image: image.len() as u64,
        };
        Journal::format(disk, &head, &image)?;
        Ok(())
    }
}
