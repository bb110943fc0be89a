//! A new store.

ghost use Rattle.std.specs.Prelude.{◌≡◌, ◌⊎◌, ◌≤◌, [], length, true, Err, IsErrOf, OnOk, OnErr};
ghost use Rattle.std.specs.Option.{ForSome};
ghost use Rattle.fsrm_outside.specs.Causes.{Rose};
ghost use Rattle.fsrm_outside.specs.Changes.{Same, Through};
ghost use Rattle.fsrm_outside.specs.Parts.{Parts};
ghost use Rattle.fsrm_journal.specs.Legal.{IsLegal};
ghost use Rattle.fsrm_journal.specs.declared.fault.JournalFault.TheVariants.{AlreadyStore, DiskFault};

use crate::fault::JournalFault;
use crate::formatting::{close_both, has_store, write_half};
use crate::heads::Head;
use crate::journal::Journal;
use fsrm_outside::{Disk, Part};

impl Journal {
    ghost use Rattle.fsrm_journal.specs.Formatted.{has_store, Formats, IsFormatted, IsMade};
    ghost use Rattle.fsrm_journal.specs.Halves.{Certain};
    ghost use Rattle.fsrm_journal.specs.Stores.{HoldsStore};
    ghost use Rattle.fsrm_outside.specs.declared.traits.Part.TheVariants.{Zero};

    /// Makes a store that holds this image and no record, in part 0. Of part 1 only the gate is written, so an empty
    /// one is then one byte 0. `AlreadyStore` exactly if a gate is open; then nothing is ever written, also if a call
    /// fails. `DiskFault` exactly if the disk counted a failed call, and only where its count stands at `u64::MAX` may it
    /// come uncounted.
    pub fn format<D: Disk>(disk: &mut D, head: &Head, image: &[u8]) -> Result<(), JournalFault>
        requires legal { IsLegal head.now }
        requires length { head.now.image ≡ length image.now }
        ensures tells { ForSome (D.reads disk.old) (λ parts. IsFormatted parts result) }
        ensures only { OnErr result ((result ≡ Err DiskFault) ⊎ (result ≡ Err AlreadyStore)) }
        ensures formatted { ForSome (D.reads disk.old) (λ parts. OnOk result ((now : Parts) × Certain D.reads D.disk_clock D.images now disk.new × IsMade head.now image.now parts now)) }
        ensures store { ForSome (D.reads disk.old) (λ parts. OnOk result ((now : Parts) × Certain D.reads D.disk_clock D.images now disk.new × HoldsStore Zero head.now image.now [] now)) }
        ensures any_moment { ForSome (D.reads disk.old) (λ parts. Formats D.disk_clock D.images head.now image.now disk.old disk.new) }
        ensures kept { ForSome (D.reads disk.old) (λ parts. has_store parts ≡ true → D.reads disk.new ≡ D.reads disk.old) }
        ensures quiet { ForSome (D.reads disk.old) (λ parts. has_store parts ≡ true → Through D.disk_clock D.images Same disk.old disk.new) }
        ensures by { D.by_disk disk.old disk.new }
        ensures later { D.disk_faults disk.old ≤ D.disk_faults disk.new }
        ensures failed { IsErrOf result DiskFault → Rose (D.disk_faults disk.old) (D.disk_faults disk.new) }
        ensures counted { IsErrOf result DiskFault ⊎ (D.disk_faults disk.new ≡ D.disk_faults disk.old) }
    {
        if has_store(disk)? {
            return Err(JournalFault::AlreadyStore);
        }
        close_both(disk)?;
        write_half(disk, Part::One, head, image)?;
        Ok(())
    }
}
