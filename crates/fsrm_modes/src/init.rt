//! Makes a store.

ghost use Rattle.std.specs.Prelude.{◌≡◌, ◌≢◌, ◌⊎◌, ◌≤◌, true};
ghost use Rattle.std.specs.Option.{ForSome};
ghost use Rattle.fsrm_model.specs.store.Capacities.{is_capacity};
ghost use Rattle.fsrm_outside.specs.Changes.{Same, Through};
ghost use Rattle.fsrm_outside.specs.Causes.{Rose};
ghost use Rattle.fsrm_journal.specs.Formatted.{has_store};
ghost use Rattle.fsrm_store.specs.Init.{IsNew, MakesStore};
ghost use Rattle.fsrm_modes.specs.Answers.{TellsNew};

use crate::status::Status;
use fsrm_model::Capacity;
use fsrm_outside::Outside;
use fsrm_store::Store;
use std::alloc::Global;

/// Makes a store of this size, unless there is one.
pub fn init<O: Outside>(alloc: Global, outside: &mut O, size: Capacity) -> Status
    requires legal { is_capacity size ≡ true }
    ensures tells { ForSome (O.reads outside.old) (λ parts. TellsNew parts result) }
    ensures made { ForSome (O.reads outside.old) (λ parts. result ≡ Status.Done → IsNew O.reads O.disk_clock O.images size outside.new) }
    ensures any_moment { ForSome (O.reads outside.old) (λ parts. MakesStore O.disk_clock O.images size outside.old outside.new) }
    ensures kept { ForSome (O.reads outside.old) (λ parts. has_store parts ≡ true → O.reads outside.new ≡ O.reads outside.old) }
    ensures quiet { ForSome (O.reads outside.old) (λ parts. has_store parts ≡ true → Through O.disk_clock O.images Same outside.old outside.new) }
    ensures full { result ≡ Status.NoMemory → outside.new ≡ outside.old }
    ensures by { O.by_disk outside.old outside.new }
    ensures failed { result ≡ Status.DiskFault → Rose (O.disk_faults outside.old) (O.disk_faults outside.new) }
    ensures later { O.disk_faults outside.old ≤ O.disk_faults outside.new }
    ensures counted { (result ≡ Status.DiskFault) ⊎ (O.disk_faults outside.new ≡ O.disk_faults outside.old) }
    ensures only { (result ≡ Status.Done) ⊎ (result ≡ Status.AlreadyStore) ⊎ (result ≡ Status.DiskFault) ⊎ (result ≡ Status.NoMemory) }
{
    match Store::init(alloc, outside, size) {
        Ok(()) => Status::Done,
        Err(fault) => Status::from(fault),
    }
}
