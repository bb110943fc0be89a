//! The two steps by which records become stable.

ghost use Rattle.std.specs.Prelude.{◌≡◌, ◌≤◌, ◌<◌, ◌+◌, ◌^◌, ℕ, List, [], ◌∷◌, ◌++◌, length, slice_index, IfOk, OnOk};
ghost use Rattle.std.specs.Option.{ForSome};
ghost use Rattle.fsrm_outside.specs.Causes.{HasCause};
ghost use Rattle.fsrm_outside.specs.Moments.{EachImage};
ghost use Rattle.fsrm_outside.specs.Parts.{part_of, other};
ghost use Rattle.fsrm_journal.specs.Records.{batch, Holds, HoldsAllOrNone, Log, Settled, Staged};

use fsrm_outside::{Disk, Failed, Part};

// Writes a batch and a closed gate after the gate, makes them stable, and answers the place of the closed gate. The
// gate before the batch stays as it was.
pub fn stage<D: Disk>(disk: &mut D, ruling: Part, gate: u64, closed: &[u8]) -> Result<u64, Failed>
    requires bound { gate ≤ 2 ^ 62 }
    requires some { 0 < length closed.now }
    requires place { ForSome (D.reads disk.old) (λ parts. gate < length (part_of ruling parts)) }

    ensures next { IfOk result (λ n. (n ≡ gate + length closed.now) × (n ≤ 2 ^ 62)) }
    ensures gate { (bytes : List ℕ) → closed.now ≡ bytes ++ 0 ∷ [] → IfOk result (λ n. ForSome (D.reads disk.new) (λ parts. slice_index (part_of ruling parts) n ≡ 0)) }
    ensures first { ForSome (D.reads disk.old) (λ was. OnOk result (ForSome (D.reads disk.new) (λ parts. slice_index (part_of ruling parts) gate ≡ slice_index (part_of ruling was) gate))) }
    ensures longer { IfOk result (λ n. ForSome (D.reads disk.new) (λ parts. n < length (part_of ruling parts))) }
    ensures beside { (n : ℕ) → ForSome (D.reads disk.old) (λ parts. n ≤ length (part_of (other ruling) parts)) → OnOk result (ForSome (D.reads disk.new) (λ parts. n ≤ length (part_of (other ruling) parts))) }
    ensures staged { (log : Log) (bodies : List (List ℕ)) (bytes : List ℕ) → closed.now ≡ bytes ++ 0 ∷ []
        → Settled D.reads D.disk_clock D.images log bodies ruling gate disk.old
        → OnOk result (Staged D.reads D.disk_clock D.images log bodies bytes gate disk.new) }
    ensures any_moment { (log : Log) (bodies : List (List ℕ)) → Settled D.reads D.disk_clock D.images log bodies ruling gate disk.old
        → EachImage D.disk_clock D.images (Holds log bodies) disk.old disk.new }
    ensures by { D.by_disk disk.old disk.new }
    ensures cause { HasCause (D.disk_faults disk.old) (D.disk_faults disk.new) result }
{
    disk.write_at(ruling, gate + 1, closed)?;
    disk.sync()?;
    Ok(gate + closed.len() as u64)
}

// Opens the gate before a batch, and makes it stable.
pub fn open_gate<D: Disk>(disk: &mut D, ruling: Part, gate: u64) -> Result<(), Failed>
    requires { ForSome (D.reads disk.old) (λ parts. gate < length (part_of ruling parts)) }

    ensures opened { (log : Log) (bodies : List (List ℕ)) (body : List ℕ) (more : List (List ℕ)) → ruling ≡ log.ruling
        → Staged D.reads D.disk_clock D.images log bodies (batch (body ∷ more)) gate disk.old
        → OnOk result (Settled D.reads D.disk_clock D.images log (bodies ++ body ∷ more) ruling (gate + 1 + length (batch (body ∷ more))) disk.new) }
    ensures after { (n byte : ℕ) → gate < n → ForSome (D.reads disk.old) (λ parts. slice_index (part_of ruling parts) n ≡ byte) → OnOk result (ForSome (D.reads disk.new) (λ parts. slice_index (part_of ruling parts) n ≡ byte)) }
    ensures longer { (n : ℕ) → ForSome (D.reads disk.old) (λ parts. n < length (part_of ruling parts)) → OnOk result (ForSome (D.reads disk.new) (λ parts. n < length (part_of ruling parts))) }
    ensures beside { (n : ℕ) → ForSome (D.reads disk.old) (λ parts. n ≤ length (part_of (other ruling) parts)) → OnOk result (ForSome (D.reads disk.new) (λ parts. n ≤ length (part_of (other ruling) parts))) }
    ensures any_moment { (log : Log) (bodies : List (List ℕ)) (body : List ℕ) (more : List (List ℕ)) → ruling ≡ log.ruling
        → Staged D.reads D.disk_clock D.images log bodies (batch (body ∷ more)) gate disk.old
        → EachImage D.disk_clock D.images (HoldsAllOrNone log bodies (body ∷ more)) disk.old disk.new }
    ensures by { D.by_disk disk.old disk.new }
    ensures cause { HasCause (D.disk_faults disk.old) (D.disk_faults disk.new) result }
{
    disk.write_at(ruling, gate, &[1])?;
    disk.sync()?;
    Ok(())
}
