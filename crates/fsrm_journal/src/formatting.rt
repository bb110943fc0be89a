//! The steps by which a store is made.

ghost use Rattle.std.specs.Prelude.{◌≡◌, ◌≤◌, ◌+◌, Some, [], ◌∷◌, ◌++◌, drop, length, List, ℕ, IfOk, OnOk};
ghost use Rattle.std.specs.Option.{ForSome};
ghost use Rattle.fsrm_outside.specs.Causes.{HasCause};
ghost use Rattle.fsrm_outside.specs.Changes.{Same, Through};
ghost use Rattle.fsrm_outside.specs.Moments.{EachImage};
ghost use Rattle.fsrm_outside.specs.Parts.{Parts, part_of, other};
ghost use Rattle.fsrm_outside.specs.declared.traits.Part.TheVariants.{One};
ghost use Rattle.fsrm_journal.specs.Formatted.{has_store, SameButGates};
ghost use Rattle.fsrm_journal.specs.Heads.{head_of, is_open};
ghost use Rattle.fsrm_journal.specs.Halves.{head_tail, AllButGate, Beside, Certain, OpenBeside, Shut, Until};

use crate::halves::{open_beside, spelled_head, write_beside};
use crate::heads::{Head, is_open};
use fsrm_outside::{Disk, Failed, Part};

// Whether the gate of a half is open.
fn is_open_at<D: Disk>(disk: &mut D, part: Part) -> Result<bool, Failed>
    ensures gate { ForSome (D.reads disk.old) (λ parts. IfOk result (λ gate. gate ≡ is_open (head_of (part_of part parts)))) }
    ensures reads { D.reads disk.new ≡ D.reads disk.old }
    ensures crash { Through D.disk_clock D.images Same disk.old disk.new }
    ensures by { D.by_disk disk.old disk.new }
    ensures cause { HasCause (D.disk_faults disk.old) (D.disk_faults disk.new) result }
{
    let mut gate = [0];
    let count = disk.read_at(part, 0, &mut gate)?;
    Ok(is_open(&gate[..count]))
}

/// Makes what is read stable, and tells whether there is a store.
pub fn has_store<D: Disk>(disk: &mut D) -> Result<bool, Failed>
    ensures there { ForSome (D.reads disk.old) (λ parts. IfOk result (λ there. there ≡ has_store parts)) }
    ensures reads { D.reads disk.new ≡ D.reads disk.old }
    ensures crash { Through D.disk_clock D.images Same disk.old disk.new }
    ensures by { D.by_disk disk.old disk.new }
    ensures cause { HasCause (D.disk_faults disk.old) (D.disk_faults disk.new) result }
{
    disk.sync()?;
    let zero = is_open_at(disk, Part::Zero)?;
    let one = is_open_at(disk, Part::One)?;
    Ok(zero || one)
}

/// Closes both gates, and makes that stable, by three calls. Before, a crash may leave any gates.
pub fn close_both<D: Disk>(disk: &mut D) -> Result<(), Failed>
    ensures closed { ForSome (D.reads disk.old) (λ parts. OnOk result (Beside D.reads D.disk_clock D.images One (0 ∷ drop 1 parts.one) [] disk.new)) }
    ensures ready { OnOk result (ForSome (D.reads disk.new) (λ parts. 1 ≤ length parts.zero)) }
    ensures crash { Through D.disk_clock D.images SameButGates disk.old disk.new }
    ensures soon { (s t : ℕ) → D.disk_clock disk.old ≡ Some s → D.disk_clock disk.new ≡ Some t → t ≤ s + 3 }
    ensures by { D.by_disk disk.old disk.new }
    ensures cause { HasCause (D.disk_faults disk.old) (D.disk_faults disk.new) result }
{
    disk.write_at(Part::Zero, 0, &[0])?;
    disk.write_at(Part::One, 0, &[0])?;
    disk.sync()?;
    Ok(())
}

/// Writes a head, an image and a closed gate after the closed gate of the half that doesn't rule, and opens that gate.
pub fn write_half<D: Disk>(
    disk: &mut D,
    ruling: Part,
    head: &Head,
    image: &[u8],
) -> Result<(), Failed>
    requires { ForSome (D.reads disk.old) (λ parts. 1 ≤ length (part_of (other ruling) parts)) }
    ensures any_moment { (half : List ℕ) → Beside D.reads D.disk_clock D.images ruling half [] disk.old
        → (rest : List ℕ) × Until D.disk_clock D.images (Shut ruling half) (AllButGate ruling half head.now image.now rest) disk.old disk.new }
    ensures opened { (half : List ℕ) → Beside D.reads D.disk_clock D.images ruling half [] disk.old
        → OnOk result ((parts : Parts) × Certain D.reads D.disk_clock D.images parts disk.new × OpenBeside ruling half head.now image.now parts) }
    ensures by { D.by_disk disk.old disk.new }
    ensures cause { HasCause (D.disk_faults disk.old) (D.disk_faults disk.new) result }
{
    write_content(disk, ruling, head, image)?;
    open_beside(disk, ruling)
}

// Writes all of these but the gate.
fn write_content<D: Disk>(
    disk: &mut D,
    ruling: Part,
    head: &Head,
    image: &[u8],
) -> Result<(), Failed>
    requires { ForSome (D.reads disk.old) (λ parts. 1 ≤ length (part_of (other ruling) parts)) }
    ensures any_moment { (half : List ℕ) → Beside D.reads D.disk_clock D.images ruling half [] disk.old
        → EachImage D.disk_clock D.images (Shut ruling half) disk.old disk.new }
    ensures written { (half : List ℕ) → Beside D.reads D.disk_clock D.images ruling half [] disk.old
        → OnOk result (Beside D.reads D.disk_clock D.images ruling half (head_tail head.now ++ (image.now ++ 0 ∷ [])) disk.new) }
    ensures by { D.by_disk disk.old disk.new }
    ensures cause { HasCause (D.disk_faults disk.old) (D.disk_faults disk.new) result }
{
    let bytes = spelled_head(head);
    write_beside(disk, ruling, 1, &bytes[1..])?;
    write_beside(disk, ruling, 48, image)?;
    write_beside(disk, ruling, 48 + image.len() as u64, &[0])
}
