//! The steps by which the half that doesn't rule is written, and comes to rule.

ghost use Rattle.std.specs.Prelude.{◌≡◌, ◌≤◌, ◌<◌, ◌+◌, ◌-◌, ◌^◌, ℕ, List, [], ◌∷◌, ◌++◌, length, drop, slice_index, true, Ok, IfOk, OnOk};
ghost use Rattle.byteorder.specs.Endian.{little_bytes};
ghost use Rattle.std.specs.Option.{ForSome};
ghost use Rattle.fsrm_outside.specs.Causes.{HasCause};
ghost use Rattle.fsrm_outside.specs.Moments.{EachImage};
ghost use Rattle.fsrm_outside.specs.Parts.{Parts, part_of, other};
ghost use Rattle.fsrm_journal.specs.Heads.{head_of, is_open, magic, generation_at};
ghost use Rattle.fsrm_journal.specs.Halves.{head_tail, AllButGate, Beside, Certain, Follows, IsNext, OpenBeside, Ruled, Shut, Stays, StaysOrFresh, Until};
ghost use Rattle.fsrm_journal.specs.Opened.{judged_parts};
ghost use Rattle.fsrm_journal.specs.declared.heads.Head.{Head};

use crate::heads::{Head, MAGIC};
use byteorder::{ByteOrder, LittleEndian};
use fsrm_model::Capacity;
use fsrm_outside::{Disk, Failed, Part};

/// The other part.
pub fn other(part: Part) -> Part
    ensures { result ≡ other part }
{
    match part {
        Part::Zero => Part::One,
        Part::One => Part::Zero,
    }
}

/// The generation after this one: one more, but 1 after the greatest.
pub fn next_generation(generation: u64) -> u64
    ensures { IsNext generation result }
{
    if generation == u64::MAX {
        return 1;
    }
    generation + 1
}

// The front of a head: the gate with the zeros, and the magic.
fn spell_front(into: &mut [u8], gate: u64, magic: u64)
    requires { 16 ≤ length into.old }
    ensures { into.new ≡ little_bytes 8 gate ++ (little_bytes 8 magic ++ drop 16 into.old) }
{
    LittleEndian::write_u64(into, gate);
    LittleEndian::write_u64(&mut into[8..], magic);
}

// What comes next: the generation and the version.
fn spell_generation(into: &mut [u8], generation: u64, version: u32)
    requires { 12 ≤ length into.old }
    ensures { into.new ≡ little_bytes 8 generation ++ (little_bytes 4 version ++ drop 12 into.old) }
{
    LittleEndian::write_u64(into, generation);
    LittleEndian::write_u32(&mut into[8..], version);
}

// The rest of it: the sizes, and the image's length.
fn spell_sizes(into: &mut [u8], size: Capacity, image: u64)
    requires { 20 ≤ length into.old }
    ensures { into.new ≡ little_bytes 4 size.nodes ++ (little_bytes 4 size.names ++ (little_bytes 4 size.cluster ++ (little_bytes 8 image ++ drop 20 into.old))) }
{
    LittleEndian::write_u32(into, size.nodes);
    LittleEndian::write_u32(&mut into[4..], size.names);
    LittleEndian::write_u32(&mut into[8..], size.cluster);
    LittleEndian::write_u64(&mut into[12..], image);
}

/// The bytes of a head, with an open gate.
pub fn spelled_head(head: &Head) -> [u8; 48]
    ensures { result ≡ 1 ∷ head_tail head.now }
{
    let mut bytes = [0; 48];
    spell_front(&mut bytes, 1, MAGIC);
    spell_generation(&mut bytes[16..], head.generation, head.version);
    spell_sizes(&mut bytes[28..], head.size, head.image);
    bytes
}

/// Closes the gate of the half that doesn't rule. One that is closed already isn't written, since until the next sync a
/// byte that was written may be any, an open gate too.
pub fn close_beside<D: Disk>(disk: &mut D, ruling: Part, gate_is_open: bool) -> Result<(), Failed>
    ensures any_moment { (parts : Parts) → Certain D.reads D.disk_clock D.images parts disk.old → judged_parts parts ≡ Ok ruling → gate_is_open ≡ is_open (head_of (part_of (other ruling) parts))
        → EachImage D.disk_clock D.images (Stays ruling (part_of ruling parts)) disk.old disk.new }
    ensures closed { (parts : Parts) → Certain D.reads D.disk_clock D.images parts disk.old → judged_parts parts ≡ Ok ruling → gate_is_open ≡ is_open (head_of (part_of (other ruling) parts))
        → OnOk result (Beside D.reads D.disk_clock D.images ruling (part_of ruling parts) [] disk.new) }
    ensures gate { gate_is_open ≡ true → OnOk result (ForSome (D.reads disk.new) (λ parts. slice_index (part_of (other ruling) parts) 0 ≡ 0)) }
    ensures longer { (n : ℕ) → ForSome (D.reads disk.old) (λ parts. n ≤ length (part_of (other ruling) parts)) → OnOk result (ForSome (D.reads disk.new) (λ parts. n ≤ length (part_of (other ruling) parts))) }
    ensures here { (n : ℕ) → ForSome (D.reads disk.old) (λ parts. n ≤ length (part_of ruling parts)) → OnOk result (ForSome (D.reads disk.new) (λ parts. n ≤ length (part_of ruling parts))) }
    ensures by { D.by_disk disk.old disk.new }
    ensures cause { HasCause (D.disk_faults disk.old) (D.disk_faults disk.new) result }
{
    if !gate_is_open {
        return Ok(());
    }
    disk.write_at(other(ruling), 0, &[0])?;
    disk.sync()?;
    Ok(())
}

/// Writes bytes after the closed gate of the half that doesn't rule.
pub fn write_beside<D: Disk>(
    disk: &mut D,
    ruling: Part,
    place: u64,
    bytes: &[u8],
) -> Result<(), Failed>
    requires { ForSome (D.reads disk.old) (λ parts. place ≤ length (part_of (other ruling) parts)) }
    ensures any_moment { (half front : List ℕ) → place ≡ 1 + length front → Beside D.reads D.disk_clock D.images ruling half front disk.old
        → EachImage D.disk_clock D.images (Shut ruling half) disk.old disk.new }
    ensures written { (half front : List ℕ) → place ≡ 1 + length front → Beside D.reads D.disk_clock D.images ruling half front disk.old
        → OnOk result (Beside D.reads D.disk_clock D.images ruling half (front ++ bytes.now) disk.new) }
    ensures gate { (byte : ℕ) → 0 < place → ForSome (D.reads disk.old) (λ parts. slice_index (part_of (other ruling) parts) 0 ≡ byte) → OnOk result (ForSome (D.reads disk.new) (λ parts. slice_index (part_of (other ruling) parts) 0 ≡ byte)) }
    ensures longer { OnOk result (ForSome (D.reads disk.new) (λ parts. place + length bytes.now ≤ length (part_of (other ruling) parts))) }
    ensures here { (n : ℕ) → ForSome (D.reads disk.old) (λ parts. n ≤ length (part_of ruling parts)) → OnOk result (ForSome (D.reads disk.new) (λ parts. n ≤ length (part_of ruling parts))) }
    ensures bound { OnOk result (place + length bytes.now ≤ 2 ^ 62) }
    ensures by { D.by_disk disk.old disk.new }
    ensures cause { HasCause (D.disk_faults disk.old) (D.disk_faults disk.new) result }
{
    disk.write_at(other(ruling), place, bytes)?;
    Ok(())
}

/// Makes stable what was written after the closed gate, and opens the gate.
pub fn open_beside<D: Disk>(disk: &mut D, ruling: Part) -> Result<(), Failed>
    ensures any_moment { (half image : List ℕ) (head : Head) → Beside D.reads D.disk_clock D.images ruling half (head_tail head ++ (image ++ 0 ∷ [])) disk.old
        → (rest : List ℕ) × Until D.disk_clock D.images (Shut ruling half) (AllButGate ruling half head image rest) disk.old disk.new }
    ensures opened { (half image : List ℕ) (head : Head) → Beside D.reads D.disk_clock D.images ruling half (head_tail head ++ (image ++ 0 ∷ [])) disk.old
        → OnOk result ((parts : Parts) × Certain D.reads D.disk_clock D.images parts disk.new × OpenBeside ruling half head image parts) }
    ensures longer { (n : ℕ) → ForSome (D.reads disk.old) (λ parts. n ≤ length (part_of (other ruling) parts)) → OnOk result (ForSome (D.reads disk.new) (λ parts. n ≤ length (part_of (other ruling) parts))) }
    ensures here { (n : ℕ) → ForSome (D.reads disk.old) (λ parts. n ≤ length (part_of ruling parts)) → OnOk result (ForSome (D.reads disk.new) (λ parts. n ≤ length (part_of ruling parts))) }
    ensures by { D.by_disk disk.old disk.new }
    ensures cause { HasCause (D.disk_faults disk.old) (D.disk_faults disk.new) result }
{
    disk.sync()?;
    disk.write_at(other(ruling), 0, &[1])?;
    disk.sync()?;
    Ok(())
}

/// Lets the other half rule, of which the gate is open, and answers whether the gate of the half that ruled is still
/// open. Of two open halves the one with the greater generation rules; so only after the greatest generation that gate
/// is closed.
pub fn retire<D: Disk>(disk: &mut D, ruling: Part, generation: u64) -> Result<bool, Failed>
    ensures any_moment { (half image : List ℕ) (head : Head) (parts : Parts) → Follows half head → head.image ≡ length image → generation ≡ generation_at (head_of half)
        → Certain D.reads D.disk_clock D.images parts disk.old → OpenBeside ruling half head image parts
        → EachImage D.disk_clock D.images (StaysOrFresh ruling half head image) disk.old disk.new }
    ensures rules { (half image : List ℕ) (head : Head) (parts : Parts) → Follows half head → head.image ≡ length image → generation ≡ generation_at (head_of half)
        → Certain D.reads D.disk_clock D.images parts disk.old → OpenBeside ruling half head image parts
        → IfOk result (λ still. (now : Parts) × Certain D.reads D.disk_clock D.images now disk.new × Ruled ruling half head image still now) }
    ensures longer { (n : ℕ) → ForSome (D.reads disk.old) (λ parts. n ≤ length (part_of (other ruling) parts)) → OnOk result (ForSome (D.reads disk.new) (λ parts. n ≤ length (part_of (other ruling) parts))) }
    ensures here { (n : ℕ) → ForSome (D.reads disk.old) (λ parts. n ≤ length (part_of ruling parts)) → OnOk result (ForSome (D.reads disk.new) (λ parts. n ≤ length (part_of ruling parts))) }
    ensures by { D.by_disk disk.old disk.new }
    ensures cause { HasCause (D.disk_faults disk.old) (D.disk_faults disk.new) result }
{
    if generation < u64::MAX {
        return Ok(true);
    }
    disk.write_at(ruling, 0, &[0])?;
    disk.sync()?;
    Ok(false)
}
