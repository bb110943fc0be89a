//! The journal: where its first closed gate stands, and the records that are held.

ghost use Rattle.std.specs.Prelude.{◌≡◌, ◌≢◌, ◌⊎◌, ◌≤◌, ◌<◌, ◌+◌, ◌-◌, ◌*◌, ◌^◌, ℕ, List, [], ◌∷◌, ◌++◌, length, take, drop, slice_index, vec_capacity, true, false, Ok, Err, None, Some, IfOk, IfSome, IfErr, IsErrOf, OnOk, OnErr};
ghost use Rattle.byteorder.specs.Endian.{little_bytes};
ghost use Rattle.std.specs.Option.{ForSome};
ghost use Rattle.fsrm_model.specs.values.Limits.{longest_entry};
ghost use Rattle.fsrm_outside.specs.Causes.{HasCause, Rose};
ghost use Rattle.fsrm_outside.specs.Changes.{Same, Through};
ghost use Rattle.fsrm_journal.specs.HeadSays.{head_says};
ghost use Rattle.fsrm_journal.specs.Heads.{head_of, is_open, judged};
ghost use Rattle.fsrm_journal.specs.Legal.{IsLegal};
ghost use Rattle.fsrm_outside.specs.declared.traits.Part.TheVariants.{Zero, One};
ghost use Rattle.fsrm_outside.specs.Moments.{EachImage};
ghost use Rattle.fsrm_outside.specs.Parts.{Parts, part_of, other};
ghost use Rattle.fsrm_outside.specs.Settling.{Settles};
ghost use Rattle.fsrm_journal.specs.Ahead.{ahead};
ghost use Rattle.fsrm_journal.specs.Records.{batch, counted, longest_record, records, Holds, HoldsAllOrNone, Log, Settled};
ghost use Rattle.fsrm_journal.specs.declared.fault.JournalFault.TheVariants.{AlreadyStore, Damaged, DiskFault};

mod checkpoint;
mod format;

use crate::batches::{open_gate, stage};
use crate::fault::JournalFault;
use crate::heads::{Head, head_says, is_open, judged};
use crate::limits::LONGEST_RECORD;
use crate::reading::record_in;
use crate::window::Window;
use byteorder::{ByteOrder, LittleEndian};
use fsrm_base::NoMemory;
use fsrm_outside::{Disk, Failed, Part};
use std::alloc::Global;

/// The records of the half that rules: where they end, those that are held until a flush, and what is known of both
/// halves for the change to the other one.
#[derive(Drop)]
pub struct Journal {
    ruling: Part,
    generation: u64,
    // Whether the other half's gate is open.
    beside_open: bool,
    // Up to where it was read; after all is read, the place of the first closed gate.
    end: u64,
    // Where the image ends.
    image_end: u64,
    // How many bytes the half had when it was opened.
    len: u64,
    // What was read ahead of the records.
    window: Window,
    // Where the next piece comes in the half that is being written.
    written: u64,
    // The records that are held, without the first one's gate.
    bytes: Vec<u8>,
    held: u32,
    group: u32,
    ghost in_part: { end ≤ 2 ^ 62 },
    ghost in_half: { len ≤ 2 ^ 62 },
    ghost in_beside: { written ≤ 2 ^ 62 },
    ghost room: { group * longest_record ≤ vec_capacity bytes },
    ghost fits: { length bytes.items ≤ held * longest_record - 1 },
    ghost few: { held ≤ group },
    ghost groups: { group ≤ 1024 },
}

// A length as a record spells it.
fn spelled(len: usize) -> [u8; 4]
    requires { len ≤ longest_entry }
    ensures { result ≡ little_bytes 4 len }
{
    let mut bytes = [0; 4];
    LittleEndian::write_u32(&mut bytes, len as u32);
    bytes
}

// Reads the heads of both halves. The first call of the disk is a sync, which makes stable what is read, also if a
// later call fails.
fn read_heads<D: Disk>(
    disk: &mut D,
    zero: &mut [u8],
    one: &mut [u8],
) -> Result<(usize, usize), Failed>
    requires zero { length zero.old ≡ 48 }
    requires one { length one.old ≡ 48 }
    ensures few_zero { IfOk result (λ n. n.0 ≤ length zero.new) }
    ensures few_one { IfOk result (λ n. n.1 ≤ length one.new) }
    ensures zero { ForSome (D.reads disk.old) (λ parts. IfOk result (λ n. take n.0 zero.new ≡ head_of parts.zero)) }
    ensures one { ForSome (D.reads disk.old) (λ parts. IfOk result (λ n. take n.1 one.new ≡ head_of parts.one)) }
    ensures reads { D.reads disk.new ≡ D.reads disk.old }
    ensures stable { (t : ℕ) (image : Parts) → OnOk result (D.disk_clock disk.new ≡ Some t → D.images disk.new t image → D.reads disk.new ≡ Some image) }
    ensures any_moment { Settles D.reads D.disk_clock D.images ((failed : Failed) × (result ≡ Err failed)) disk.old disk.new }
    ensures crash { Through D.disk_clock D.images Same disk.old disk.new }
    ensures by { D.by_disk disk.old disk.new }
    ensures cause { HasCause (D.disk_faults disk.old) (D.disk_faults disk.new) result }
{
    disk.sync()?;
    let zero_len = disk.read_at(Part::Zero, 0, zero)?;
    let one_len = disk.read_at(Part::One, 0, one)?;
    Ok((zero_len, one_len))
}

// The head of the half that rules, which is whole and legal.
fn head_ruling(ruling: Part, zero: &[u8], one: &[u8]) -> Head
    requires { judged zero.now one.now ≡ Ok ruling }
    ensures zero { ruling ≡ Zero → result ≡ head_says zero.now }
    ensures one { ruling ≡ One → result ≡ head_says one.now }
    ensures legal { IsLegal result }
{
    match ruling {
        Part::Zero => head_says(zero),
        Part::One => head_says(one),
    }
}

// Whether the gate of the half that doesn't rule is open.
fn is_open_beside(ruling: Part, zero: &[u8], one: &[u8]) -> bool
    ensures zero { ruling ≡ Zero → result ≡ is_open one.now }
    ensures one { ruling ≡ One → result ≡ is_open zero.now }
{
    match ruling {
        Part::Zero => is_open(one),
        Part::One => is_open(zero),
    }
}

// Memory for a record that is held, and to read ahead.
fn room(alloc: Global) -> Result<(Vec<u8>, Window), NoMemory>
    ensures empty { IfOk result (λ room. room.0.items ≡ []) }
    ensures room { IfOk result (λ room. longest_record ≤ vec_capacity room.0) }
    ensures unread { IfOk result (λ room. ahead room.1 ≡ []) }
{
    let bytes = Vec::with_capacity(alloc, LONGEST_RECORD)?;
    let window = Window::new(alloc)?;
    Ok((bytes, window))
}

impl Journal {
    ghost use Rattle.fsrm_journal.specs.Opened.{IsOpened, IsRefused, ReadsOn, StandsOn};
    ghost use Rattle.fsrm_journal.specs.Next.{record_at, Tells};
    ghost use Rattle.fsrm_journal.specs.Reading.{log_at, Comes};
    ghost use Rattle.fsrm_outside.specs.Settling.{Stable};
    ghost use Rattle.fsrm_journal.specs.Sight.{Sees};
    ghost use Rattle.fsrm_journal.specs.Stores.{image_there, HoldsWithOrWithout, Holding, ReadUpTo, Stands, StandsAt};
    ghost use Rattle.fsrm_journal.specs.declared.heads.Head.{Head};

    /// Finds the half that rules, and reads its head, which is legal. The image comes next, and then the records. The
    /// first call of the disk makes stable what is read, and nothing is written: from then on a crash leaves what is
    /// read, also if a later call fails, and before that what it might have left already.
    ///
    /// `NoStore` exactly if neither gate is 1; `Damaged` exactly at the first field of a head that is missing or isn't
    /// legal, or at the generation of part 1 if both have the same; `DiskFault` exactly if the disk counted a failed
    /// call, and only where its count stands at `u64::MAX` may it come uncounted. `NoMemory`: there is no memory to hold
    /// a record.
    pub fn open_at<D: Disk>(alloc: Global, disk: &mut D) -> Result<(Journal, Head), JournalFault>
        ensures opened { ForSome (D.reads disk.old) (λ parts. IfOk result (λ opened. IsOpened parts opened.0 opened.1)) }
        ensures sees { ForSome (D.reads disk.old) (λ parts. IfOk result (λ opened. Sees (part_of opened.0.ruling parts) opened.0)) }
        ensures reading { ForSome (D.reads disk.old) (λ parts. IfOk result (λ opened. ReadUpTo opened.1 [] [] parts opened.0)) }
        ensures beside { ForSome (D.reads disk.old) (λ parts. IfOk result (λ opened. 0 < length (part_of (other opened.0.ruling) parts))) }
        ensures legal { IfOk result (λ opened. IsLegal opened.1) }
        ensures none { IfOk result (λ opened. opened.0.held ≡ 0) }
        ensures holding { IfOk result (λ opened. Holding [] opened.0) }
        ensures group { IfOk result (λ opened. opened.0.group ≡ 1) }
        ensures refused { ForSome (D.reads disk.old) (λ parts. IfErr result (λ fault. IsRefused parts fault)) }
        ensures only { result ≢ Err AlreadyStore }
        ensures reads { D.reads disk.new ≡ D.reads disk.old }
        ensures stable { (t : ℕ) (image : Parts) → OnOk result (D.disk_clock disk.new ≡ Some t → D.images disk.new t image → D.reads disk.new ≡ Some image) }
        ensures any_moment { Settles D.reads D.disk_clock D.images (IsErrOf result DiskFault) disk.old disk.new }
        ensures crash { Through D.disk_clock D.images Same disk.old disk.new }
        ensures by { D.by_disk disk.old disk.new }
        ensures later { D.disk_faults disk.old ≤ D.disk_faults disk.new }
        ensures failed { IsErrOf result DiskFault → Rose (D.disk_faults disk.old) (D.disk_faults disk.new) }
        ensures counted { IsErrOf result DiskFault ⊎ (D.disk_faults disk.new ≡ D.disk_faults disk.old) }
    {
        let mut zero = [0; 48];
        let mut one = [0; 48];
        let (zero_len, one_len) = read_heads(disk, &mut zero, &mut one)?;
        let ruling = judged(&zero[..zero_len], &one[..one_len])?;
        let len = disk.len(ruling)?;
        let head = head_ruling(ruling, &zero[..zero_len], &one[..one_len]);
        let beside_open = is_open_beside(ruling, &zero[..zero_len], &one[..one_len]);
        let Ok((bytes, window)) = room(alloc) else {
            return Err(JournalFault::NoMemory);
        };
        let journal = Journal {
            ruling,
            generation: head.generation,
            beside_open,
            end: 48,
            image_end: head.image.saturating_add(48),
            len,
            window,
            written: 0,
            bytes,
            held: 0,
            group: 1,
        };
        Ok((journal, head))
    }

    /// Fills `into` with the next bytes of the image, and answers how many. Into room that is 0 only at the image's
    /// end, or at the half's if that comes first.
    pub fn read_image<D: Disk>(
        &mut self,
        disk: &mut D,
        into: &mut [u8],
    ) -> Result<usize, JournalFault>
        ensures count { IfOk result (λ n. n ≤ length into.new) }
        ensures bytes { ForSome (D.reads disk.old) (λ parts. self.old.len ≡ length (part_of self.old.ruling parts)
            → IfOk result (λ n. take n into.new ≡ take (length into.old) (take (self.old.image_end - self.old.end) (drop self.old.end (part_of self.old.ruling parts))))) }
        ensures reading { (parts : Parts) (head : Head) (image : List ℕ) → D.reads disk.old ≡ Some parts → ReadUpTo head image [] parts self.old
            → IfOk result (λ n. ReadUpTo head (image ++ take n into.new) [] parts self.new) }
        ensures whole { (parts : Parts) (head : Head) (image : List ℕ) → D.reads disk.old ≡ Some parts → ReadUpTo head image [] parts self.old → 0 < length into.old
            → IfOk result (λ n. n ≡ 0 → image ≡ image_there head (part_of self.old.ruling parts)) }
        ensures end { IfOk result (λ n. self.new.end ≡ self.old.end + n) }
        ensures err { OnErr result (self.new.end ≡ self.old.end) }
        ensures sees { (half : List ℕ) → Sees half self.old → Sees half self.new }
        ensures same { ReadsOn self.old self.new }
        ensures stable { Stable D.reads D.disk_clock D.images disk.old → Stable D.reads D.disk_clock D.images disk.new }
        ensures reads { D.reads disk.new ≡ D.reads disk.old }
        ensures crash { Through D.disk_clock D.images Same disk.old disk.new }
        ensures by { D.by_disk disk.old disk.new }
        ensures only { OnErr result (result ≡ Err DiskFault) }
        ensures cause { HasCause (D.disk_faults disk.old) (D.disk_faults disk.new) result }
    {
        self.window.clear();
        let left = self.image_end.min(self.len).saturating_sub(self.end);
        let room = left.min(into.len() as u64) as usize;
        let count = disk.read_at(self.ruling, self.end, &mut into[..room])?;
        self.end += count as u64;
        Ok(count)
    }

    /// The place and the length of the next record's body, with which `into` then begins. The place is 5 after that up
    /// to which was read, since a gate and a length come before a body. `None` exactly at the first closed gate: from
    /// then on records may be added there.
    ///
    /// It reads ahead, as many bytes at a time as the longest record has, so a short record mostly costs no call of the
    /// disk.
    ///
    /// `Damaged` exactly at a gate that is missing, at a length that isn't there or isn't legal, or at a body that
    /// isn't there whole; `DiskFault` exactly if the disk counted a failed call, and only where its count stands at
    /// `u64::MAX` may it come uncounted. After either the place of the next record is as it was.
    pub fn next<D: Disk>(
        &mut self,
        disk: &mut D,
        into: &mut [u8],
    ) -> Result<Option<(u64, usize)>, JournalFault>
        requires room { longest_entry ≤ length into.old }
        ensures tells { ForSome (D.reads disk.old) (λ parts. Sees (part_of self.old.ruling parts) self.old
            → Tells self.old.ruling (record_at (part_of self.old.ruling parts) self.old.end) result) }
        ensures only { OnErr result ((result ≡ Err DiskFault) ⊎ ((place : ℕ) × (result ≡ Err (Damaged self.old.ruling place)))) }
        ensures body { ForSome (D.reads disk.old) (λ parts. Sees (part_of self.old.ruling parts) self.old
            → IfOk result (λ found. IfSome found (λ at. take at.1 into.new ≡ take at.1 (drop at.0 (part_of self.old.ruling parts))))) }
        ensures reading { (parts : Parts) (head : Head) (image : List ℕ) (bodies : List (List ℕ)) → D.reads disk.old ≡ Some parts → ReadUpTo head image bodies parts self.old
            → IfOk result (λ found. IfSome found (λ at. ReadUpTo head image (bodies ++ take at.1 into.new ∷ []) parts self.new)) }
        ensures store { (parts : Parts) (head : Head) (image : List ℕ) (bodies : List (List ℕ)) → D.reads disk.old ≡ Some parts → ReadUpTo head image bodies parts self.old → head.image ≡ length image
            → Stable D.reads D.disk_clock D.images disk.old → IfOk result (λ found. found ≡ None → Stands D.reads D.disk_clock D.images head image bodies self.new disk.new) }
        ensures size { IfOk result (λ found. IfSome found (λ at. (1 ≤ at.1) × (at.1 ≤ longest_entry))) }
        ensures place { IfOk result (λ found. IfSome found (λ at. at.0 ≡ self.old.end + 5)) }
        ensures end { IfOk result (λ found. IfSome found (λ at. self.new.end ≡ at.0 + at.1)) }
        ensures stays { IfOk result (λ found. found ≡ None → self.new.end ≡ self.old.end) }
        ensures err { OnErr result (self.new.end ≡ self.old.end) }
        ensures settled { ForSome (D.reads disk.old) (λ parts. Sees (part_of self.old.ruling parts) self.old → Stable D.reads D.disk_clock D.images disk.old
            → IfOk result (λ found. found ≡ None → Settled D.reads D.disk_clock D.images (log_at self.old.ruling self.old.end parts) [] self.new.ruling self.new.end disk.new)) }
        ensures ready { ForSome (D.reads disk.old) (λ parts. Sees (part_of self.old.ruling parts) self.old
            → IfOk result (λ found. found ≡ None → ForSome (D.reads disk.new) (λ now. self.new.end < length (part_of self.new.ruling now)))) }
        ensures sees { ForSome (D.reads disk.old) (λ parts. Sees (part_of self.old.ruling parts) self.old → Sees (part_of self.new.ruling parts) self.new) }
        ensures same { ReadsOn self.old self.new }
        ensures stable { Stable D.reads D.disk_clock D.images disk.old → Stable D.reads D.disk_clock D.images disk.new }
        ensures reads { D.reads disk.new ≡ D.reads disk.old }
        ensures crash { Through D.disk_clock D.images Same disk.old disk.new }
        ensures by { D.by_disk disk.old disk.new }
        ensures later { D.disk_faults disk.old ≤ D.disk_faults disk.new }
        ensures failed { IsErrOf result DiskFault → Rose (D.disk_faults disk.old) (D.disk_faults disk.new) }
        ensures counted { IsErrOf result DiskFault ⊎ (D.disk_faults disk.new ≡ D.disk_faults disk.old) }
    {
        self.window.reach(disk, self.ruling, self.end)?;
        let found = record_in(self.window.ahead(), self.ruling, self.len, self.end)?;
        let Some((place, size)) = found else {
            return Ok(None);
        };
        into[..size].copy_from_slice(&self.window.ahead()[5..5 + size]);
        self.window.pass(5 + size);
        self.end = place + size as u64;
        Ok(Some((place, size)))
    }

    /// How many bytes the records have that were read or added so far, in the half that rules: of `before`, which were
    /// read after the image, and of `bodies`, which were added after them. It is 0 while the image is read.
    pub fn tail(&self) -> u64
        ensures between { result ≡ self.now.end - self.now.image_end }
        ensures records { (half : List ℕ) (log : Log) (before bodies : List (List ℕ)) → Comes half self.now.image_end before (length log.lead)
            → self.now.end ≡ length (log.lead ++ records bodies) → result ≡ length (records (before ++ bodies)) }
        ensures store { (head : Head) (image : List ℕ) (bodies : List (List ℕ)) (parts : Parts) → StandsAt head image bodies parts self.now → result ≡ length (records bodies) }
    {
        self.end.saturating_sub(self.image_end)
    }

    /// The part that rules.
    pub fn ruling(&self) -> Part
        ensures { result ≡ self.now.ruling }
    {
        self.ruling
    }

    /// How many records are held.
    pub fn held(&self) -> u32
        ensures { result ≡ self.now.held }
    {
        self.held
    }

    /// Makes room for groups of `n` records. `NoMemory`: there is no memory for them, and the room stays as it was.
    pub fn set_group(&mut self, alloc: Global, n: u32) -> Result<(), NoMemory>
        requires few { 1 ≤ n }
        requires most { n ≤ 1024 }
        requires none { self.old.held ≡ 0 }
        ensures ok { OnOk result (self.new.group ≡ n) }
        ensures err { OnErr result (self.new.group ≡ self.old.group) }
        ensures ruling { self.new.ruling ≡ self.old.ruling }
        ensures end { self.new.end ≡ self.old.end }
        ensures held { self.new.held ≡ 0 }
        ensures bytes { self.new.bytes.items ≡ self.old.bytes.items }
        ensures image { self.new.image_end ≡ self.old.image_end }
        ensures stands { StandsOn self.old self.new }
        ensures store { (head : Head) (image : List ℕ) (bodies : List (List ℕ)) (parts : Parts) → StandsAt head image bodies parts self.old → StandsAt head image bodies parts self.new }
        ensures holding { Holding [] self.new }
    {
        self.bytes.try_reserve(n as usize * LONGEST_RECORD)?;
        self.group = n;
        Ok(())
    }

    /// Holds a record, for which there is room.
    pub fn hold(&mut self, body: &[u8])
        requires some { 1 ≤ length body.now }
        requires most { length body.now ≤ longest_entry }
        requires room { self.old.held < self.old.group }
        ensures held { (bodies : List (List ℕ)) → length bodies ≡ self.old.held → self.old.bytes.items ≡ batch bodies → self.new.bytes.items ≡ batch (bodies ++ body.now ∷ []) }
        ensures holding { (held : List (List ℕ)) → Holding held self.old → Holding (held ++ body.now ∷ []) self.new }
        ensures store { (head : Head) (image : List ℕ) (bodies : List (List ℕ)) (parts : Parts) → StandsAt head image bodies parts self.old → StandsAt head image bodies parts self.new }
        ensures count { self.new.held ≡ self.old.held + 1 }
        ensures group { self.new.group ≡ self.old.group }
        ensures ruling { self.new.ruling ≡ self.old.ruling }
        ensures end { self.new.end ≡ self.old.end }
        ensures image { self.new.image_end ≡ self.old.image_end }
        ensures stands { StandsOn self.old self.new }
    {
        let first = self.held == 0;
        append_record(&mut self.bytes, first, body);
        self.held += 1;
    }

    /// Makes the records that are held stable: all of them or, if a crash comes between, none. The gate after them is
    /// 0.
    pub fn flush<D: Disk>(&mut self, disk: &mut D) -> Result<(), JournalFault>
        requires place { ForSome (D.reads disk.old) (λ parts. self.old.end < length (part_of self.old.ruling parts)) }

        ensures added { (log : Log) (bodies held : List (List ℕ)) → length held ≡ self.old.held → self.old.bytes.items ≡ batch held
            → Settled D.reads D.disk_clock D.images log bodies self.old.ruling self.old.end disk.old
            → OnOk result (Settled D.reads D.disk_clock D.images log (bodies ++ held) self.new.ruling self.new.end disk.new) }
        ensures any_moment { (log : Log) (bodies held : List (List ℕ)) → length held ≡ self.old.held → self.old.bytes.items ≡ batch held
            → Settled D.reads D.disk_clock D.images log bodies self.old.ruling self.old.end disk.old
            → EachImage D.disk_clock D.images (HoldsAllOrNone log bodies held) disk.old disk.new }
        ensures store { (head : Head) (image : List ℕ) (bodies held : List (List ℕ)) → Stands D.reads D.disk_clock D.images head image bodies self.old disk.old → Holding held self.old
            → OnOk result (Stands D.reads D.disk_clock D.images head image (bodies ++ held) self.new disk.new) }
        ensures leaves { (head : Head) (image : List ℕ) (bodies held : List (List ℕ)) → Stands D.reads D.disk_clock D.images head image bodies self.old disk.old → Holding held self.old
            → EachImage D.disk_clock D.images (HoldsWithOrWithout self.old.ruling head image bodies held) disk.old disk.new }
        ensures holding { OnOk result (Holding [] self.new) }
        ensures end { 0 < self.old.held → OnOk result (self.new.end ≡ self.old.end + 1 + length self.old.bytes.items) }
        ensures gate { 0 < self.old.held → OnOk result (ForSome (D.reads disk.new) (λ parts. slice_index (part_of self.new.ruling parts) self.new.end ≡ 0)) }
        ensures none { OnOk result (self.new.held ≡ 0) }
        ensures empty { OnOk result (self.new.bytes.items ≡ []) }
        ensures group { self.new.group ≡ self.old.group }
        ensures image { self.new.image_end ≡ self.old.image_end }
        ensures stands { StandsOn self.old self.new }
        ensures ready { OnOk result (ForSome (D.reads disk.new) (λ parts. self.new.end < length (part_of self.new.ruling parts))) }
        ensures beside { (n : ℕ) → ForSome (D.reads disk.old) (λ parts. n ≤ length (part_of (other self.old.ruling) parts)) → OnOk result (ForSome (D.reads disk.new) (λ parts. n ≤ length (part_of (other self.new.ruling) parts))) }
        ensures by { D.by_disk disk.old disk.new }
        ensures only { OnErr result (result ≡ Err DiskFault) }
        ensures cause { HasCause (D.disk_faults disk.old) (D.disk_faults disk.new) result }
    {
        if self.held == 0 {
            return Ok(());
        }
        let len = self.bytes.len();
        close_last(&mut self.bytes);
        let staged = stage(disk, self.ruling, self.end, &self.bytes);
        self.bytes.truncate(len);
        let next = staged?;
        open_gate(disk, self.ruling, self.end)?;
        self.end = next;
        self.bytes.clear();
        self.held = 0;
        Ok(())
    }

    /// Makes a record stable. The gate after it is 0.
    pub fn append<D: Disk>(&mut self, disk: &mut D, body: &[u8]) -> Result<(), JournalFault>
        requires some { 1 ≤ length body.now }
        requires most { length body.now ≤ longest_entry }
        requires none { self.old.held ≡ 0 }
        requires group { 1 ≤ self.old.group }
        requires place { ForSome (D.reads disk.old) (λ parts. self.old.end < length (part_of self.old.ruling parts)) }

        ensures added { (log : Log) (bodies : List (List ℕ)) → Settled D.reads D.disk_clock D.images log bodies self.old.ruling self.old.end disk.old
            → OnOk result (Settled D.reads D.disk_clock D.images log (bodies ++ body.now ∷ []) self.new.ruling self.new.end disk.new) }
        ensures any_moment { (log : Log) (bodies : List (List ℕ)) → Settled D.reads D.disk_clock D.images log bodies self.old.ruling self.old.end disk.old
            → EachImage D.disk_clock D.images (HoldsAllOrNone log bodies (body.now ∷ [])) disk.old disk.new }
        ensures store { (head : Head) (image : List ℕ) (bodies : List (List ℕ)) → Stands D.reads D.disk_clock D.images head image bodies self.old disk.old
            → OnOk result (Stands D.reads D.disk_clock D.images head image (bodies ++ body.now ∷ []) self.new disk.new) }
        ensures leaves { (head : Head) (image : List ℕ) (bodies : List (List ℕ)) → Stands D.reads D.disk_clock D.images head image bodies self.old disk.old
            → EachImage D.disk_clock D.images (HoldsWithOrWithout self.old.ruling head image bodies (body.now ∷ [])) disk.old disk.new }
        ensures holding { OnOk result (Holding [] self.new) }
        ensures end { OnOk result (self.new.end ≡ self.old.end + 5 + length body.now) }
        ensures gate { OnOk result (ForSome (D.reads disk.new) (λ parts. slice_index (part_of self.new.ruling parts) self.new.end ≡ 0)) }
        ensures none { OnOk result (self.new.held ≡ 0) }
        ensures group { self.new.group ≡ self.old.group }
        ensures image { self.new.image_end ≡ self.old.image_end }
        ensures stands { StandsOn self.old self.new }
        ensures ready { OnOk result (ForSome (D.reads disk.new) (λ parts. self.new.end < length (part_of self.new.ruling parts))) }
        ensures beside { (n : ℕ) → ForSome (D.reads disk.old) (λ parts. n ≤ length (part_of (other self.old.ruling) parts)) → OnOk result (ForSome (D.reads disk.new) (λ parts. n ≤ length (part_of (other self.new.ruling) parts))) }
        ensures by { D.by_disk disk.old disk.new }
        ensures only { OnErr result (result ≡ Err DiskFault) }
        ensures cause { HasCause (D.disk_faults disk.old) (D.disk_faults disk.new) result }
    {
        self.hold(body);
        self.flush(disk)
    }
}

// Adds the gate before a record, unless it is the first one.
fn open_between(bytes: &mut Vec<u8>, first: bool)
    requires { length bytes.old.items < vec_capacity bytes.old }
    ensures first { first ≡ true → bytes.new.items ≡ bytes.old.items }
    ensures more { first ≡ false → bytes.new.items ≡ bytes.old.items ++ 1 ∷ [] }
    ensures room { vec_capacity bytes.old ≤ vec_capacity bytes.new }
{
    if !first {
        if bytes.push(1).is_err() {
            unreachable!()
        }
    }
}

// Adds a record to those that are held.
fn append_record(bytes: &mut Vec<u8>, first: bool, body: &[u8])
    requires most { length body.now ≤ longest_entry }
    requires room { length bytes.old.items + longest_record ≤ vec_capacity bytes.old }
    ensures first { first ≡ true → bytes.new.items ≡ bytes.old.items ++ counted body.now }
    ensures more { first ≡ false → bytes.new.items ≡ bytes.old.items ++ 1 ∷ counted body.now }
    ensures room { vec_capacity bytes.old ≤ vec_capacity bytes.new }
{
    let count = spelled(body.len());
    open_between(bytes, first);
    if bytes.extend_from_slice(&count).is_err() {
        unreachable!()
    }
    if bytes.extend_from_slice(body).is_err() {
        unreachable!()
    }
}

// Adds a closed gate after the records that are held.
fn close_last(bytes: &mut Vec<u8>)
    requires { length bytes.old.items < vec_capacity bytes.old }
    ensures bytes { bytes.new.items ≡ bytes.old.items ++ 0 ∷ [] }
    ensures room { vec_capacity bytes.old ≤ vec_capacity bytes.new }
{
    if bytes.push(0).is_err() {
        unreachable!()
    }
}
