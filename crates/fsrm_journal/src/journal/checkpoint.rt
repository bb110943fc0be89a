//! The change to the other half: its gate is closed, its head and its image are written, and then it is made to rule.

ghost use Rattle.std.specs.Prelude.{◌≡◌, ◌≤◌, ◌<◌, ◌+◌, ◌^◌, ℕ, List, [], ◌++◌, length, slice_index, true, Err, OnOk, OnErr};
ghost use Rattle.std.specs.Option.{ForSome};
ghost use Rattle.fsrm_outside.specs.Causes.{HasCause};
ghost use Rattle.fsrm_outside.specs.Moments.{EachImage};
ghost use Rattle.fsrm_outside.specs.Parts.{Parts, part_of, other};
ghost use Rattle.fsrm_journal.specs.Legal.{IsLegal};
ghost use Rattle.fsrm_journal.specs.declared.fault.JournalFault.TheVariants.{DiskFault};
ghost use Rattle.fsrm_journal.specs.declared.heads.Head.{Head};

use crate::fault::JournalFault;
use crate::halves::{
    close_beside, next_generation, open_beside, other, retire, spelled_head, write_beside,
};
use crate::heads::Head;
use crate::journal::Journal;
use fsrm_outside::Disk;

impl Journal {
    ghost use Rattle.fsrm_journal.specs.Halves.{Certain, Filling, IsNext, Knows, Stays, StaysOrFresh, Switched};
    ghost use Rattle.fsrm_journal.specs.Opened.{HoldsOn, StandsOn};
    ghost use Rattle.fsrm_journal.specs.Stores.{Changing, HoldsOldOrNew, HoldsStore, Stands};

    /// The generation that the next half has.
    pub fn next_generation(&self) -> u64
        ensures { IsNext self.now.generation result }
    {
        next_generation(self.generation)
    }

    /// Begins the half that is to rule next: its gate is closed, by 0 if it was open, and its head is written. Then
    /// `put_image` has to be given `head.image` bytes in all, and then comes `switch`. No record may be added between
    /// these. Up to `switch` the change may be given up, since the half that rules and its end stay: the disk is
    /// synced, and then records may be added, or a half begun anew.
    pub fn begin_half<D: Disk>(&mut self, disk: &mut D, head: &Head) -> Result<(), JournalFault>
        requires legal { IsLegal head.now }
        requires next { IsNext self.old.generation head.now.generation }
        requires place { ForSome (D.reads disk.old) (λ parts. 0 < length (part_of (other self.old.ruling) parts)) }
        ensures any_moment { (parts : Parts) → Certain D.reads D.disk_clock D.images parts disk.old → Knows parts self.old
            → EachImage D.disk_clock D.images (Stays self.old.ruling (part_of self.old.ruling parts)) disk.old disk.new }
        ensures begun { (parts : Parts) → Certain D.reads D.disk_clock D.images parts disk.old → Knows parts self.old
            → OnOk result (Filling D.reads D.disk_clock D.images (part_of self.old.ruling parts) head.now [] self.new disk.new) }
        ensures store { (was : Head) (image : List ℕ) (bodies : List (List ℕ)) → Stands D.reads D.disk_clock D.images was image bodies self.old disk.old
            → OnOk result (Changing D.reads D.disk_clock D.images was image bodies head.now [] self.new disk.new) }
        ensures leaves { (was : Head) (image : List ℕ) (bodies : List (List ℕ)) → Stands D.reads D.disk_clock D.images was image bodies self.old disk.old
            → EachImage D.disk_clock D.images (HoldsStore self.old.ruling was image bodies) disk.old disk.new }
        ensures gate { self.old.beside_open ≡ true → OnOk result (ForSome (D.reads disk.new) (λ parts. slice_index (part_of (other self.new.ruling) parts) 0 ≡ 0)) }
        ensures held { HoldsOn self.old self.new }
        ensures ruling { self.new.ruling ≡ self.old.ruling }
        ensures generation { self.new.generation ≡ self.old.generation }
        ensures image { self.new.image_end ≡ self.old.image_end }
        ensures end { self.new.end ≡ self.old.end }
        ensures here { (n : ℕ) → ForSome (D.reads disk.old) (λ parts. n ≤ length (part_of self.old.ruling parts)) → OnOk result (ForSome (D.reads disk.new) (λ parts. n ≤ length (part_of self.new.ruling parts))) }
        ensures ready { OnOk result (ForSome (D.reads disk.new) (λ parts. self.new.written ≤ length (part_of (other self.new.ruling) parts))) }
        ensures by { D.by_disk disk.old disk.new }
        ensures only { OnErr result (result ≡ Err DiskFault) }
        ensures cause { HasCause (D.disk_faults disk.old) (D.disk_faults disk.new) result }
    {
        close_beside(disk, self.ruling, self.beside_open)?;
        self.beside_open = false;
        let bytes = spelled_head(head);
        write_beside(disk, self.ruling, 1, &bytes[1..])?;
        self.written = 48;
        Ok(())
    }

    /// Writes the next piece of the image. After an error the place of the next one is as it was.
    pub fn put_image<D: Disk>(&mut self, disk: &mut D, piece: &[u8]) -> Result<(), JournalFault>
        requires place { ForSome (D.reads disk.old) (λ parts. self.old.written ≤ length (part_of (other self.old.ruling) parts)) }
        ensures any_moment { (half front : List ℕ) (head : Head) → Filling D.reads D.disk_clock D.images half head front self.old disk.old
            → EachImage D.disk_clock D.images (Stays self.old.ruling half) disk.old disk.new }
        ensures put { (half front : List ℕ) (head : Head) → Filling D.reads D.disk_clock D.images half head front self.old disk.old
            → OnOk result (Filling D.reads D.disk_clock D.images half head (front ++ piece.now) self.new disk.new) }
        ensures store { (was head : Head) (image front : List ℕ) (bodies : List (List ℕ)) → Changing D.reads D.disk_clock D.images was image bodies head front self.old disk.old
            → OnOk result (Changing D.reads D.disk_clock D.images was image bodies head (front ++ piece.now) self.new disk.new) }
        ensures leaves { (was head : Head) (image front : List ℕ) (bodies : List (List ℕ)) → Changing D.reads D.disk_clock D.images was image bodies head front self.old disk.old
            → EachImage D.disk_clock D.images (HoldsStore self.old.ruling was image bodies) disk.old disk.new }
        ensures held { HoldsOn self.old self.new }
        ensures ruling { self.new.ruling ≡ self.old.ruling }
        ensures stands { StandsOn self.old self.new }
        ensures image { self.new.image_end ≡ self.old.image_end }
        ensures end { self.new.end ≡ self.old.end }
        ensures err { OnErr result (self.new.written ≡ self.old.written) }
        ensures here { (n : ℕ) → ForSome (D.reads disk.old) (λ parts. n ≤ length (part_of self.old.ruling parts)) → OnOk result (ForSome (D.reads disk.new) (λ parts. n ≤ length (part_of self.new.ruling parts))) }
        ensures ready { OnOk result (ForSome (D.reads disk.new) (λ parts. self.new.written ≤ length (part_of (other self.new.ruling) parts))) }
        ensures by { D.by_disk disk.old disk.new }
        ensures only { OnErr result (result ≡ Err DiskFault) }
        ensures cause { HasCause (D.disk_faults disk.old) (D.disk_faults disk.new) result }
    {
        write_beside(disk, self.ruling, self.written, piece)?;
        self.written += piece.len() as u64;
        Ok(())
    }

    /// Makes the half that was written rule. Records may be added to it, and it holds none yet. The half that ruled
    /// stays open with its lesser generation and all its bytes; only after the greatest generation its gate is closed.
    pub fn switch<D: Disk>(&mut self, disk: &mut D) -> Result<(), JournalFault>
        requires place { ForSome (D.reads disk.old) (λ parts. self.old.written ≤ length (part_of (other self.old.ruling) parts)) }
        ensures any_moment { (half image : List ℕ) (head : Head) → head.image ≡ length image → Filling D.reads D.disk_clock D.images half head image self.old disk.old
            → EachImage D.disk_clock D.images (StaysOrFresh self.old.ruling half head image) disk.old disk.new }
        ensures switched { (half image : List ℕ) (head : Head) → head.image ≡ length image → Filling D.reads D.disk_clock D.images half head image self.old disk.old
            → OnOk result (Switched D.reads D.disk_clock D.images half head image self.new disk.new) }
        ensures store { (was head : Head) (image new : List ℕ) (bodies : List (List ℕ)) → head.image ≡ length new → Changing D.reads D.disk_clock D.images was image bodies head new self.old disk.old
            → OnOk result (Stands D.reads D.disk_clock D.images head new [] self.new disk.new) }
        ensures leaves { (was head : Head) (image new : List ℕ) (bodies : List (List ℕ)) → head.image ≡ length new → Changing D.reads D.disk_clock D.images was image bodies head new self.old disk.old
            → EachImage D.disk_clock D.images (HoldsOldOrNew self.old.ruling was image bodies head new) disk.old disk.new }
        ensures held { HoldsOn self.old self.new }
        ensures ruling { OnOk result (self.new.ruling ≡ other self.old.ruling) }
        ensures none { OnOk result (self.new.image_end ≡ self.new.end) }
        ensures beside { (n : ℕ) → ForSome (D.reads disk.old) (λ parts. n ≤ length (part_of self.old.ruling parts)) → OnOk result (ForSome (D.reads disk.new) (λ parts. n ≤ length (part_of (other self.new.ruling) parts))) }
        ensures ready { OnOk result (ForSome (D.reads disk.new) (λ parts. self.new.end < length (part_of self.new.ruling parts))) }
        ensures by { D.by_disk disk.old disk.new }
        ensures only { OnErr result (result ≡ Err DiskFault) }
        ensures cause { HasCause (D.disk_faults disk.old) (D.disk_faults disk.new) result }
    {
        write_beside(disk, self.ruling, self.written, &[0])?;
        open_beside(disk, self.ruling)?;
        let still_open = retire(disk, self.ruling, self.generation)?;
        self.beside_open = still_open;
        self.ruling = other(self.ruling);
        self.generation = next_generation(self.generation);
        self.image_end = self.written;
        self.end = self.written;
        Ok(())
    }
}
