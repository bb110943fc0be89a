//! The two files of a store.

ghost use Rattle.std.specs.Prelude.{◌≡◌, ◌≢◌, ◌≤◌, false, length, option_copied, true, IfSome, IsSome, OnSome};
ghost use Rattle.fsrm_outside.specs.Files.{all_stable, file_of, unsettled, IsFresh};
ghost use Rattle.fsrm_outside.specs.declared.files.Opened.TheVariants.{NotYet, Refused};

use crate::Part;
use std::fs::{File, OpenOptions};
use std::io::ErrorKind;
use std::os::unix::fs::FileExt;

const NAME_OF_ZERO: &str = "fsrm.store.0";

const NAME_OF_ONE: &str = "fsrm.store.1";

// A file, and whether all that it holds is stable.
#[derive(Drop)]
struct PartFile {
    file: File,
    is_stable: bool,
}

// What the current folder has for the two parts of a disk.
#[derive(Drop)]
enum Opened {
    // No call has come yet.
    NotYet,
    // Both files, and whether the folder's names of them are stable.
    Both(PartFile, PartFile, bool),
    // One of them couldn't be opened, or a sync failed.
    Refused,
}

/// The files `fsrm.store.0` and `fsrm.store.1` of the current folder.
///
/// They are opened once, both together, and made if they are missing. If one can't be opened, or a sync fails, all calls
/// fail from then on. No clause can say what the system gives or takes.
#[derive(Drop)]
pub struct Files {
    opened: Opened,
}

impl Files {
    /// Nothing is opened yet.
    pub fn new() -> Files
        ensures { result.opened ≡ NotYet }
    {
        Files {
            opened: Opened::NotYet,
        }
    }

    /// Opens both files, unless that was done or refused before.
    pub fn open_once(&mut self, rt: &HostRuntime)
        ensures first { self.old.opened ≡ NotYet → IsFresh self.new.opened }
        ensures tried { self.new.opened ≢ NotYet }
        ensures later { self.old.opened ≢ NotYet → self.new.opened ≡ self.old.opened }
    {
        if matches!(self.opened, Opened::NotYet) {
            self.opened = open_both(rt);
        }
    }

    /// How long a part is.
    pub fn len(&self, part: Part) -> Option<u64>
        ensures { OnSome result (IsSome (file_of part self.now.opened)) }
    {
        match self.file(part)?.metadata() {
            Ok(data) => Some(data.len()),
            Err(_) => None,
        }
    }

    /// Fills the buffer from a place of a part on, up to its end.
    pub fn read_at(&self, part: Part, place: u64, into: &mut [u8]) -> Option<usize>
        ensures opened { OnSome result (IsSome (file_of part self.now.opened)) }
        ensures count { IfSome result (λ n. n ≤ length into.new) }
    {
        filled(self.file(part)?, place, into)
    }

    /// Writes the bytes over those of a part, and past its end. False: it failed, and a part of them may be there.
    pub fn write_at(&mut self, part: Part, place: u64, bytes: &[u8]) -> bool
        ensures opened { result ≡ true → IsSome (file_of part self.old.opened) }
        ensures unsettled { self.new.opened ≡ unsettled part self.old.opened }
    {
        match (&mut self.opened, part) {
            (Opened::Both(zero, _, _), Part::Zero) => write_to(zero, place, bytes),
            (Opened::Both(_, one, _), Part::One) => write_to(one, place, bytes),
            _ => false,
        }
    }

    /// Makes stable what was written to both, and the first time also what was there before and the names of the files.
    /// After a sync that failed the system may take what was written for stable, and a further one would succeed; so
    /// no call does from then on.
    pub fn sync(&mut self, rt: &HostRuntime) -> bool
        ensures stable { result ≡ true → all_stable self.new.opened ≡ true }
        ensures files { (part : Part) → result ≡ true → file_of part self.new.opened ≡ file_of part self.old.opened }
        ensures refused { result ≡ false → self.new.opened ≡ Refused }
        ensures stays { self.old.opened ≡ Refused → result ≡ false }
    {
        let is_stable = self.sync_both(rt);
        if !is_stable {
            self.opened = Opened::Refused;
        }
        is_stable
    }

    fn sync_both(&mut self, rt: &HostRuntime) -> bool
        ensures stable { result ≡ all_stable self.new.opened }
        ensures stays { self.old.opened ≡ Refused → result ≡ false }
        ensures files { (part : Part) → file_of part self.new.opened ≡ file_of part self.old.opened }
    {
        match &mut self.opened {
            Opened::Both(zero, one, is_named) => {
                sync_file(zero) && sync_file(one) && sync_folder(rt, is_named)
            }
            _ => false,
        }
    }

    fn file(&self, part: Part) -> Option<&File>
        ensures { option_copied result ≡ file_of part self.now.opened }
    {
        match (&self.opened, part) {
            (Opened::Both(zero, _, _), Part::Zero) => Some(&zero.file),
            (Opened::Both(_, one, _), Part::One) => Some(&one.file),
            _ => None,
        }
    }
}

fn open_both(rt: &HostRuntime) -> Opened
    ensures { IsFresh result }
{
    let Some(zero) = open_part(rt, NAME_OF_ZERO) else {
        return Opened::Refused;
    };
    let Some(one) = open_part(rt, NAME_OF_ONE) else {
        return Opened::Refused;
    };
    Opened::Both(zero, one, false)
}

// An earlier process may have written what isn't stable yet.
fn open_part(rt: &HostRuntime, path: &str) -> Option<PartFile>
    ensures { IfSome result (λ part. part.is_stable ≡ false) }
{
    let file = OpenOptions::new()
        .read(true)
        .write(true)
        .create(true)
        .open(rt, path)
        .ok()?;
    Some(PartFile {
        file,
        is_stable: false,
    })
}

// Fills the buffer from a place on, up to the file's end, however little one read gives.
fn filled(file: &File, place: u64, into: &mut [u8]) -> Option<usize>
    ensures { IfSome result (λ n. n ≤ length into.new) }
{
    let mut done = 0;
    for _ in 0..u64::MAX {
        if done >= into.len() {
            return Some(done);
        }
        match file.read_at(&mut into[done..], place.wrapping_add(done as u64)) {
            Ok(0) => return Some(done),
            Ok(count) => done += count,
            Err(error) if error.kind() == ErrorKind::Interrupted => {}
            Err(_) => return None,
        }
    }
    None
}

fn write_to(part: &mut PartFile, place: u64, bytes: &[u8]) -> bool
    ensures { part.new ≡ record part.old { is_stable = false } }
{
    part.is_stable = false;
    part.file.write_all_at(bytes, place).is_ok()
}

fn sync_file(part: &mut PartFile) -> bool
    ensures { part.new ≡ record part.old { is_stable = result } }
{
    part.is_stable = part.is_stable || part.file.sync_all().is_ok();
    part.is_stable
}

// Makes stable which files the folder has, unless it is.
fn sync_folder(rt: &HostRuntime, is_named: &mut bool) -> bool
    ensures { result ≡ is_named.new }
{
    *is_named = *is_named || File::open(rt, ".").is_ok_and(|folder| folder.sync_all().is_ok());
    *is_named
}
