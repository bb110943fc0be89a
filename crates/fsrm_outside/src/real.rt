//! The standard streams of the process, and two files.

ghost use Rattle.std.specs.Prelude.{◌≡◌, ◌≤◌, ◌<◌, ◌+◌, ◌^◌, length, IfOk, IfSome};
ghost use Rattle.fsrm_outside.specs.RealOutside.{opened_of};
ghost use Rattle.fsrm_outside.specs.declared.files.Opened.TheVariants.{NotYet};

use crate::files::Files;
use crate::{Disk, Failed, Outside, Part, Sink, Source};
use fsrm_base::NoMemory;
use std::alloc::Global;
use std::io::{ErrorKind, Read, Stdin, Stdout, Write};

// How often one call is made if a signal cuts each attempt short.
const ATTEMPTS: usize = 64;

// The most bytes that a part may have.
const MOST: u64 = 1 << 62;

/// Standard input and standard output, without a buffer, and the files `fsrm.store.0` and
/// `fsrm.store.1` of the current folder.
///
/// It tells no contents, since no clause can say what the system gives or takes. A call
/// that a signal cuts short is made again; one that is cut short 64 times has failed. A write to a
/// pipe that nobody reads fails like any other, and ends no process. Failed reads, writes and calls of
/// the disk are counted, each up to `u64::MAX`.
///
/// The first call of the disk opens both files, and makes those that are missing. So nothing is left in the folder by a
/// process that keeps nothing. If one of them can't be opened, this call has failed, and so has each later call of the
/// disk: neither file is used. A sync syncs the files that were written since the last one that succeeded. The first
/// also syncs what was there before, and the folder, which the names of new files are kept in. If a sync fails, so does
/// each later call of the disk, since the system may then take for stable what isn't.
#[derive(Drop)]
pub struct RealOutside {
    system: HostRuntime,
    input: Stdin,
    output: Stdout,
    files: Files,
    read_faults: u64,
    write_faults: u64,
    disk_faults: u64,
}

impl RealOutside {
    /// The streams of the process, which are open already, with no failed call counted. They need no
    /// memory, and the files are opened later, so this never answers `NoMemory`.
    pub fn new(rt: &HostRuntime, _alloc: Global) -> Result<RealOutside, NoMemory>
        ensures read_faults { IfOk result (λ o. ⟦<RealOutside as Source>⟧.read_faults o ≡ 0) }
        ensures write_faults { IfOk result (λ o. ⟦<RealOutside as Sink>⟧.write_faults o ≡ 0) }
        ensures disk_faults { IfOk result (λ o. ⟦<RealOutside as Disk>⟧.disk_faults o ≡ 0) }
        ensures files { IfOk result (λ o. opened_of o ≡ NotYet) }
    {
        Ok(RealOutside {
            system: *rt,
            input: rt.stdin(),
            output: rt.stdout(),
            files: Files::new(),
            read_faults: 0,
            write_faults: 0,
            disk_faults: 0,
        })
    }
}

// One read, made again if a signal cut it short.
fn read_some(input: &mut Stdin, into: &mut [u8]) -> Option<usize>
    ensures { IfSome result (λ n. n ≤ length into.new) }
{
    for _ in 0..ATTEMPTS {
        match input.read(into) {
            Ok(count) => return Some(count),
            Err(error) if error.kind() == ErrorKind::Interrupted => {}
            Err(_) => return None,
        }
    }
    None
}

// One write, made again if a signal cut it short. A stream that is given bytes and takes none has failed.
fn write_some(output: &mut Stdout, bytes: &[u8]) -> Option<usize>
    ensures count { IfSome result (λ n. n ≤ length bytes.now) }
    ensures some { IfSome result (λ n. 0 < length bytes.now → 0 < n) }
{
    for _ in 0..ATTEMPTS {
        match output.write(bytes) {
            Ok(count) if count > 0 || bytes.is_empty() => return Some(count),
            Err(error) if error.kind() == ErrorKind::Interrupted => {}
            _ => return None,
        }
    }
    None
}

impl Source for RealOutside {
    ghost use Rattle.std.specs.Prelude.{None};
    ghost use Rattle.fsrm_outside.specs.Causes.{HasCause, count_after};
    ghost use Rattle.fsrm_outside.specs.RealOutside.{ByRead, read_faults_of, read_same, read_then};

    ghost left = { λ _. None };

    ghost read_faults = { read_faults_of };

    ghost by_read = { ByRead };

    fn read(&mut self, into: &mut [u8]) -> Result<usize, Failed>
        ensures count { IfOk result (λ n. n ≤ length into.new) }
        ensures by { ByRead self.old self.new }
        ensures cause { HasCause (read_faults_of self.old) (read_faults_of self.new) result }
        ensures counted { read_faults_of self.new ≡ count_after (read_faults_of self.old) result }
    {
        match read_some(&mut self.input, into) {
            Some(count) => Ok(count),
            None => Err(Failed::counted(&mut self.read_faults)),
        }
    }

    ghost read_same = { read_same };

    ghost read_then = { read_then };
}

impl Sink for RealOutside {
    ghost use Rattle.std.specs.Prelude.{None, [], refl};
    ghost use Rattle.fsrm_outside.specs.Causes.{HasCause, count_after};
    ghost use Rattle.fsrm_outside.specs.RealOutside.{ByWrite, write_faults_of, write_same, write_then, untold};

    ghost shown = { λ _. None };

    ghost sink_clock = { λ _. None };

    ghost shown_at = { λ _ _. [] };

    ghost write_faults = { write_faults_of };

    ghost by_write = { ByWrite };

    fn write(&mut self, bytes: &[u8]) -> Result<usize, Failed>
        ensures count { IfOk result (λ n. n ≤ length bytes.now) }
        ensures some { IfOk result (λ n. 0 < length bytes.now → 0 < n) }
        ensures by { ByWrite self.old self.new }
        ensures cause { HasCause (write_faults_of self.old) (write_faults_of self.new) result }
        ensures counted { write_faults_of self.new ≡ count_after (write_faults_of self.old) result }
    {
        match write_some(&mut self.output, bytes) {
            Some(count) => Ok(count),
            None => Err(Failed::counted(&mut self.write_faults)),
        }
    }

    ghost write_same = { write_same };

    ghost write_then = { write_then };

    ghost write_later = { λ a b by. tt };

    ghost write_past = { λ a b t m by told few. refl };

    ghost shown_now = { λ a t told. untold t _ told };

    ghost shown_grows = { λ a t m n told first second. untold t _ told };
}

impl Disk for RealOutside {
    ghost use Rattle.std.specs.Prelude.{◌≢◌, false, true, IsSome, None, OnErr, OnOk};
    ghost use Rattle.fsrm_outside.specs.Causes.{HasCause};
    ghost use Rattle.fsrm_outside.specs.Files.{all_stable, file_of};
    ghost use Rattle.fsrm_outside.specs.RealOutside.{ByDisk, disk_faults_of, disk_same, disk_then, untold};
    ghost use Rattle.fsrm_outside.specs.declared.files.Opened.TheVariants.{Refused};

    ghost reads = { λ _. None };

    ghost disk_clock = { λ _. None };

    ghost images = { λ _ _ _. Unit {0} };

    ghost disk_faults = { disk_faults_of };

    ghost by_disk = { ByDisk };

    fn len(&mut self, part: Part) -> Result<u64, Failed>
        ensures bound { IfOk result (λ n. n ≤ 2 ^ 62) }
        ensures by { ByDisk self.old self.new }
        ensures cause { HasCause (disk_faults_of self.old) (disk_faults_of self.new) result }

        ensures tried { opened_of self.new ≢ NotYet }
        ensures opened { OnOk result (IsSome (file_of part (opened_of self.new))) }
    {
        self.files.open_once(&self.system);
        match self.files.len(part) {
            Some(length) if length <= MOST => Ok(length),
            _ => Err(Failed::counted(&mut self.disk_faults)),
        }
    }

    fn read_at(&mut self, part: Part, place: u64, into: &mut [u8]) -> Result<usize, Failed>
        ensures count { IfOk result (λ n. n ≤ length into.new) }
        ensures by { ByDisk self.old self.new }
        ensures cause { HasCause (disk_faults_of self.old) (disk_faults_of self.new) result }

        ensures tried { opened_of self.new ≢ NotYet }
        ensures opened { OnOk result (IsSome (file_of part (opened_of self.new))) }
    {
        self.files.open_once(&self.system);
        match self.files.read_at(part, place, into) {
            Some(count) => Ok(count),
            None => Err(Failed::counted(&mut self.disk_faults)),
        }
    }

    fn write_at(&mut self, part: Part, place: u64, bytes: &[u8]) -> Result<(), Failed>
        ensures bound { OnOk result (place + length bytes.now ≤ 2 ^ 62) }
        ensures by { ByDisk self.old self.new }
        ensures cause { HasCause (disk_faults_of self.old) (disk_faults_of self.new) result }

        ensures tried { opened_of self.new ≢ NotYet }
        ensures opened { OnOk result (IsSome (file_of part (opened_of self.new))) }
        ensures unsettled { OnOk result (all_stable (opened_of self.new) ≡ false) }
    {
        self.files.open_once(&self.system);
        let count = bytes.len() as u64;
        let fits = count <= MOST && place <= MOST - count;
        if !fits || !self.files.write_at(part, place, bytes) {
            return Err(Failed::counted(&mut self.disk_faults));
        }
        Ok(())
    }

    fn sync(&mut self) -> Result<(), Failed>
        ensures by { ByDisk self.old self.new }
        ensures cause { HasCause (disk_faults_of self.old) (disk_faults_of self.new) result }

        ensures tried { opened_of self.new ≢ NotYet }
        ensures stable { OnOk result (all_stable (opened_of self.new) ≡ true) }
        ensures refused { OnErr result (opened_of self.new ≡ Refused) }
    {
        self.files.open_once(&self.system);
        if !self.files.sync(&self.system) {
            return Err(Failed::counted(&mut self.disk_faults));
        }
        Ok(())
    }

    ghost disk_same = { disk_same };

    ghost disk_then = { disk_then };

    ghost disk_later = { λ a b by. tt };

    ghost disk_past = { λ a b t m image by told few. untold t _ told };

    ghost reads_now = { λ a t parts told is. untold t _ told };

    ghost tells_reads = { λ a t told. untold t _ told };
}

impl Outside for RealOutside {
    ghost use Rattle.fsrm_outside.specs.RealOutside.{disk_stays, sink_stays, source_stays, untold};

    ghost one_clock = { λ a s t sink disk. untold s _ sink };

    ghost read_keeps_disk = { λ a b by. disk_stays a b by.disk_faults };

    ghost read_keeps_sink = { λ a b by. sink_stays a b by.write_faults };

    ghost write_keeps_disk = { λ a b by. disk_stays a b by.disk_faults };

    ghost write_keeps_source = { λ a b by. source_stays a b by.read_faults };

    ghost disk_keeps_sink = { λ a b by. sink_stays a b by.write_faults };

    ghost disk_keeps_source = { λ a b by. source_stays a b by.read_faults };
}
