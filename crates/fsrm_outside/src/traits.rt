//! A source of bytes, a sink for bytes, a disk of two parts, and all three at once.

ghost use Rattle.std.specs.Prelude.{◌≡◌, ◌↔◌, ℕ, ◌+◌, ◌-◌, ◌^◌, ◌≤◌, ◌<◌, min, Option, Some, List, length, take, drop, IfOk, OnOk, OnErr};
ghost use Rattle.std.specs.Io.KnownBytes.{append_known};
ghost use Rattle.std.specs.Option.{option_map, ForSome};
ghost use Rattle.fsrm_outside.specs.Causes.{HasCause};
ghost use Rattle.fsrm_outside.specs.Changes.{Same, Through, Torn, Written};
ghost use Rattle.fsrm_outside.specs.Kept.{KeepsDisk, KeepsSink, KeepsSource};
ghost use Rattle.fsrm_outside.specs.Parts.{Parts, part_of};
ghost use Rattle.fsrm_outside.specs.Shown.{IsFront};
ghost use Rattle.fsrm_outside.specs.Told.{AtMostOneTick, GivesFront, Later};

/// A device did not do what it was asked, and counted the call as failed.
#[derive(Clone, Copy, Debug, PartialEq, Eq)]
pub struct Failed;

impl Failed {
    /// Counts one more failed call, up to `u64::MAX`.
    pub fn counted(faults: &mut u64) -> Failed
        ensures later { faults.old ≤ faults.new }
        ensures counted { faults.new ≡ min (faults.old + 1) (2 ^ 64 - 1) }
    {
        *faults = faults.saturating_add(1);
        Failed
    }
}

/// One of the two parts of a disk.
#[derive(Clone, Copy, Debug, PartialEq, Eq)]
pub enum Part {
    Zero,
    One,
}

/// A device that gives bytes in their order, each once.
pub trait Source {
    /// The bytes not yet taken, if the source tells them.
    ghost left: { Self → Option (List ℕ) };

    /// How many reads have failed.
    ghost read_faults: { Self → ℕ };

    /// What reads may make of a source: whatever each of them keeps, from the first state to the second.
    ghost by_read: { Self → Self → Type 0 };

    /// Moves bytes from the front of what is left to the front of `into`, and answers how many.
    ///
    /// That is 0 only at the end, or if `into` is empty. It may be fewer than are left and than
    /// `into` has room for, so the end is reached only when it is 0. `Failed`: the device failed, and
    /// no byte was taken. A later read may succeed. What `into` holds past the count, and all that it
    /// holds after an error, is left open.
    fn read(&mut self, into: &mut [u8]) -> Result<usize, Failed>
        ensures count { IfOk result (λ n. n ≤ length into.new) }
        ensures front { ForSome (left self.old) (λ bytes. IfOk result (λ n. GivesFront bytes n into.new)) }
        ensures rest { IfOk result (λ n. left self.new ≡ option_map (drop n) (left self.old)) }
        ensures failed { OnErr result (left self.new ≡ left self.old) }
        ensures by { by_read self.old self.new }
        ensures cause { HasCause (read_faults self.old) (read_faults self.new) result };

    /// If nothing is read, everything stays.
    ghost read_same: { (a : Self) → by_read a a };

    /// Reads and then further reads are reads.
    ghost read_then: { (a b c : Self) → by_read a b → by_read b c → by_read a c };
}

/// A device that takes bytes, and shows them in their order.
pub trait Sink {
    /// The bytes taken so far, if the sink tells them.
    ghost shown: { Self → Option (List ℕ) };

    /// How many calls were made on the device, if it tells what was shown at earlier moments. A
    /// moment is such a number. One call raises it by at most one.
    ghost sink_clock: { Self → Option ℕ };

    /// The bytes taken up to a moment. This says something only if the clock is told and has come to the
    /// moment.
    ghost shown_at: { Self → ℕ → List ℕ };

    /// How many writes have failed.
    ghost write_faults: { Self → ℕ };

    /// What writes may make of a sink: whatever each of them keeps, from the first state to the second.
    ghost by_write: { Self → Self → Type 0 };

    /// Takes bytes from the front of `bytes`, and answers how many.
    ///
    /// That is at least 1 of a piece that is not empty, and may be fewer than all. `Failed`: the
    /// device failed, and no byte was taken. A later write may succeed.
    fn write(&mut self, bytes: &[u8]) -> Result<usize, Failed>
        ensures count { IfOk result (λ n. n ≤ length bytes.now) }
        ensures some { IfOk result (λ n. 0 < length bytes.now → 0 < n) }
        ensures shown { IfOk result (λ n. shown self.new ≡ append_known (shown self.old) (take n bytes.now)) }
        ensures failed { OnErr result (shown self.new ≡ shown self.old) }
        ensures by { by_write self.old self.new }
        ensures clock { AtMostOneTick (sink_clock self.old) (sink_clock self.new) }
        ensures cause { HasCause (write_faults self.old) (write_faults self.new) result };

    /// If nothing is written, everything stays.
    ghost write_same: { (a : Self) → by_write a a };

    /// Writes and then further writes are writes.
    ghost write_then: { (a b c : Self) → by_write a b → by_write b c → by_write a c };

    /// The clock stays told, and doesn't go back.
    ghost write_later: { (a b : Self) → by_write a b → Later (sink_clock a) (sink_clock b) };

    /// What was shown at earlier moments stays.
    ghost write_past: { (a b : Self) (t m : ℕ) → by_write a b → sink_clock a ≡ Some t → m ≤ t → shown_at b m ≡ shown_at a m };

    /// What is shown is what is shown at this moment.
    ghost shown_now: { (a : Self) (t : ℕ) → sink_clock a ≡ Some t → shown a ≡ Some (shown_at a t) };

    /// What was shown isn't taken back.
    ghost shown_grows: { (a : Self) (t m n : ℕ) → sink_clock a ≡ Some t → m ≤ n → n ≤ t → IsFront (shown_at a m) (shown_at a n) };
}

/// A device that keeps bytes in two parts. A crash may tear what was written since the last sync.
///
/// A part is a row of bytes of some length. What a read gives is what was written last; what a crash
/// leaves is one of the *images* of its moment. Right after a `sync` that answered `Ok` the only image
/// is what a read gives. From then on a `write_at`, even one that failed, may leave any bytes in its
/// range, and any length between the part's and the range's end, until the next `sync` that answers
/// `Ok`.
pub trait Disk {
    /// What a read gives of both parts, if the disk tells it.
    ghost reads: { Self → Option Parts };

    /// How many calls were made on the device, if it tells its images. A moment is such a number. One call raises it
    /// by at most one, so no moment is skipped.
    ghost disk_clock: { Self → Option ℕ };

    /// What a crash at a moment may leave. This says something only if the clock is told and has come to
    /// the moment.
    ghost images: { Self → ℕ → Parts → Type 0 };

    /// How many calls have failed.
    ghost disk_faults: { Self → ℕ };

    /// What calls may make of a disk: whatever each of them keeps, from the first state to the second.
    ghost by_disk: { Self → Self → Type 0 };

    /// How many bytes a part has, which is at most 2^62. `Failed`: the device failed.
    fn len(&mut self, part: Part) -> Result<u64, Failed>
        ensures length { ForSome (reads self.old) (λ parts. IfOk result (λ n. n ≡ length (part_of part parts))) }
        ensures bound { IfOk result (λ n. n ≤ 2 ^ 62) }
        ensures reads { reads self.new ≡ reads self.old }
        ensures crash { Through disk_clock images Same self.old self.new }
        ensures by { by_disk self.old self.new }
        ensures clock { AtMostOneTick (disk_clock self.old) (disk_clock self.new) }
        ensures cause { HasCause (disk_faults self.old) (disk_faults self.new) result };

    /// Fills `into` from a place of a part on, up to the part's end, and answers how many bytes these
    /// are: 0 from the end on. `Failed`: the device failed. What `into` holds past the count, and all that it
    /// holds after an error, is left open.
    fn read_at(&mut self, part: Part, place: u64, into: &mut [u8]) -> Result<usize, Failed>
        ensures count { IfOk result (λ n. n ≤ length into.new) }
        ensures bytes { ForSome (reads self.old) (λ parts. IfOk result (λ n. take n into.new ≡ take (length into.old) (drop place (part_of part parts)))) }
        ensures reads { reads self.new ≡ reads self.old }
        ensures crash { Through disk_clock images Same self.old self.new }
        ensures by { by_disk self.old self.new }
        ensures clock { AtMostOneTick (disk_clock self.old) (disk_clock self.new) }
        ensures cause { HasCause (disk_faults self.old) (disk_faults self.new) result };

    /// Writes the bytes over those of a part from a place on, and past its end. The place is within the
    /// part, or at its end. Until the next sync a crash may leave any bytes in the range.
    ///
    /// `Failed`: the device failed, or the range would end past 2^62. Any bytes may then stand in the
    /// range, for reads too.
    fn write_at(&mut self, part: Part, place: u64, bytes: &[u8]) -> Result<(), Failed>
        requires { ForSome (reads self.old) (λ parts. place ≤ length (part_of part parts)) }
        ensures written { OnOk result (reads self.new ≡ option_map (Written part place bytes.now) (reads self.old)) }
        ensures bound { OnOk result (place + length bytes.now ≤ 2 ^ 62) }
        ensures failed { OnErr result (ForSome (reads self.old) (λ parts. (torn : Parts) × (reads self.new ≡ Some torn) × Torn part place (length bytes.now) parts torn)) }
        ensures crash { Through disk_clock images (Torn part place (length bytes.now)) self.old self.new }
        ensures by { by_disk self.old self.new }
        ensures clock { AtMostOneTick (disk_clock self.old) (disk_clock self.new) }
        ensures cause { HasCause (disk_faults self.old) (disk_faults self.new) result };

    /// Makes stable what was written. `Failed`: the device failed, and nothing need be stable.
    fn sync(&mut self) -> Result<(), Failed>
        ensures durable { (t : ℕ) (image : Parts) → OnOk result (disk_clock self.new ≡ Some t → images self.new t image → reads self.new ≡ Some image) }
        ensures reads { reads self.new ≡ reads self.old }
        ensures crash { Through disk_clock images Same self.old self.new }
        ensures by { by_disk self.old self.new }
        ensures clock { AtMostOneTick (disk_clock self.old) (disk_clock self.new) }
        ensures cause { HasCause (disk_faults self.old) (disk_faults self.new) result };

    /// If no call is made, everything stays.
    ghost disk_same: { (a : Self) → by_disk a a };

    /// Calls and then further calls are calls.
    ghost disk_then: { (a b c : Self) → by_disk a b → by_disk b c → by_disk a c };

    /// The clock stays told, and doesn't go back.
    ghost disk_later: { (a b : Self) → by_disk a b → Later (disk_clock a) (disk_clock b) };

    /// The images of earlier moments stay.
    ghost disk_past: { (a b : Self) (t m : ℕ) (image : Parts) → by_disk a b → disk_clock a ≡ Some t → m ≤ t → images b m image ↔ images a m image };

    /// What a read gives is one of the images of this moment.
    ghost reads_now: { (a : Self) (t : ℕ) (parts : Parts) → disk_clock a ≡ Some t → reads a ≡ Some parts → images a t parts };

    /// A disk that tells its images tells what a read gives.
    ghost tells_reads: { (a : Self) (t : ℕ) → disk_clock a ≡ Some t → (parts : Parts) × (reads a ≡ Some parts) };
}

/// A source, a sink and a disk in one, none of which touches the others.
pub trait Outside: Source + Sink + Disk {
    /// One clock counts the calls of all three.
    ghost one_clock: { (a : Self) (s t : ℕ) → Self.sink_clock a ≡ Some s → Self.disk_clock a ≡ Some t → s ≡ t };

    /// Reads change neither the disk nor what a crash may leave of it, and count none of its calls as failed.
    ghost read_keeps_disk: { (a b : Self) → Self.by_read a b → KeepsDisk Self.reads Self.disk_clock Self.images Self.disk_faults a b };

    /// Reads show nothing, and count no write as failed.
    ghost read_keeps_sink: { (a b : Self) → Self.by_read a b → KeepsSink Self.shown Self.sink_clock Self.shown_at Self.write_faults a b };

    /// Writes change neither the disk nor what a crash may leave of it, and count none of its calls as failed.
    ghost write_keeps_disk: { (a b : Self) → Self.by_write a b → KeepsDisk Self.reads Self.disk_clock Self.images Self.disk_faults a b };

    /// Writes take nothing from the source, and count no read as failed.
    ghost write_keeps_source: { (a b : Self) → Self.by_write a b → KeepsSource Self.left Self.read_faults a b };

    /// Calls of the disk show nothing, and count no write as failed.
    ghost disk_keeps_sink: { (a b : Self) → Self.by_disk a b → KeepsSink Self.shown Self.sink_clock Self.shown_at Self.write_faults a b };

    /// Calls of the disk take nothing from the source, and count no read as failed.
    ghost disk_keeps_source: { (a b : Self) → Self.by_disk a b → KeepsSource Self.left Self.read_faults a b };
}
