//! Reading an image that comes in pieces.

ghost use Rattle.std.specs.Prelude.{◌≡◌, ◌≤◌, ◌+◌, ◌-◌, ◌++◌, [], List as Items, ℕ, length, IfOk, IfErr, Err};
ghost use Rattle.record_fields.specs.declared.flaw.Flaw.TheVariants.{Illegal as IllegalFlaw};
ghost use Rattle.record_codec.specs.declared.fault.CodecFault.TheVariants.{BadRecord, NoMemory};
ghost use Rattle.image_codec.specs.ImageIn.{AreRead, ReadsOn, past_end, resumed, outcome};
ghost use Rattle.image_codec.specs.Images.{image_in};
ghost use Rattle.image_codec.specs.Sections.{Pauses, no_rows};

use crate::reading::{Pause, go_on};
use crate::section::Section;
use fsrm_base::List;
use fsrm_model::Rows;
use record_codec::CodecFault;
use record_fields::{FieldFault, Flaw};
use std::alloc::Global;

// How many bytes of a piece are taken at once: so many that what is held stays where the processor has it at hand.
const BITE: usize = 4_096;

/// A reader of an image that comes in pieces. It holds the rows that were read, and the bytes of the next one, which it
/// reads as soon as so many of them are due.
#[derive(Drop)]
pub struct ImageIn {
    alloc: Global,
    len: u64,
    came: u64,
    section: Section,
    still: usize,
    held: Vec<u8>,
    due: usize,
    rows: Rows,
}

impl ImageIn {
    /// A reader of an image of so many bytes.
    pub fn new(alloc: Global, len: u64) -> ImageIn
        ensures { (bytes : Items ℕ) → outcome result bytes ≡ image_in len bytes }
    {
        ImageIn {
            alloc,
            len,
            came: 0,
            section: Section::Start,
            still: 1,
            held: Vec::new(alloc),
            due: 0,
            rows: no_rows(alloc),
        }
    }

    /// Takes the next piece. After a fault it isn't called again.
    pub fn feed(&mut self, bytes: &[u8]) -> Result<(), CodecFault>
        // Whatever follows, what is answered is what was to be answered.
        ensures goes_on { IfOk result (λ u. (more : Items ℕ) → outcome self.new more ≡ outcome self.old (bytes.now ++ more)) }
        // Damage is told only where no bytes that follow can mend it.
        ensures damaged { (place : ℕ) → result ≡ Err (BadRecord place) → (more : Items ℕ) → outcome self.old (bytes.now ++ more) ≡ Err place }
    {
        let mut rest = bytes;
        while !rest.is_empty() {
            let (bite, after) = rest.split_at(rest.len().min(BITE));
            self.feed_bite(bite)?;
            rest = after;
        }
        Ok(())
    }

    /// The rows, if all bytes came, and they spell an image.
    pub fn finish(self) -> Result<Rows, CodecFault>
        ensures { AreRead result (outcome self []) }
    {
        let mut reader = self;
        let cut = reader.read_on(&[])?;
        let held = reader.held.as_slice().len();
        if cut.is_some() || held > 0 || reader.came != reader.len {
            return Err(bad_record(reader.came, cut.unwrap_or(held)));
        }
        Ok(reader.rows)
    }

    // Takes some bytes of a piece. Contracts say of it what they say of a piece.
    fn feed_bite(&mut self, bytes: &[u8]) -> Result<(), CodecFault>
        ensures goes_on { IfOk result (λ u. (more : Items ℕ) → outcome self.new more ≡ outcome self.old (bytes.now ++ more)) }
        ensures damaged { (place : ℕ) → result ≡ Err (BadRecord place) → (more : Items ℕ) → outcome self.old (bytes.now ++ more) ≡ Err place }
    {
        let room = self.len.saturating_sub(self.came);
        let count = (bytes.len() as u64).min(room) as usize;
        let (own, beyond) = bytes.split_at(count);
        if beyond.is_empty() && self.held.len().saturating_add(own.len()) < self.due {
            self.hold(own)?;
            return Ok(());
        }
        let cut = match self.read_on(own) {
            Ok(cut) => cut,
            Err(fault) => return Err(fault),
        };
        let held = self.held.as_slice().len();
        if is_past_end(cut, held, beyond.len()) {
            return Err(bad_record(self.came, cut.unwrap_or(held)));
        }
        Ok(())
    }

    // Takes bytes, and reads none yet.
    fn hold(&mut self, own: &[u8]) -> Result<(), CodecFault>
        requires { length own.now ≤ self.old.len - self.old.came }
        ensures reads { IfOk result (λ u. ReadsOn self.old own.now self.new) }
        ensures memory { IfErr result (λ fault. fault ≡ NoMemory) }
    {
        extend(&mut self.held, own)?;
        self.came += own.len() as u64;
        Ok(())
    }

    // Takes bytes that aren't more than those that are still to come. Answers how many of the bytes that are held then
    // are left from the field on that is cut short, or None at the end of the image.
    fn read_on(&mut self, own: &[u8]) -> Result<Option<usize>, CodecFault>
        requires { length own.now ≤ self.old.len - self.old.came }
        ensures reads { IfOk result (λ cut. ReadsOn self.old own.now self.new) }
        ensures pauses { IfOk result (λ cut. Pauses self.new.section self.new.rows self.new.still self.new.held.items cut) }
        ensures damaged { (place : ℕ) → result ≡ Err (BadRecord place) → (left : ℕ) × (place ≡ self.old.came + length own.now - left) × ((more : Items ℕ) → resumed self.old (own.now ++ more) ≡ Err (IllegalFlaw (left + length more))) }
    {
        self.hold(own)?;
        match go_on(
            self.alloc,
            &mut self.rows,
            self.section,
            self.still,
            self.held.as_slice(),
        ) {
            Ok(
                Pause {
                    section,
                    still,
                    rest,
                    cut,
                },
            ) => {
                // So the memory of what is held is kept for the next bytes.
                let next = copied(self.alloc, rest)?;
                self.held.clear();
                extend(&mut self.held, next.as_slice())?;
                self.due = due_after(self.held.len());
                self.section = section;
                self.still = still;
                Ok(cut)
            }
            Err(FieldFault::Flawed(Flaw::Illegal { left })) => Err(bad_record(self.came, left)),
            Err(FieldFault::Flawed(Flaw::Truncated { left: _ })) => unreachable!(),
            Err(FieldFault::NoMemory) => Err(CodecFault::NoMemory),
        }
    }
}

// How many bytes of a row that hasn't come whole are to be there when it is read again. A long one is read again when it
// is twice as long: so all its readings together take no more than some bytes for each of its own, however small the
// pieces are.
fn due_after(held: usize) -> usize {
    if held > BITE {
        return held.saturating_mul(2);
    }
    0
}

// Whether bytes follow those of a whole image: some that are held, or some past its length.
fn is_past_end(cut: Option<usize>, held: usize, beyond: usize) -> bool
    ensures { result ≡ past_end cut held beyond }
{
    beyond > 0 || (cut.is_none() && held > 0)
}

// So many bytes before those that came end.
fn bad_record(came: u64, left: usize) -> CodecFault
    ensures { result ≡ BadRecord (came - left) }
{
    CodecFault::BadRecord {
        place: came.saturating_sub(left as u64),
    }
}

fn copied(alloc: Global, bytes: &[u8]) -> Result<Vec<u8>, CodecFault>
    ensures ok { IfOk result (λ copy. copy.items ≡ bytes.now) }
    ensures err { IfErr result (λ fault. fault ≡ NoMemory) }
{
    match Vec::from_slice(alloc, bytes) {
        Ok(copy) => Ok(copy),
        Err(_) => Err(CodecFault::NoMemory),
    }
}

fn extend(bytes: &mut Vec<u8>, more: &[u8]) -> Result<(), CodecFault>
    ensures ok { IfOk result (λ u. bytes.new.items ≡ bytes.old.items ++ more.now) }
    ensures err { IfErr result (λ fault. fault ≡ NoMemory) }
{
    match bytes.extend_from_slice(more) {
        Ok(()) => Ok(()),
        Err(_) => Err(CodecFault::NoMemory),
    }
}

fn no_rows(alloc: Global) -> Rows
    ensures { result ≡ no_rows }
{
    Rows {
        nodes: List::new(alloc),
        quotas: List::new(alloc),
        templates: List::new(alloc),
        autos: List::new(alloc),
        groups: List::new(alloc),
        screens: List::new(alloc),
        excepts: List::new(alloc),
        jobs: List::new(alloc),
        acts: List::new(alloc),
        audits: List::new(alloc),
        queue: List::new(alloc),
        unvisited: List::new(alloc),
        run_limit: 0,
        last_moment: 0,
    }
}
