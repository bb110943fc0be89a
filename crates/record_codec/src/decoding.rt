//! Reading entries.

ghost use Rattle.std.specs.Prelude.{◌≡◌, ◌-◌, true, length, IfOk, Ok};
ghost use Rattle.fsrm_model.specs.declared.command.Entry.{Entry as EntryValue};
ghost use Rattle.record_fields.specs.Readers.{Gives};
ghost use Rattle.record_codec.specs.declared.fault.CodecFault.TheVariants.{BadRecord};
ghost use Rattle.record_codec.specs.Decoding.{Decodes, GoesWrong, IfBad};
ghost use Rattle.record_codec.specs.Entries.{entry as entry_format, decoded};

use crate::deeds::read_deed;
use crate::fault::CodecFault;
use crate::kinds::{Kind, read_kind};
use crate::numbers::{FolderField, MomentField};
use fsrm_model::{Command, Entry};
use record_fields::{Field, FieldFault, Flaw, Reader};
use std::alloc::Global;

/// The entry that bytes spell, all of them.
pub fn decode(alloc: Global, bytes: &[u8]) -> Result<Entry, CodecFault>
    // What is answered is legal, and the bytes are its spelling.
    ensures found { IfOk result (λ e. (entry_format.legal e ≡ true) × (bytes.now ≡ entry_format.spell e)) }
    // The spelling of a legal entry is read as that entry, unless memory runs out.
    ensures only { (e : EntryValue) → entry_format.legal e ≡ true → bytes.now ≡ entry_format.spell e → Decodes result (Ok e) }
    // The place that is told is where the bytes go wrong.
    ensures place { IfBad result (GoesWrong bytes.now) }
    // The same, computed.
    ensures exact { Decodes result (decoded bytes.now) }
{
    decode_exactly(alloc, bytes)
}

fn decode_exactly(alloc: Global, bytes: &[u8]) -> Result<Entry, CodecFault>
    ensures { Decodes result (decoded bytes.now) }
{
    let mut reader = Reader::new(bytes);
    match read_entry(alloc, &mut reader) {
        Ok(entry) => {
            let left = reader.left();
            if left != 0 {
                return Err(bad_record(bytes, left));
            }
            Ok(entry)
        }
        Err(FieldFault::NoMemory) => Err(CodecFault::NoMemory),
        Err(FieldFault::Flawed(Flaw::Truncated { left })) => Err(bad_record(bytes, left)),
        Err(FieldFault::Flawed(Flaw::Illegal { left })) => Err(bad_record(bytes, left)),
    }
}

// So many bytes before the end.
fn bad_record(bytes: &[u8], left: usize) -> CodecFault
    ensures { result ≡ BadRecord (length bytes.now - left) }
{
    CodecFault::BadRecord {
        place: bytes.len().saturating_sub(left) as u64,
    }
}

#[tactic(auto, unfolding(record_fields::specs::Formats::known_at))]
fn read_entry(alloc: Global, reader: &mut Reader<'_>) -> Result<Entry, FieldFault>
    ensures { Gives result reader.new (entry_format.read reader.old) }
{
    let moment = MomentField::read(alloc, reader)?;
    match read_kind(reader)? {
        Kind::Deed(kind) => {
            let deed = read_deed(alloc, reader, kind)?;
            Ok(Entry::Order(Command { moment, deed }))
        }
        Kind::Finish => {
            let folder = FolderField::read(alloc, reader)?;
            Ok(Entry::Finish { moment, folder })
        }
    }
}
