//! Paths.

ghost use Rattle.std.specs.Prelude.{◌≡◌, ◌≤◌, ◌==◌, ◌+◌, ◌-◌, ◌++◌, true, codes, length, slice_index};
ghost use Rattle.record_fields.specs.Formats.{number_spelled, text_spelled};
ghost use Rattle.record_fields.specs.Writers.{Writes};
ghost use Rattle.record_codec.specs.Decoding.{Finds};
ghost use Rattle.record_codec.specs.Fields.{path, path_of, path_text};
ghost use Rattle.record_codec.specs.Paths.{is_spelled_so};
ghost use Rattle.record_codec.specs.Typed.{is_path_text};

use fsrm_model::Path;
use name_rules::{PathFault, read_path};
use record_fields::writer::put_number;
use record_fields::{Field, FieldFault, Flaw, Reader, put, put_u8};
use std::alloc::Global;

// `D:\` as a number, the lowest byte first.
const VOLUME: u64 = 0x5c_3a_44;

/// A path: `D:\` and its names, joined by `\`. It is a text, and so one field.
pub struct PathField;

impl Field for PathField {
    type Value = Path;

    ghost format = { path };

    #[tactic(auto, unfolding(record_fields::specs::Formats::known_at))]
    fn read(alloc: Global, reader: &mut Reader<'_>) -> Result<Path, FieldFault> {
        let left = reader.left();
        let text = reader.read_text()?;
        match spelled_path(alloc, text)? {
            Some(path) => Ok(path),
            None => Err(FieldFault::Flawed(Flaw::Illegal { left })),
        }
    }

    fn write(value: &Path, into: &mut [u8], at: usize) -> usize {
        put_path(value, into, at)
    }
}

// The path that a text spells.
fn spelled_path(alloc: Global, text: &str) -> Result<Option<Path>, FieldFault>
    ensures { Finds result (path_of text.now) }
{
    match read_path(alloc, text) {
        Ok(path) => {
            if is_spelled(text.as_bytes()) {
                return Ok(Some(path));
            }
            Ok(None)
        }
        Err(PathFault::NoMemory) => Err(FieldFault::NoMemory),
        Err(PathFault::InvalidPath) => Ok(None),
        Err(PathFault::InvalidName) => Ok(None),
    }
}

// Whether a path that is read is spelled so, as far as this can't be otherwise.
fn is_spelled(text: &[u8]) -> bool
    ensures { result ≡ is_spelled_so text.now }
{
    begins_with_d(text) && (text.len() == 3 || !ends_with_backslash(text))
}

fn begins_with_d(text: &[u8]) -> bool
    ensures { result ≡ (slice_index text.now 0 == 68) }
{
    text.len() > 0 && text[0] == b'D'
}

fn ends_with_backslash(text: &[u8]) -> bool
    ensures { result ≡ (slice_index text.now (length text.now - 1) == 92) }
{
    text.len() > 0 && text[text.len() - 1] == b'\\'
}

/// Writes a path, after its length. Its text is UTF-8.
#[inline(always)]
pub fn put_path(path: &Path, into: &mut [u8], at: usize) -> usize
    requires { at ≤ length into.old }
    ensures written { Writes into.old at into.new result (text_spelled (path_text path.now)) }
    ensures text { is_path_text path.now ≡ true }
{
    let names = path.joined();
    let begun = put_number(into, at, 5, front(names));
    put(into, begun, names.as_bytes())
}

/// Writes the byte of a kind whose first value is a path, and this path. Its text is UTF-8.
#[inline(always)]
pub fn put_on_path(kind: u8, path: &Path, into: &mut [u8], at: usize) -> usize
    requires { at ≤ length into.old }
    ensures written { Writes into.old at into.new result (number_spelled 1 kind ++ text_spelled (path_text path.now)) }
    ensures text { is_path_text path.now ≡ true }
{
    let after = put_u8(into, at, kind);
    put_path(path, into, after)
}

// What stands before the names of a path, as a number: the length of its text in two bytes, and its volume. An entry is
// only written of a path whose length has room there.
fn front(names: &str) -> u64
    ensures { number_spelled 5 result ≡ number_spelled 2 (3 + length names.now) ++ codes "D:\\" }
{
    ((3 + names.len()) % 65_536) as u64 + VOLUME * 65_536
}
