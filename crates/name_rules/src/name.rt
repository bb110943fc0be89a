//! Names of folders and files.

ghost use Rattle.std.specs.Prelude.{◌≡◌, ◌||◌, ◌&&◌, nat_lt, nat_le, true, false, IfOk, OnOk, IsErrOf, bytes_eq, codes};
ghost use Rattle.std.specs.List.{list_all, prefix_len};
ghost use Rattle.fsrm_model.specs.values.Limits.{longest_name};
ghost use Rattle.fsrm_model.specs.values.Name.{is_name, is_name_byte};

use fsrm_model::limits::LONGEST_NAME;
use fsrm_model::{NoMemory, Text};
use std::alloc::{AllocError, AllocFailed, Global};
use std::marker::Model;

// Whether a byte may stand in a name, by its number: it is asked of each byte of each path.
static NAME_BYTES: [bool; 256] = [
    false, false, false, false, false, false, false, false, false, false, false, false, false,
    false, false, false, false, false, false, false, false, false, false, false, false, false,
    false, false, false, false, false, false, true, true, false, true, true, true, true, true,
    true, true, false, true, true, true, true, false, true, true, true, true, true, true, true,
    true, true, true, false, true, false, true, false, false, true, true, true, true, true, true,
    true, true, true, true, true, true, true, true, true, true, true, true, true, true, true, true,
    true, true, true, true, true, true, false, true, true, true, true, true, true, true, true,
    true, true, true, true, true, true, true, true, true, true, true, true, true, true, true, true,
    true, true, true, true, true, true, true, false, true, true, false, true, true, true, true,
    true, true, true, true, true, true, true, true, true, true, true, true, true, true, true, true,
    true, true, true, true, true, true, true, true, true, true, true, true, true, true, true, true,
    true, true, true, true, true, true, true, true, true, true, true, true, true, true, true, true,
    true, true, true, true, true, true, true, true, true, true, true, true, true, true, true, true,
    true, true, true, true, true, true, true, true, true, true, true, true, true, true, true, true,
    true, true, true, true, true, true, true, true, true, true, true, true, true, true, true, true,
    true, true, true, true, true, true, true, true, true, true, true, true, true, true, true, true,
    true, true, true, true, true, true, true, true, true, true, true, true,
];

/// Why a text is read as no name.
#[derive(Clone, Copy, Debug, PartialEq, Eq)]
pub enum NameFault {
    /// It isn't one.
    InvalidName,
    /// Memory ran out.
    NoMemory,
}

impl From<NoMemory> for NameFault {
    ghost use Rattle.name_rules.specs.declared.name.NameFault.{NameFault};

    ghost from_gives = { λ _ fault. fault ≡ NameFault.NoMemory };

    fn from(_fault: NoMemory) -> Self {
        NameFault::NoMemory
    }
}

impl From<AllocError> for NameFault {
    ghost use Rattle.name_rules.specs.declared.name.NameFault.{NameFault};

    ghost from_gives = { λ _ fault. fault ≡ NameFault.NoMemory };

    fn from(_error: AllocError) -> Self {
        NameFault::NoMemory
    }
}

impl<T: Drop> From<AllocFailed<T>> for NameFault {
    ghost use Rattle.name_rules.specs.declared.name.NameFault.{NameFault};

    ghost from_gives = { λ _ fault. fault ≡ NameFault.NoMemory };

    fn from(_error: AllocFailed<T>) -> Self {
        NameFault::NoMemory
    }
}

/// A name: 1 to 255 bytes of UTF-8, without `< > : " / \ | ? *` and the control characters U+0000
/// to U+001F and U+007F, and neither `.` nor `..`. Contracts see it as its bytes.
#[derive(Drop)]
pub struct Name {
    text: Text,
}

impl Model for Name {
    ghost use Rattle.std.specs.Prelude.{◌≡◌, List, ℕ, true};
    ghost use Rattle.fsrm_model.specs.values.Name.{is_name};

    ghost Value = { List ℕ };

    ghost view = { λ n. n.text };

    ghost invariant = { λ n. is_name n.text ≡ true };
}

impl Name {
    /// The name that a text is. InvalidName exactly if it isn't one.
    pub fn read(alloc: Global, text: &str) -> Result<Name, NameFault>
        ensures ok { IfOk result (λ name. name ≡ text.now) }
        ensures may { OnOk result (is_name text.now ≡ true) }
        ensures invalid { IsErrOf result NameFault.InvalidName → is_name text.now ≡ false }
    {
        if !is_name(text) {
            return Err(NameFault::InvalidName);
        }
        let text = Text::from_str(alloc, text)?;
        Ok(Name { text })
    }

    /// The name's text, lent.
    pub fn as_str(&self) -> &str
        ensures text { result.now ≡ self.now }
        ensures valid { is_name result.now ≡ true }
    {
        self.text.as_str()
    }
}

/// Whether a text is a name.
pub fn is_name(text: &str) -> bool
    ensures { result ≡ is_name text.now }
{
    let bytes = text.as_bytes();
    is_name_length(bytes.len()) && are_name_bytes(bytes) && !is_dots(bytes)
}

/// How many bytes a text begins with that may stand in a name.
pub fn name_len(text: &[u8]) -> usize
    ensures { result ≡ prefix_len is_name_byte text.now }
{
    text.iter().take_while(|byte| is_name_byte(**byte)).count()
}

/// Whether bytes that may all stand in a name are one.
pub fn is_whole_name(bytes: &[u8]) -> bool
    requires { list_all is_name_byte bytes.now ≡ true }
    ensures { result ≡ is_name bytes.now }
{
    is_name_length(bytes.len()) && !is_dots(bytes)
}

/// Whether a name, or a pattern of names, may have so many bytes.
pub fn is_name_length(count: usize) -> bool
    ensures { result ≡ (nat_lt 0 count && nat_le count longest_name) }
{
    0 < count && count <= LONGEST_NAME
}

fn are_name_bytes(bytes: &[u8]) -> bool
    ensures { result ≡ list_all is_name_byte bytes.now }
{
    bytes.iter().all(|byte| is_name_byte(*byte))
}

/// Whether a text is `.` or `..`: the folder itself, or the one above it.
pub fn is_dots(bytes: &[u8]) -> bool
    ensures { result ≡ (bytes_eq bytes.now (codes ".") || bytes_eq bytes.now (codes "..")) }
{
    bytes == b".".as_slice() || bytes == b"..".as_slice()
}

/// Whether a byte may stand in a name.
#[inline]
pub fn is_name_byte(byte: u8) -> bool
    ensures { result ≡ is_name_byte byte }
{
    NAME_BYTES[byte as usize]
}
