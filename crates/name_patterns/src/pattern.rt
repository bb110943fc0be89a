//! Patterns of file names.

ghost use Rattle.std.specs.Prelude.{◌≡◌, true, false, IfOk, OnOk, IsErrOf};
ghost use Rattle.std.specs.List.{list_all};
ghost use Rattle.fsrm_model.specs.values.Patterns.{is_pattern, is_pattern_byte, pattern_matches};

use crate::matching;
use fsrm_model::Text;
use name_rules::{NameFault, is_dots, is_name_byte, is_name_length};
use std::alloc::Global;
use std::convert::AsStr;
use std::marker::Model;

/// A pattern: the text of a name, 1 to 255 bytes, in which `*` and `?` may stand too; neither `.` nor
/// `..`. Contracts see it as its bytes.
#[derive(Drop)]
pub struct Pattern {
    text: Text,
}

impl Model for Pattern {
    ghost use Rattle.std.specs.Prelude.{◌≡◌, List, ℕ, true};
    ghost use Rattle.fsrm_model.specs.values.Patterns.{is_pattern};

    ghost Value = { List ℕ };

    ghost view = { λ p. p.text };

    ghost invariant = { λ p. is_pattern p.text ≡ true };
}

impl Pattern {
    /// The pattern that a text is. InvalidName exactly if it isn't one.
    pub fn read(alloc: Global, text: &str) -> Result<Pattern, NameFault>
        ensures ok { IfOk result (λ pattern. pattern ≡ text.now) }
        ensures may { OnOk result (is_pattern text.now ≡ true) }
        ensures invalid { IsErrOf result NameFault.InvalidName → is_pattern text.now ≡ false }
    {
        if !is_pattern(text) {
            return Err(NameFault::InvalidName);
        }
        let text = Text::from_str(alloc, text)?;
        Ok(Pattern { text })
    }

    /// The pattern's text, lent.
    pub fn as_str(&self) -> &str
        ensures text { result.now ≡ self.now }
        ensures valid { is_pattern result.now ≡ true }
    {
        self.text.as_str()
    }

    /// Whether a name matches: `*` stands for any characters, `?` for one, and each other character
    /// for those that fold as it does. `*.*` means `*`. It takes no memory, and time for the product
    /// of both lengths at most.
    pub fn matches(&self, name: &str) -> bool
        ensures { result ≡ pattern_matches name.now self.now }
    {
        matching::matches(self.as_str(), name)
    }
}

impl AsStr for Pattern {
    ghost text = { λ p. p };

    fn as_str(&self) -> &str {
        Pattern::as_str(self)
    }
}

/// Whether a text is a pattern: 1 to 255 bytes, those of a name, `*` and `?`; neither `.` nor `..`.
pub fn is_pattern(text: &str) -> bool
    ensures { result ≡ is_pattern text.now }
{
    let bytes = text.as_bytes();
    is_name_length(bytes.len()) && are_pattern_bytes(bytes) && !is_dots(bytes)
}

fn are_pattern_bytes(bytes: &[u8]) -> bool
    ensures { result ≡ list_all is_pattern_byte bytes.now }
{
    bytes.iter().all(|byte| is_pattern_byte(*byte))
}

fn is_pattern_byte(byte: u8) -> bool
    ensures { result ≡ is_pattern_byte byte }
{
    is_name_byte(byte) || matches!(byte, b'*' | b'?')
}
