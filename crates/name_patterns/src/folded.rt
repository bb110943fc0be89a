//! Names that are folded once for many patterns.

ghost use Rattle.std.specs.Prelude.{◌≡◌, ◌≤◌, length};
ghost use Rattle.ucd_case.specs.CaseFolding.{simple_fold};
ghost use Rattle.fsrm_model.specs.values.Limits.{longest_name};
ghost use Rattle.fsrm_model.specs.values.Name.{folded};

use fsrm_model::limits::LONGEST_NAME;
use std::marker::Model;
use unicode::case::simple_fold;

/// A name that is folded once for many patterns. Contracts see its folded characters.
#[derive(Drop)]
pub struct FoldedName {
    characters: [char; LONGEST_NAME],
    count: usize,
}

impl Model for FoldedName {
    ghost use Rattle.std.specs.Prelude.{List, ℕ, ◌≤◌, take};
    ghost use Rattle.fsrm_model.specs.values.Limits.{longest_name};

    ghost Value = { List ℕ };

    ghost view = { λ n. take n.count n.characters };

    ghost invariant = { λ n. n.count ≤ longest_name };
}

impl FoldedName {
    /// Folds a name of at most 255 bytes. It takes no memory.
    pub fn of(name: &str) -> FoldedName
        requires { length name.now ≤ longest_name }
        ensures { result ≡ folded name.now }
    {
        let mut characters = ['\0'; LONGEST_NAME];
        let mut count = 0;
        for character in name.chars() {
            characters[count] = fold(character);
            count += 1;
        }
        FoldedName { characters, count }
    }

    /// The folded characters, lent.
    pub fn characters(&self) -> &[char]
        ensures { result.now ≡ self.now }
    {
        &self.characters[..self.count]
    }
}

/// A character, folded. Folding lowers the letters of ASCII and leaves its other characters, so these need no look into
/// the table.
#[inline]
pub(crate) fn fold(character: char) -> char
    ensures { result ≡ simple_fold character }
{
    if character.is_ascii() {
        return character.to_ascii_lowercase();
    }
    simple_fold(character)
}
