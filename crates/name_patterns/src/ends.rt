//! What names end with that match some patterns: a look at its last character spares most names the patterns.

ghost use Rattle.std.specs.Prelude.{◌≡◌, ◌||◌, ℕ, Bool, List as Items, false};
ghost use Rattle.name_patterns.specs.Ends.{Cover, is_end};
ghost use Rattle.name_patterns.specs.Folded.{pattern_matches_folded, some_matches};

use crate::folded::fold;
use crate::matching::{Rest, last, meant};
use fsrm_model::{List, Text};

/// What some names end with, as bits, of which each stands for the characters of one number modulo 128.
#[derive(Clone, Copy)]
pub struct Ends {
    bits: u128,
}

impl Ends {
    /// What no name ends with.
    pub fn none() -> Ends
        ensures { (character : ℕ) → is_end result character ≡ false }
    {
        Ends { bits: 0 }
    }

    /// What the names end with that match some pattern.
    pub fn of(patterns: &List<Text>) -> Ends
        ensures { Cover result (some_matches patterns.now) }
    {
        let mut ends = Ends::none();
        for pattern in patterns.as_slice() {
            ends = ends.or(Ends::of_pattern(pattern.as_str()));
        }
        ends
    }

    // What the names end with that match a pattern, or every character if any may be there. An empty pattern, of which
    // no group has one, gives all.
    fn of_pattern(pattern: &str) -> Ends
        ensures { Cover result (λ name. pattern_matches_folded name pattern.now) }
    {
        let all = Ends { bits: u128::MAX };
        let Some((wanted, _before)) = last(meant(pattern)) else {
            return all;
        };
        if wanted == '*' || wanted == '?' {
            return all;
        }
        Ends {
            bits: 1 << (fold(wanted) as u32 % 128),
        }
    }

    /// These ends and others.
    pub fn or(self, others: Ends) -> Ends
        ensures { (test other : Items ℕ → Bool) → Cover self test → Cover others other → Cover result (λ name. test name || other name) }
    {
        Ends {
            bits: self.bits | others.bits,
        }
    }

    // Whether a character is one of them.
    #[inline]
    fn has(self, character: char) -> bool
        ensures { result ≡ is_end self character }
    {
        self.bits >> (character as u32 % 128) & 1 == 1
    }

    /// Whether a name may pass a test, told by the ends of those that do. An empty name may.
    #[inline]
    pub fn may_have<N: Rest>(self, name: N) -> bool
        ensures { result ≡ false → (test : Items ℕ → Bool) → Cover self test → test (N.characters name) ≡ false }
    {
        match name.last_folded() {
            Some((last, _before)) => self.has(last),
            None => true,
        }
    }
}
