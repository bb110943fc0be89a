//! Whether a name matches a pattern, without memory and without recursion: what stands after the last star is compared
//! once, with the end of the name, and of the stars before it only the last one that was met is ever tried again.

ghost use Rattle.std.specs.Prelude.{◌≡◌, ◌∷◌, ◌++◌, [], MatchOption, chars};
ghost use Rattle.fsrm_model.specs.values.Name.{folded};
ghost use Rattle.fsrm_model.specs.values.Patterns.{meant, some_end};
ghost use Rattle.name_patterns.specs.Folded.{matches_folded, pattern_matches_folded, some_matches, stands_for_folded};
ghost use Rattle.name_patterns.specs.Met.{BeginsWith, EndsWith, HaveMet};

use crate::folded::fold;
use fsrm_model::{List, Text};

/// A name, or what is left of it. A pattern is matched with its folded characters alone.
pub trait Rest: Copy {
    ghost use Rattle.std.specs.Prelude.{List, ℕ};

    ghost characters: { Self → List ℕ };

    /// Its first character, folded, and what is after it.
    fn first_folded(self) -> Option<(char, Self)>
        ensures { MatchOption result (characters self ≡ []) (λ cut. characters self ≡ cut.0 ∷ characters cut.1) };

    /// Its last character, folded, and what is before it.
    fn last_folded(self) -> Option<(char, Self)>
        ensures { MatchOption result (characters self ≡ []) (λ cut. characters self ≡ characters cut.1 ++ cut.0 ∷ []) };
}

// A text of any length. It is folded as it is read, so it takes no room.
impl<'a> Rest for &'a str {
    ghost characters = { λ text. folded text.now };

    #[inline]
    fn first_folded(self) -> Option<(char, &'a str)> {
        let (character, after) = first(self)?;
        Some((fold(character), after))
    }

    #[inline]
    fn last_folded(self) -> Option<(char, &'a str)> {
        let (character, before) = last(self)?;
        Some((fold(character), before))
    }
}

// Characters that were folded before, once for many patterns.
impl<'a> Rest for &'a [char] {
    ghost characters = { λ characters. characters.now };

    #[inline]
    fn first_folded(self) -> Option<(char, &'a [char])> {
        let (character, after) = self.split_first()?;
        Some((*character, after))
    }

    #[inline]
    fn last_folded(self) -> Option<(char, &'a [char])> {
        let (character, before) = self.split_last()?;
        Some((*character, before))
    }
}

/// Whether a name matches some pattern.
pub fn some_matches<N: Rest>(patterns: &List<Text>, name: N) -> bool
    ensures { result ≡ some_matches patterns.now (N.characters name) }
{
    patterns
        .as_slice()
        .iter()
        .any(|pattern| matches(pattern.as_str(), name))
}

/// Whether a name matches the pattern of this text.
pub fn matches<N: Rest>(pattern: &str, name: N) -> bool
    ensures { result ≡ pattern_matches_folded (N.characters name) pattern.now }
{
    is_match(meant(pattern), name)
}

/// The pattern that is meant: `*.*` means `*`.
#[inline]
pub fn meant(pattern: &str) -> &str
    ensures { result.now ≡ meant pattern.now }
{
    if pattern == "*.*" { "*" } else { pattern }
}

// What a pattern and a name come to, after characters of both that stand for one another.
enum Met<'a, N> {
    // A star, with what stands after it, and what is left of the name.
    Star(&'a str, N),
    // Both have ended.
    Ended,
    // The name doesn't match.
    Apart,
}

// What stands after the last star is compared with the end of the name, from the end on.
fn is_match<N: Rest>(pattern: &str, name: N) -> bool
    ensures { result ≡ matches_folded (chars pattern.now) (N.characters name) }
{
    let (mut pattern, mut name) = (pattern, name);
    while let Some((wanted, before)) = last(pattern) {
        if wanted == '*' {
            return is_front_match(pattern, name);
        }
        let Some((character, rest)) = name.last_folded() else {
            return false;
        };
        if !stands_for(wanted, character) {
            return false;
        }
        pattern = before;
        name = rest;
    }
    name.last_folded().is_none()
}

// The same, from the front on. It is asked of patterns that end with a star, and right for all.
fn is_front_match<N: Rest>(pattern: &str, name: N) -> bool
    ensures { result ≡ matches_folded (chars pattern.now) (N.characters name) }
{
    match meet(pattern, name) {
        Met::Star(after, rest) => some_end_matches(after, rest),
        Met::Ended => true,
        Met::Apart => false,
    }
}

// Whether some end of the name matches, as after a star. If the pattern comes to another star, each end of the
// name that the first star leads to is one that the other leads to as well; so the first is done with.
fn some_end_matches<N: Rest>(pattern: &str, name: N) -> bool
    ensures { result ≡ some_end (matches_folded (chars pattern.now)) (N.characters name) }
{
    // What stands after the last star, and the end of the name that is tried for it.
    let (mut starred, mut end) = (pattern, name);
    while !starred.is_empty() {
        match meet(starred, end) {
            Met::Star(after, rest) => {
                starred = after;
                end = rest;
            }
            Met::Ended => return true,
            Met::Apart => {
                let Some((_, next)) = end.first_folded() else {
                    return false;
                };
                end = next;
            }
        }
    }
    true
}

// Goes over characters that stand for one another, up to the first star.
#[inline]
fn meet<'a, N: Rest>(pattern: &'a str, name: N) -> Met<'a, N>
    ensures { HaveMet N.characters pattern.now name result }
{
    let (mut pattern, mut name) = (pattern, name);
    loop {
        match (first(pattern), name.first_folded()) {
            (Some(('*', after)), _) => return Met::Star(after, name),
            (Some((wanted, after)), Some((character, rest))) if stands_for(wanted, character) => {
                pattern = after;
                name = rest;
            }
            (None, None) => return Met::Ended,
            _ => return Met::Apart,
        }
    }
}

// A text's first character, and what is after it.
fn first(text: &str) -> Option<(char, &str)>
    ensures { MatchOption result (chars text.now ≡ []) (λ cut. BeginsWith text.now cut.0 cut.1.now) }
{
    let mut characters = text.chars();
    let character = characters.next()?;
    Some((character, characters.as_str()))
}

/// A text's last character, and what is before it.
#[inline]
pub(crate) fn last(text: &str) -> Option<(char, &str)>
    ensures { MatchOption result (chars text.now ≡ []) (λ cut. EndsWith text.now cut.0 cut.1.now) }
{
    let mut characters = text.chars();
    let character = characters.next_back()?;
    Some((character, characters.as_str()))
}

#[inline]
fn stands_for(wanted: char, folded: char) -> bool
    ensures { result ≡ stands_for_folded wanted folded }
{
    wanted == '?' || fold(wanted) == folded
}
