//! Names compared after simple case folding: each character by itself (The Unicode Standard, section
//! 3.13; CaseFolding.txt, statuses C and S). So a sharp s is no `ss`, and a final sigma is a sigma.

ghost use Rattle.std.specs.Ordering.{nat_cmp};
ghost use Rattle.std.specs.Char.{is_ascii, to_ascii_lowercase};
ghost use Rattle.std.specs.Prelude.{◌≡◌, ◌&&◌, true};
ghost use Rattle.std.specs.Str.{IsAscii};
ghost use Rattle.ucd_case.specs.CaseFolding.{simple_fold};
ghost use Rattle.fsrm_model.specs.values.Name.{same_name, name_cmp};
ghost use Rattle.name_rules.specs.Fronts.{HasSameFront};

use std::cmp::Ordering;
use unicode::case::simple_fold;

// The bit of each byte of a word that no character of ASCII has.
const HIGH_BITS: u64 = 0x8080_8080_8080_8080;

/// Whether two names are one after folding.
#[tactic(auto, using(crate::proofs::Folds::is_eq_name_cmp, crate::proofs::Folds::same_name_itself))]
pub fn same_name(a: &str, b: &str) -> bool
    ensures { result ≡ same_name a.now b.now }
{
    a == b || fold_cmp(a, b).is_eq()
}

/// The order of two names, by the numbers of their folded characters.
#[inline(never)]
pub fn fold_cmp(a: &str, b: &str) -> Ordering
    ensures { result ≡ name_cmp a.now b.now }
{
    // Folding lowers the letters of ASCII and leaves its other characters, so bytes are compared as long as both names
    // have characters of ASCII. If either has another, the rest is compared by characters: some fold to a letter of
    // ASCII, as the Kelvin sign does to k.
    let (ours, theirs) = (a.as_bytes(), b.as_bytes());
    let mut front = same_words(ours, theirs);
    while front < ours.len() && front < theirs.len() {
        let (one, other) = (ours[front], theirs[front]);
        if !are_ascii(one, other) {
            return cmp_characters(&a[front..], &b[front..]);
        }
        match cmp_lower(one, other) {
            Ordering::Equal => front += 1,
            order => return order,
        }
    }
    ours.len().cmp(&theirs.len())
}

// How many bytes at the front are the same in both and of ASCII, by words of eight.
#[inline]
fn same_words(a: &[u8], b: &[u8]) -> usize
    ensures { HasSameFront a.now b.now result }
{
    let (ours, _) = a.as_chunks::<8>();
    let (theirs, _) = b.as_chunks::<8>();
    let mut words = 0;
    while words < ours.len() && words < theirs.len() && is_same_word(&ours[words], &theirs[words]) {
        words += 1;
    }
    8 * words
}

#[inline]
fn is_same_word(one: &[u8; 8], other: &[u8; 8]) -> bool
    ensures same { result ≡ true → one.now ≡ other.now }
    ensures ascii { result ≡ true → IsAscii one.now }
{
    let word = u64::from_le_bytes(*one);
    word == u64::from_le_bytes(*other) && word & HIGH_BITS == 0
}

#[inline]
fn are_ascii(one: u8, other: u8) -> bool
    ensures { result ≡ (is_ascii one && is_ascii other) }
{
    one.is_ascii() && other.is_ascii()
}

// The order of two characters of ASCII, folded. Most are the same, so that is asked first.
#[inline]
fn cmp_lower(one: u8, other: u8) -> Ordering
    ensures { result ≡ nat_cmp (to_ascii_lowercase one) (to_ascii_lowercase other) }
{
    if one == other {
        return Ordering::Equal;
    }
    one.to_ascii_lowercase().cmp(&other.to_ascii_lowercase())
}

#[inline(never)]
fn cmp_characters(a: &str, b: &str) -> Ordering
    ensures { result ≡ name_cmp a.now b.now }
{
    let mut others = b.chars();
    for one in a.chars() {
        let Some(other) = others.next() else {
            return Ordering::Greater;
        };
        match cmp_folded(one, other) {
            Ordering::Equal => (),
            order => return order,
        }
    }
    match others.next() {
        Some(_) => Ordering::Less,
        None => Ordering::Equal,
    }
}

// A character is equal to itself without a look into the table.
#[inline]
fn cmp_folded(one: char, other: char) -> Ordering
    ensures { result ≡ nat_cmp (simple_fold one) (simple_fold other) }
{
    if one == other {
        return Ordering::Equal;
    }
    simple_fold(one).cmp(&simple_fold(other))
}
