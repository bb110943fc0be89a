//! Numbers as the bits of words: number n is bit n % 64 of word n / 64.

ghost use Rattle.std.specs.Prelude.{◌≡◌, ℕ, ◌*◌, ◌/◌, ◌<◌, ◌==◌, ◌||◌, ◌&&◌, not, false, IfOk, MatchOption, length, slice_index, replicate};
ghost use Rattle.number_set.specs.Words.{has_bit, is_occupied, IsLeastIn};

use fsrm_base::NoMemory;
use std::alloc::Global;

/// How many numbers a word holds.
pub(crate) const WORD: u32 = 64;

/// So many words without a bit.
pub(crate) fn empty_words(alloc: Global, count: u32) -> Result<Vec<u64>, NoMemory>
    ensures { IfOk result (λ words. words.items ≡ replicate count 0) }
{
    let mut words = Vec::new(alloc);
    words.resize(count as usize, 0)?;
    Ok(words)
}

/// Whether the bit of a number is set. Past the last word none is.
pub(crate) fn has_bit(words: &[u64], number: u32) -> bool
    ensures { result ≡ has_bit words.now number }
{
    match words.get((number / WORD) as usize) {
        Some(word) => *word >> (number % WORD) & 1 == 1,
        None => false,
    }
}

/// Sets the bit of a number. Answers whether its word was empty.
pub(crate) fn set_bit(words: &mut [u64], number: u32) -> bool
    requires { number / 64 < length words.old }
    ensures length { length words.new ≡ length words.old }
    ensures bits { (n : ℕ) → has_bit words.new n ≡ ((number == n) || has_bit words.old n) }
    ensures occupied { (k : ℕ) → is_occupied words.new k ≡ ((number / 64 == k) || is_occupied words.old k) }
    ensures empty { result ≡ not (is_occupied words.old (number / 64)) }
{
    let place = (number / WORD) as usize;
    let word = words[place];
    words[place] = word | 1u64 << (number % WORD);
    word == 0
}

/// Takes the bit of a number away. Answers whether its word is empty then.
pub(crate) fn clear_bit(words: &mut [u64], number: u32) -> bool
    requires { number / 64 < length words.old }
    ensures length { length words.new ≡ length words.old }
    ensures bits { (n : ℕ) → has_bit words.new n ≡ (not (number == n) && has_bit words.old n) }
    ensures occupied { (k : ℕ) → is_occupied words.new k ≡ (not (result && (number / 64 == k)) && is_occupied words.old k) }
{
    let place = (number / WORD) as usize;
    let word = words[place] & !(1u64 << (number % WORD));
    words[place] = word;
    word == 0
}

/// The least number whose bit is set in a word.
pub(crate) fn least_in(words: &[u64], place: u32) -> Option<u32>
    requires within { place < length words.now }
    requires small { place < 67108864 }
    ensures { MatchOption result (is_occupied words.now place ≡ false) (λ n. IsLeastIn words.now place n) }
{
    let word = words[place as usize];
    if word == 0 {
        return None;
    }
    Some(place * WORD + word.trailing_zeros())
}
