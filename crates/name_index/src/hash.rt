//! Hashes of names in folders: one for all spellings of a name.

ghost use Rattle.std.specs.Prelude.{◌≡◌, ◌<◌, ◌≤◌, ◌==◌, true, [], ◌∷◌, take, length, slice_index, bit_and, bit_or, IfSome, IfNone};
ghost use Rattle.std.specs.Int.{w64, from_le_bytes};
ghost use Rattle.std.specs.Str.{IsAscii, IsUtf8};
ghost use Rattle.std.specs.Str.Iter.{chars_rest};
ghost use Rattle.name_index.specs.Hash.{bytes_hash, hashed, low_bits, name_hash, spread, stir};

use std::str::Chars;
use unicode::case::simple_fold;

// 2^64 over the golden ratio, whose bits are as good as random ones.
const STIR: u64 = 0x9e37_79b9_7f4a_7c15;

// Bits as good as those, so that a folder's number and a name don't make up for each other.
const FOLDER_STIR: u64 = 0xd134_2543_de82_ef95;

// Set in each byte, this bit makes one of the two cases of a letter.
const BOTH_CASES: u64 = 0x2020_2020_2020_2020;

// The bit of each byte of a word that no character of ASCII has.
const HIGH_BITS: u64 = 0x8080_8080_8080_8080;

// How many characters are hashed: no name has more.
const MOST_CHARACTERS: usize = 256;

/// A hash of 32 bits of a folder's number and of a name, the same for each spelling of the name.
#[inline]
pub fn hash_of(folder: u32, name: &str) -> u32
    ensures { result ≡ name_hash folder name.now }
{
    // The folder comes last: on a path it is known only when the name before this one is found, and then little is left
    // to wait for. The upper half depends on all bits, the lower one doesn't.
    let folder = u64::from(folder).wrapping_mul(FOLDER_STIR);
    (hash_name(name).wrapping_add(folder) >> 32) as u32
}

// A hash of a name's characters. Most names are of ASCII: then it is that of the bytes.
#[inline]
fn hash_name(name: &str) -> u64
    ensures { result ≡ bytes_hash (hashed name.now) }
{
    let bytes = name.as_bytes();
    let (hash, ascii) = hash_bytes(bytes);
    if ascii && bytes.len() <= MOST_CHARACTERS {
        return hash;
    }
    hash_characters(name)
}

// A hash of bytes, by words of eight; and whether all of them are known to be of ASCII. The last word has the last
// eight bytes, and overlaps the one before it.
#[inline]
fn hash_bytes(bytes: &[u8]) -> (u64, bool)
    ensures hash { result.0 ≡ bytes_hash bytes.now }
    ensures ascii { result.1 ≡ true → IsAscii bytes.now }
{
    let Some(last) = bytes.last_chunk::<8>() else {
        let word = short_word(bytes);
        return (stir_last(STIR, word), is_ascii_word(word));
    };
    let mut hash = STIR;
    let mut ascii = true;
    let (words, _) = bytes.as_chunks::<8>();
    for word in words {
        let word = u64::from_le_bytes(*word);
        hash = stir(hash, word | BOTH_CASES);
        ascii = ascii & is_ascii_word(word);
    }
    let last = u64::from_le_bytes(*last);
    (stir_last(hash, last), ascii & is_ascii_word(last))
}

// A hash with a word more.
#[inline]
fn stir(hash: u64, word: u64) -> u64
    ensures { result ≡ stir hash word }
{
    (hash.rotate_left(23) ^ word).wrapping_mul(STIR)
}

// A hash with the last word. Names mostly differ at their ends, which are the upper bits of the last word. Such a bit
// changes a product from that bit on alone, and lower ones lead to a bucket; so the upper half is brought down, too.
#[inline]
fn stir_last(hash: u64, word: u64) -> u64
    ensures { result ≡ stir hash (spread (bit_or word 0x2020_2020_2020_2020)) }
{
    let word = word | BOTH_CASES;
    stir(hash, word ^ word >> 32)
}

#[inline]
fn is_ascii_word(word: u64) -> bool
    ensures { result ≡ (bit_and word 0x8080_8080_8080_8080 == 0) }
{
    word & HIGH_BITS == 0
}

// The word of fewer than eight bytes.
#[inline]
fn short_word(bytes: &[u8]) -> u64
    requires { length bytes.now < 8 }
    ensures { result ≡ from_le_bytes w64 bytes.now }
{
    let (Some(first), Some(last)) = (bytes.first_chunk::<4>(), bytes.last_chunk::<4>()) else {
        return byte_at(bytes, 0) + (byte_at(bytes, 1) << 8) + (byte_at(bytes, 2) << 16);
    };
    // Of the last four bytes those go that are among the first four.
    let last = u64::from(u32::from_le_bytes(*last)) >> (8 * (8 - bytes.len()));
    u64::from(u32::from_le_bytes(*first)) + (last << 32)
}

// A byte, or 0 past the last one.
#[inline]
fn byte_at(bytes: &[u8], place: usize) -> u64
    ensures { result ≡ slice_index bytes.now place }
{
    match bytes.get(place) {
        Some(byte) => u64::from(*byte),
        None => 0,
    }
}

// The hash of a name's bytes after folding.
#[inline(never)]
fn hash_characters(name: &str) -> u64
    ensures { result ≡ bytes_hash (hashed name.now) }
{
    let mut bytes = [0u8; MOST_CHARACTERS];
    let count = fold_into(name, &mut bytes);
    let (hash, _) = hash_bytes(&bytes[..count]);
    hash
}

// Writes what is hashed of a name. Answers how many bytes that is.
fn fold_into(name: &str, bytes: &mut [u8; MOST_CHARACTERS]) -> usize
    ensures few { result ≤ 256 }
    ensures hashed { take result bytes.new ≡ hashed name.now }
{
    let mut characters = name.chars();
    for count in 0..MOST_CHARACTERS {
        match next_byte(&mut characters) {
            Some(byte) => bytes[count] = byte,
            None => return count,
        }
    }
    MOST_CHARACTERS
}

// What is hashed of the next character, if there is one.
fn next_byte(characters: &mut Chars<'_>) -> Option<u8>
    requires { IsUtf8 (chars_rest characters.old) }
    ensures text { IsUtf8 (chars_rest characters.new) }
    ensures some { IfSome result (λ byte. low_bits (chars_rest characters.old) ≡ byte ∷ low_bits (chars_rest characters.new)) }
    ensures none { IfNone result (low_bits (chars_rest characters.old) ≡ []) }
{
    let character = characters.next()?;
    Some((u64::from(simple_fold(character)) % 128) as u8)
}
