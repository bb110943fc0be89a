//! An index of numbers by hashes.

ghost use Rattle.std.specs.Prelude.{◌≡◌, ℕ, ◌*◌, ◌^◌, ◌≤◌, ◌==◌, true, false, IfOk, Some, vec_len, vec_capacity};
ghost use Rattle.std.specs.Int.{IsPowerOfTwo};
ghost use Rattle.name_index.specs.Index.{Holds, IsIndex, has_lost, home, index_of};

use crate::bucket::{Bucket, MARK_START, NO_NUMBER};
use fsrm_model::NoMemory;
use std::alloc::Global;
use std::marker::Model;

// How few bits of a hash may lead to one of the first buckets: then there are 256.
const FEWEST_BITS: u32 = 8;

// How many may: then there are 131,072, enough for all numbers that an entry can have.
const MOST_BITS: u32 = 17;

// How many numbers there may be for each bucket before there are twice as many buckets.
const LOAD: u32 = 8;

// There are buckets at first for the numbers that there are, and for one in so many of those that there may be.
const GROWTH: u32 = 16;

/// An index of numbers by hashes, in memory that is reserved once. Contracts see its buckets and where hashes lead, and
/// ask of these which numbers are held under a hash, and whether those were lost that might be.
#[derive(Drop)]
pub struct Index {
    buckets: Vec<Bucket>,
    // The bit of a hash from which on bits lead to a bucket. Those that lead to one of the first buckets end where the
    // mark begins. So an entry has all later ones, and tells where it goes when there are more buckets; and while none
    // are added, all of the mark tells entries of a bucket apart.
    lead: u32,
    // How many numbers were entered and not forgotten.
    entered: u32,
}

impl Model for Index {
    ghost use Rattle.name_index.specs.Index.{Indexed, IsIndex, index_of};

    ghost Value = { Indexed };

    ghost view = { λ i. index_of i.lead i.buckets.items };

    ghost invariant = { λ i. IsIndex (index_of i.lead i.buckets.items) };
}

// How many bits lead to one of the buckets that are right for so many numbers.
fn bits_for(numbers: u32) -> u32
    ensures fewest { 8 ≤ result }
    ensures most { result ≤ 17 }
{
    (u32::BITS - (numbers / LOAD).leading_zeros()).clamp(FEWEST_BITS, MOST_BITS)
}

// To how many buckets so many bits lead.
fn count_of(bits: u32) -> usize
    requires { bits ≤ 17 }
    ensures { result ≡ 2 ^ bits }
{
    1 << bits
}

// Where a hash leads to among so many buckets, by its bits from such a one on.
#[inline]
fn home(lead: u32, hash: u32, count: usize) -> usize
    requires lead { lead ≤ 20 }
    requires count { IsPowerOfTwo count }
    ensures { result ≡ home lead hash count }
{
    (hash >> lead) as usize & (count - 1)
}

// Doubles the buckets. Each one is parted in two by the next bit of the hash.
fn double(lead: u32, buckets: &mut Vec<Bucket>)
    requires index { IsIndex (index_of lead buckets.old.items) }
    requires room { 2 * vec_len buckets.old ≤ vec_capacity buckets.old }
    ensures index { IsIndex (index_of lead buckets.new.items) }
    ensures held { (h n : ℕ) → Holds (index_of lead buckets.old.items) h n → Holds (index_of lead buckets.new.items) h n }
    ensures kept { (h : ℕ) → has_lost (index_of lead buckets.old.items) h ≡ true → has_lost (index_of lead buckets.new.items) h ≡ true }
{
    let count = buckets.len();
    for place in 0..count {
        let upper = buckets[place].half(lead, count, true);
        buckets[place] = buckets[place].half(lead, count, false);
        buckets.push_reserved(upper);
    }
}

impl Index {
    /// An index with room for so many numbers, and with buckets for so many of them at first. It holds none, and has
    /// lost none. The fewer are added later, the fewer are lost. No other call takes memory.
    pub fn reserve(alloc: Global, most: u32, now: u32) -> Result<Index, NoMemory>
        ensures { IfOk result (λ index. (h : ℕ) → has_lost index h ≡ false) }
    {
        let bits = bits_for(now.max(most / GROWTH));
        let count = count_of(bits);
        let mut buckets = Vec::with_capacity(alloc, count_of(bits_for(most)).max(count))?;
        buckets.resize(count, Bucket::empty())?;
        Ok(Index {
            buckets,
            lead: MARK_START - bits,
            entered: 0,
        })
    }

    /// The number that is held under a hash. If none is, the answer may be any number.
    #[inline]
    pub fn find(&self, hash: u32) -> Option<u32>
        ensures { (n : ℕ) → Holds self.now hash n → result ≡ Some n }
    {
        self.buckets[home(self.lead, hash, self.buckets.len())].find(hash)
    }

    /// Whether numbers were lost that may have been entered under a hash.
    #[inline]
    pub fn has_lost(&self, hash: u32) -> bool
        ensures { result ≡ has_lost self.now hash }
    {
        self.buckets[home(self.lead, hash, self.buckets.len())].lost
    }

    /// Enters a number under a hash. Answers whether it is held now. Else it is lost: if another is held there whose hash
    /// has the same upper 12 bits, if no slot is free, or if the number is 1,048,575 or more.
    #[inline]
    pub fn enter(&mut self, hash: u32, number: u32) -> bool
        ensures held { result ≡ true → Holds self.new hash number }
        ensures lost { result ≡ false → has_lost self.new hash ≡ true }
        ensures others { (h n : ℕ) → Holds self.old h n → Holds self.new h n }
        ensures kept { (h : ℕ) → has_lost self.old h ≡ true → has_lost self.new h ≡ true }
    {
        let home = home(self.lead, hash, self.buckets.len());
        if !self.buckets[home].enter(hash, number) {
            return false;
        }
        self.entered = self.entered.saturating_add(1);
        self.fit();
        true
    }

    // Doubles the buckets if there are too many numbers for them, and room.
    fn fit(&mut self)
        ensures held { (h n : ℕ) → Holds self.old h n → Holds self.new h n }
        ensures kept { (h : ℕ) → has_lost self.old h ≡ true → has_lost self.new h ≡ true }
    {
        let count = self.buckets.len();
        if (self.entered / LOAD) as usize >= count && count <= self.buckets.capacity() / 2 {
            double(self.lead, &mut self.buckets);
        }
    }

    /// Gives up a number under the hash that it was entered under, whether it is held or was lost.
    pub fn forget(&mut self, hash: u32, number: u32)
        ensures others { (h n : ℕ) → (n == number) ≡ false → Holds self.old h n → Holds self.new h n }
        ensures kept { (h : ℕ) → has_lost self.old h ≡ true → has_lost self.new h ≡ true }
    {
        self.entered = self.entered.saturating_sub(1);
        if number < NO_NUMBER {
            let home = home(self.lead, hash, self.buckets.len());
            self.buckets[home].forget(hash, number);
        }
    }
}
