//! Buckets: each has 15 slots for entries, and takes 64 bytes.
//!
//! An entry is a number of 32 bits: above, 12 bits of a hash, which are its *mark*, and below them a number of 20 bits.

ghost use Rattle.std.specs.Prelude.{◌≡◌, ℕ, ◌*◌, ◌/◌, ◌<◌, ◌≤◌, ◌==◌, true, false, Some};
ghost use Rattle.std.specs.Int.{IsPowerOfTwo};
ghost use Rattle.name_index.specs.Buckets.{HasEntry, IsBucket, IsHalf, IsLeast, IsNumber, entry_of, goes};

use fsrm_model::limits::MOST_NODES;

// How many slots a bucket has.
const SLOTS: usize = 15;

// What stands in a slot that is free.
const FREE: u32 = u32::MAX;

/// A number that no entry has, so that none looks as if it were a free slot.
pub(crate) const NO_NUMBER: u32 = MOST_NODES - 1;

/// The bit of a hash, and of an entry, at which the mark begins.
pub(crate) const MARK_START: u32 = u32::trailing_zeros(MOST_NODES);

/// Some entries, and whether some were lost.
#[derive(Clone, Copy)]
pub(crate) struct Bucket {
    pub(crate) lost: bool,
    pub(crate) slots: [u32; SLOTS],
}

// The mark of a hash, where an entry has it.
#[inline]
fn mark(hash: u32) -> u32
    ensures { result ≡ hash / 1048576 * 1048576 }
{
    hash & !(MOST_NODES - 1)
}

#[inline]
fn entry(hash: u32, number: u32) -> u32
    requires { IsNumber number }
    ensures { result ≡ entry_of hash number }
{
    mark(hash) | number
}

// Whether an entry goes to the upper half when so many buckets are doubled, to which bits lead from such a bit on.
#[inline]
fn goes(entry: u32, lead: u32, count: usize) -> bool
    requires lead { lead ≤ 20 }
    requires count { IsPowerOfTwo count }
    ensures { result ≡ goes lead count entry }
{
    (entry >> lead) as usize & count != 0
}

// The least that an entry is above a hash's mark. If an entry has the mark, that is its number, and else it is more than
// any number; so it is found without a branch.
#[inline]
fn least(slots: &[u32; SLOTS], hash: u32) -> u32
    ensures { IsLeast slots.now hash result }
{
    let mark = mark(hash);
    let mut least = slots[0].wrapping_sub(mark);
    // Three at a time: fewer steps wait for each other.
    for row in 0..SLOTS / 3 {
        let one = slots[3 * row].wrapping_sub(mark);
        let two = slots[3 * row + 1].wrapping_sub(mark);
        let three = slots[3 * row + 2].wrapping_sub(mark);
        least = least.min(one.min(two).min(three));
    }
    least
}

impl Bucket {
    /// A bucket without entries, that has lost none.
    pub(crate) fn empty() -> Bucket
        ensures bucket { IsBucket result }
        ensures lost { result.lost ≡ false }
    {
        Bucket {
            lost: false,
            slots: [FREE; SLOTS],
        }
    }

    /// The number of the entry that has a hash's mark. If none has, it may be any number.
    #[inline]
    pub(crate) fn find(&self, hash: u32) -> Option<u32>
        requires { IsBucket self.now }
        ensures { (n : ℕ) → IsNumber n → HasEntry self.now (entry_of hash n) → result ≡ Some n }
    {
        let least = least(&self.slots, hash);
        if least < NO_NUMBER { Some(least) } else { None }
    }

    // The last slot that is free, or if none is the first one.
    #[inline]
    fn free_slot(&self) -> usize
        ensures { result < 15 }
    {
        let mut free = 0;
        // Nobody can foresee which slot is free, so it is sought without a branch.
        for place in 0..SLOTS {
            if self.slots[place] == FREE {
                free = place;
            }
        }
        free
    }

    /// Writes the entry of a number into a free slot, if there is one and no entry has the hash's mark. Answers whether
    /// it did; if it didn't, the number is lost.
    #[inline]
    pub(crate) fn enter(&mut self, hash: u32, number: u32) -> bool
        requires { IsBucket self.old }
        ensures bucket { IsBucket self.new }
        ensures number { result ≡ true → IsNumber number }
        ensures held { result ≡ true → HasEntry self.new (entry_of hash number) }
        ensures lost { result ≡ false → self.new.lost ≡ true }
        ensures others { (h n : ℕ) → IsNumber n → HasEntry self.old (entry_of h n) → HasEntry self.new (entry_of h n) }
        ensures kept { self.old.lost ≡ true → self.new.lost ≡ true }
    {
        let place = self.free_slot();
        if number >= NO_NUMBER
            || self.slots[place] != FREE
            || least(&self.slots, hash) < NO_NUMBER
        {
            self.lost = true;
            return false;
        }
        self.slots[place] = entry(hash, number);
        true
    }

    /// Frees the slot that has the entry of a number.
    pub(crate) fn forget(&mut self, hash: u32, number: u32)
        requires bucket { IsBucket self.old }
        requires number { IsNumber number }
        ensures bucket { IsBucket self.new }
        ensures others { (h n : ℕ) → (n == number) ≡ false → IsNumber n → HasEntry self.old (entry_of h n) → HasEntry self.new (entry_of h n) }
        ensures lost { self.new.lost ≡ self.old.lost }
    {
        let entry = entry(hash, number);
        for place in 0..SLOTS {
            if self.slots[place] == entry {
                self.slots[place] = FREE;
            }
        }
    }

    /// The half of a bucket that is parted in two as so many buckets are doubled, to which bits lead from such a bit on:
    /// the entries alone that go to the upper half, or those that don't.
    pub(crate) fn half(&self, lead: u32, count: usize, upper: bool) -> Bucket
        requires lead { lead ≤ 20 }
        requires count { IsPowerOfTwo count }
        ensures { IsHalf lead count upper self.now result }
    {
        let mut half = Bucket {
            lost: self.lost,
            slots: [FREE; SLOTS],
        };
        for place in 0..SLOTS {
            let slot = self.slots[place];
            if goes(slot, lead, count) == upper {
                half.slots[place] = slot;
            }
        }
        half
    }
}
