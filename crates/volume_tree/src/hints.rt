//! Guesses at which folder has a name in a folder. A wrong one costs whoever takes it a look, and nothing else; so no
//! clause tells what is guessed, and nothing of the table has to be kept true.
//!
//! On a path all names but the last are folders'. Each lookup of a path reads the same few parts of this small table,
//! where the index of all nodes would be read all over.
//!
//! All memory is taken by `reserve`, and only as much of it is used as there are folders. A table that grows is doubled
//! in place, from what it has: no node is read for it.

ghost use Rattle.volume_tree.specs.Hints.{KeepsRoom};

use fsrm_model::NoMemory;
use fsrm_model::limits::MOST_NODES;
use std::alloc::Global;

// How many slots a bucket has.
const SLOTS: usize = 4;

// How many buckets there are at first, a power of 2.
const FEW_BUCKETS: usize = 512;

// What stands in a slot that is free. Only an entry of the greatest number can look the same.
const FREE: u32 = u32::MAX;

// The bits of a hash that an entry has.
const MARK: u32 = !(MOST_NODES - 1);

// The bit of a hash from which on bits lead to a bucket. Those that lead to the first few buckets end where MARK begins.
// So an entry has all later ones, and tells where it goes when there are more buckets.
const LEAD: u32 = 11;

// An entry of a folder.
#[inline]
fn entry(hash: u32, number: u32) -> u32 {
    hash & MARK | number
}

// Writes an entry into a free slot, or if there is none over another entry.
fn put(bucket: &mut [u32; SLOTS], entry: u32) {
    let mut place = entry as usize % SLOTS;
    // Nobody can foresee which slot is free, so it is sought without a branch.
    for other in 0..SLOTS {
        if bucket[other] == FREE {
            place = other;
        }
    }
    bucket[place] = entry;
}

// Frees the slots that have an entry.
fn clear(bucket: &mut [u32; SLOTS], entry: u32) {
    for slot in bucket.iter_mut() {
        if *slot == entry {
            *slot = FREE;
        }
    }
}

// Takes the entries that have a bit of the hash into a new bucket.
fn part(bucket: &mut [u32; SLOTS], bit: usize) -> [u32; SLOTS] {
    let mut parted = [FREE; SLOTS];
    for place in 0..SLOTS {
        if bucket[place] as usize & bit != 0 {
            parted[place] = bucket[place];
            bucket[place] = FREE;
        }
    }
    parted
}

/// A table of folders by the hashes of their names.
#[derive(Drop)]
pub struct Hints {
    // The entry of a folder stands in the bucket that the hash leads to, or nowhere.
    folders: Vec<[u32; SLOTS]>,
    // How many folders were entered and not given up.
    entered: u32,
}

impl Hints {
    /// A table without entries, for a tree of so many nodes. No other call takes memory.
    pub fn reserve(alloc: Global, nodes: u32) -> Result<Hints, NoMemory> {
        let buckets = (nodes as usize / 2).next_power_of_two().max(FEW_BUCKETS);
        let mut folders = Vec::with_capacity(alloc, buckets)?;
        folders.resize(FEW_BUCKETS, [FREE; SLOTS])?;
        Ok(Hints {
            folders,
            entered: 0,
        })
    }

    // Where a hash leads to.
    #[inline]
    fn home(&self, hash: u32) -> usize {
        (hash >> LEAD) as usize & self.folders.len().wrapping_sub(1)
    }

    /// The number of a folder that may have a name of this hash. An entry without the hash's bits is the number alone
    /// if it has these, and every other one is greater; so it is found without a branch.
    #[inline]
    pub fn guess(&self, hash: u32) -> Option<u32> {
        let mut least = FREE;
        if let Some(bucket) = self.folders.get(self.home(hash)) {
            for slot in bucket {
                least = least.min(*slot ^ hash & MARK);
            }
        }
        if least < MOST_NODES {
            Some(least)
        } else {
            None
        }
    }

    // Doubles the table if the folders are more than three fourths of its buckets, and it has room. Each bucket is
    // parted in two by the next bit of the hash.
    fn fit(&mut self)
        ensures { KeepsRoom self.old self.new }
    {
        let count = self.folders.len();
        if 4 * self.entered as usize / 3 <= count || count > self.folders.capacity() / 2 {
            return;
        }
        let bit = count << LEAD;
        for index in 0..count {
            let parted = part(&mut self.folders[index], bit);
            self.folders.push_reserved(parted);
        }
    }

    /// Enters a node under the hash of its name, if it is a folder.
    pub fn learn(&mut self, hash: u32, number: u32, is_folder: bool)
        ensures { KeepsRoom self.old self.new }
    {
        if !is_folder {
            return;
        }
        self.entered = self.entered.saturating_add(1);
        self.fit();
        let home = self.home(hash);
        if let Some(bucket) = self.folders.get_mut(home) {
            put(bucket, entry(hash, number));
        }
    }

    /// Gives up the entry of a node, if it is a folder.
    pub fn unlearn(&mut self, hash: u32, number: u32, is_folder: bool)
        ensures { KeepsRoom self.old self.new }
    {
        if !is_folder {
            return;
        }
        self.entered = self.entered.saturating_sub(1);
        let home = self.home(hash);
        if let Some(bucket) = self.folders.get_mut(home) {
            clear(bucket, entry(hash, number));
        }
    }
}
