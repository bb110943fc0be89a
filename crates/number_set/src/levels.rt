//! The words of a set of numbers, and the levels above them.

ghost use Rattle.std.specs.Prelude.{◌≡◌, ◌<◌, ◌≤◌, true, IfOk, length};
ghost use Rattle.std.specs.Prelude.{slice_get};
ghost use Rattle.fsrm_base.specs.Numbers.{is_in, is_set, with_number, without_number};
ghost use Rattle.number_set.specs.Levels.{most_members};
ghost use Rattle.number_set.specs.Numbers.{no_numbers};

use crate::words::{WORD, clear_bit, empty_words, has_bit, least_in, set_bit};
use fsrm_base::NoMemory;
use std::alloc::Global;
use std::marker::Model;

/// A set of numbers, told by its words alone.
// Each member is a bit of the words. The level above is the set of the places of the words that have
// a bit, so six levels at most, of a word each, lead to the least member.
#[cycle(levels)]
#[derive(Drop)]
pub struct Levels {
    bound: u32,
    words: Vec<u64>,
    above: Above,
}

#[cycle(levels)]
#[derive(Drop)]
enum Above {
    // One word is all there is.
    Nothing,
    Level(Box<Levels>),
}

impl Model for Levels {
    ghost use Rattle.number_set.specs.Numbers.{Numbers};

    ghost Value = { Numbers };

    ghost use Rattle.number_set.specs.Levels.{IsLevel};
    ghost use Rattle.number_set.specs.Words.{numbers_of};

    ghost view = { λ s. record { bound = s.bound; members = numbers_of s.words.items } };

    ghost invariant = { λ s. IsLevel s.bound s.words.items s.above };

    ghost size = { λ v. v.bound };

    ghost use Rattle.number_set.specs.Smaller.{depth_le_bound};

    ghost size_decreases = { λ s h. depth_le_bound s.bound s.words.items s.above h };
}

impl Levels {
    /// An empty set with room for all numbers below a bound.
    pub fn reserve(alloc: Global, bound: u32) -> Result<Levels, NoMemory>
        ensures { IfOk result (λ set. set ≡ no_numbers bound) }
    {
        let count = bound / WORD + 1;
        let words = empty_words(alloc, count)?;
        if count == 1 {
            return Ok(Levels {
                bound,
                words,
                above: Above::Nothing,
            });
        }
        let above = Levels::reserve(alloc, count)?;
        let above = Above::Level(Box::new(alloc, above)?);
        Ok(Levels {
            bound,
            words,
            above,
        })
    }

    /// How members are held, for those who read no word of theirs: a read is what tells the checker.
    pub fn kept(&self)
        ensures set { is_set self.now.members ≡ true }
        ensures few { length self.now.members ≤ most_members }
    {
        let _words = &self.words;
    }

    /// The bound that all members are below.
    pub fn bound(&self) -> u32
        ensures { result ≡ self.now.bound }
    {
        self.bound
    }

    /// Whether a number is a member.
    pub fn contains(&self, number: u32) -> bool
        ensures { result ≡ is_in self.now.members number }
    {
        has_bit(&self.words, number)
    }

    /// Puts a number into the set.
    pub fn insert(&mut self, number: u32)
        requires { number < self.old.bound }
        ensures { self.new ≡ record self.old { members = with_number number self.old.members } }
    {
        let was_empty = set_bit(&mut self.words, number);
        match &mut self.above {
            Above::Nothing => {}
            Above::Level(above) => {
                if was_empty {
                    above.insert(number / WORD);
                }
            }
        }
    }

    /// Takes a member out of the set.
    pub fn remove(&mut self, number: u32)
        requires { is_in self.old.members number ≡ true }
        ensures { self.new ≡ record self.old { members = without_number number self.old.members } }
    {
        let is_empty = clear_bit(&mut self.words, number);
        match &mut self.above {
            Above::Nothing => {}
            Above::Level(above) => {
                if is_empty {
                    above.remove(number / WORD);
                }
            }
        }
    }

    /// The least member.
    pub fn least(&self) -> Option<u32>
        ensures { result ≡ slice_get self.now.members 0 }
    {
        let place = match &self.above {
            Above::Nothing => 0,
            Above::Level(above) => above.least()?,
        };
        least_in(&self.words, place)
    }
}
