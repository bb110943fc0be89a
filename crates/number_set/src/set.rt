//! A set of numbers.

ghost use Rattle.std.specs.Prelude.{◌≡◌, ◌<◌, ◌==◌, IfOk, drop, length, slice_get};
ghost use Rattle.fsrm_base.specs.Numbers.{is_in, with_number, without_number};
ghost use Rattle.number_set.specs.Numbers.{no_numbers};

use crate::levels::Levels;
use fsrm_base::NoMemory;
use std::alloc::Global;
use std::marker::Model;

/// A set of numbers below a bound, in memory that is reserved once. Contracts see the bound and the
/// members, ascending.
#[derive(Drop)]
pub struct NumberSet {
    levels: Levels,
    // How many members there are: an empty set is known without a walk down the levels.
    count: u64,
}

impl Model for NumberSet {
    ghost use Rattle.number_set.specs.Numbers.{Numbers};

    ghost Value = { Numbers };

    ghost use Rattle.std.specs.Prelude.{◌≡◌, length};

    ghost view = { λ s. s.levels };

    ghost invariant = { λ s. s.count ≡ length s.levels.members };
}

impl NumberSet {
    /// An empty set with room for all numbers below a bound.
    pub fn reserve(alloc: Global, bound: u32) -> Result<NumberSet, NoMemory>
        ensures { IfOk result (λ set. set ≡ no_numbers bound) }
    {
        let levels = Levels::reserve(alloc, bound)?;
        Ok(NumberSet { levels, count: 0 })
    }

    /// The bound that all members are below.
    pub fn bound(&self) -> u32
        ensures { result ≡ self.now.bound }
    {
        self.levels.bound()
    }

    /// Whether a number is a member.
    pub fn contains(&self, number: u32) -> bool
        ensures { result ≡ is_in self.now.members number }
    {
        self.levels.contains(number)
    }

    /// Puts a number into the set.
    pub fn insert(&mut self, number: u32)
        requires { number < self.old.bound }
        ensures { self.new ≡ record self.old { members = with_number number self.old.members } }
    {
        self.levels.kept();
        if self.levels.contains(number) {
            return;
        }
        self.levels.insert(number);
        self.count += 1;
    }

    /// Takes a number out of the set.
    pub fn remove(&mut self, number: u32)
        ensures { self.new ≡ record self.old { members = without_number number self.old.members } }
    {
        self.levels.kept();
        if !self.levels.contains(number) {
            return;
        }
        self.levels.remove(number);
        self.count -= 1;
    }

    /// Takes the least member out, if there is any.
    pub fn take_least(&mut self) -> Option<u32>
        ensures least { result ≡ slice_get self.old.members 0 }
        ensures rest { self.new ≡ record self.old { members = drop 1 self.old.members } }
    {
        self.levels.kept();
        let number = self.least()?;
        self.levels.remove(number);
        self.count -= 1;
        Some(number)
    }

    /// The least member.
    pub fn least(&self) -> Option<u32>
        ensures { result ≡ slice_get self.now.members 0 }
    {
        if self.count == 0 {
            return None;
        }
        self.levels.least()
    }

    /// Whether there is no member.
    pub fn is_empty(&self) -> bool
        ensures { result ≡ (length self.now.members == 0) }
    {
        self.count == 0
    }

    /// Takes all members out. Its time is in proportion to how many there are.
    pub fn clear(&mut self)
        ensures { self.new ≡ no_numbers self.old.bound }
    {
        while self.take_least().is_some() {}
    }
}
