//! The table of file groups.

ghost use Rattle.std.specs.Prelude.{◌≡◌, ℕ, ◌<◌, ◌≤◌, List as Items, IfOk, IfErr, IfSome, OnOk, OnErr, [], None, Some, true, false, is_none, length, slice_get};
ghost use Rattle.std.specs.List.{list_any};
ghost use Rattle.std.specs.Option.{option_copied};
ghost use Rattle.fsrm_base.specs.Keyed.{row_of, has_row, least_free};
ghost use Rattle.fsrm_model.specs.values.Limits.{most_groups};
ghost use Rattle.fsrm_model.specs.values.Name.{folded};
ghost use Rattle.fsrm_model.specs.values.Patterns.{group_number, has_name, in_group_of, is_group, is_object_name, new_group, number_named, with_group, with_patterns, without_group};
ghost use Rattle.fsrm_model.specs.values.Texts.{group_bytes};
ghost use Rattle.file_groups.specs.Faults.{IsFault, group_fault, new_fault, patterns_fault};
ghost use Rattle.file_groups.specs.Kept.{AreGroups, AreMembers, AreNonMembers, group_texts, most_group_bytes};

use crate::answer::GroupFault;
use crate::held::{HeldGroup, HeldGroups, Named, ends_of_groups};
use crate::rows;
use fsrm_model::{GroupRow, List, NoMemory};
use name_patterns::{Ends, FoldedName, Pattern, Rest};
use row_table::Table;
use std::alloc::Global;
use std::marker::Model;

/// The file groups of a store, at most 1,024. Contracts see their rows, ascending by number; the numbers
/// are below 1,024, and no two groups have one name, in any spelling.
#[derive(Drop)]
pub struct Groups {
    alloc: Global,
    groups: Table<HeldGroups>,
    // Each name that is in a group ends with one of these.
    ends: Ends,
}

impl Model for Groups {
    ghost use Rattle.std.specs.Prelude.{List as Items};
    ghost use Rattle.fsrm_model.specs.declared.row.GroupRow.{GroupRow};
    ghost use Rattle.file_groups.specs.Kept.{IsTable};

    ghost Value = { Items GroupRow };

    ghost view = { λ g. g.groups.rows };

    ghost invariant = { λ g. IsTable g.groups.rows g.ends };
}

impl Groups {
    /// A table without groups. It takes no memory.
    pub fn new(alloc: Global) -> Groups
        ensures { result ≡ [] }
    {
        Groups {
            alloc,
            groups: Table::new(alloc),
            ends: Ends::none(),
        }
    }

    /// Adds a group of this name, the name of an object: 1 to 255 bytes without `|` and control
    /// characters. It has 1 to 64 members and at most 64 non-members, and takes the least number that is
    /// free, which is the answer.
    ///
    /// `room` is how many bytes of texts may still come. The group is refused if its name is another one's,
    /// in any spelling, else if there are 1,024 groups, else if its texts are longer than `room`. NoMemory
    /// comes only if nothing else refuses it. An `Err` changes nothing.
    pub fn add(
        &mut self,
        name: &str,
        members: List<Pattern>,
        non_members: List<Pattern>,
        room: u32,
    ) -> Result<u32, GroupFault>
        requires named { is_object_name name.now ≡ true }
        requires members { AreMembers members }
        requires non_members { AreNonMembers non_members }
        ensures ok { OnOk result (self.new ≡ with_group (new_group self.old name.now members non_members) self.old) }
        ensures number { IfOk result (λ number. number ≡ (new_group self.old name.now members non_members).number) }
        ensures may { OnOk result (group_fault self.old (new_group self.old name.now members non_members) room ≡ None) }
        ensures refused { IfErr result (λ fault. IsFault fault (group_fault self.old (new_group self.old name.now members non_members) room)) }
        ensures err { OnErr result (self.new ≡ self.old) }
        ensures kept { AreGroups self.new }
    {
        let left = rows::left_of_new(name, &members, &non_members, room.into());
        self.admit(name, left)?;
        let number = self.free_number();
        let row = rows::new_group(self.alloc, number, name, &members, &non_members)?;
        self.insert(row)?;
        Ok(number)
    }

    /// Puts a stored group under its own number, which is below 1,024 and free. Its name is the name of
    /// an object, and its other texts are patterns, 1 to 64 members and at most 64 non-members. It is
    /// refused as `add` refuses it. An `Err` changes nothing, and the row is dropped.
    pub fn put(&mut self, row: GroupRow, room: u32) -> Result<(), GroupFault>
        requires valid { is_group row ≡ true }
        requires free { has_row group_number row.number self.old ≡ false }
        ensures ok { OnOk result (self.new ≡ with_group row self.old) }
        ensures may { OnOk result (group_fault self.old row room ≡ None) }
        ensures refused { IfErr result (λ fault. IsFault fault (group_fault self.old row room)) }
        ensures err { OnErr result (self.new ≡ self.old) }
        ensures kept { AreGroups self.new }
    {
        let left = rows::left_of_group(&row, room.into());
        self.admit(row.name.as_str(), left)?;
        self.insert(row)?;
        Ok(())
    }

    // Whether a new group of this name may be added, whose texts leave so much of the room, or None if they
    // are longer.
    fn admit(&self, name: &str, left: Option<u64>) -> Result<(), GroupFault>
        ensures may { OnOk result (new_fault self.now name.now (is_none left) ≡ None) }
        ensures new { OnOk result (list_any (has_name name.now) self.now ≡ false) }
        ensures few { OnOk result (length self.now < most_groups) }
        ensures refused { IfErr result (λ fault. new_fault self.now name.now (is_none left) ≡ Some fault) }
        ensures kept { AreGroups self.now }
    {
        if self.is_taken(name) {
            return Err(GroupFault::DuplicateName);
        }
        if self.groups.is_full() {
            return Err(GroupFault::TableFull);
        }
        if left.is_none() {
            return Err(GroupFault::TextsFull);
        }
        Ok(())
    }

    // Whether a group has this name, in any spelling.
    fn is_taken(&self, name: &str) -> bool
        ensures taken { result ≡ list_any (has_name name.now) self.now }
        ensures kept { AreGroups self.now }
    {
        self.groups.find(&Named { name }).is_some()
    }

    // The least number that is free, if there are fewer groups than there may be.
    fn free_number(&self) -> u32
        requires { length self.now < most_groups }
        ensures number { result ≡ least_free group_number self.now }
        ensures below { result < most_groups }
        ensures free { has_row group_number result self.now ≡ false }
    {
        self.groups.free_number()
    }

    // Puts a group that nothing refuses into its place.
    fn insert(&mut self, row: GroupRow) -> Result<(), NoMemory>
        requires valid { is_group row ≡ true }
        requires free { has_row group_number row.number self.old ≡ false }
        requires new { list_any (has_name row.name) self.old ≡ false }
        requires few { length self.old < most_groups }
        ensures ok { OnOk result (self.new ≡ with_group row self.old) }
        ensures err { OnErr result (self.new ≡ self.old) }
        ensures kept { AreGroups self.new }
    {
        self.groups.reserve(self.groups.len() + 1)?;
        let group = HeldGroup::new(row);
        self.ends = self.ends.or(group.ends());
        self.groups.insert(group);
        Ok(())
    }

    /// Gives a group that is there other members, 1 to 64, other non-members, at most 64, or both.
    ///
    /// `room` is as at `add`. TextsFull comes exactly if the group's texts, less those that they replace, are
    /// longer than `room`; no other refusal comes but NoMemory. An `Err` changes nothing.
    pub fn modify(
        &mut self,
        group: u32,
        members: Option<&List<Pattern>>,
        non_members: Option<&List<Pattern>>,
        room: u32,
    ) -> Result<(), GroupFault>
        requires there { has_row group_number group self.old ≡ true }
        requires members { IfSome (option_copied members) AreMembers }
        requires non_members { IfSome (option_copied non_members) AreNonMembers }
        ensures ok { OnOk result (self.new ≡ with_patterns group (option_copied members.entry) (option_copied non_members.entry) self.old) }
        ensures may { OnOk result (patterns_fault self.old group (option_copied members.entry) (option_copied non_members.entry) room ≡ None) }
        ensures refused { IfErr result (λ fault. IsFault fault (patterns_fault self.old group (option_copied members.entry) (option_copied non_members.entry) room)) }
        ensures err { OnErr result (self.new ≡ self.old) }
        ensures kept { AreGroups self.new }
    {
        let old = self.held(group).row();
        if rows::outgrows(old, members, non_members, room) {
            return Err(GroupFault::TextsFull);
        }
        let row = rows::regrouped(self.alloc, old, members, non_members)?;
        self.groups.swap(&mut HeldGroup::new(row));
        self.ends = ends_of_groups(&self.groups);
        Ok(())
    }

    /// Takes away a group that is there.
    pub fn delete(&mut self, group: u32)
        requires { has_row group_number group self.old ≡ true }
        ensures without { self.new ≡ without_group group self.old }
        ensures kept { AreGroups self.new }
    {
        self.groups.remove(group);
        self.ends = ends_of_groups(&self.groups);
    }

    /// The number of the group of this name, in any spelling.
    pub fn find(&self, name: &str) -> Option<u32>
        ensures found { result ≡ number_named name.now self.now }
        ensures there { IfSome result (λ number. has_row group_number number self.now ≡ true) }
    {
        let group = self.groups.find(&Named { name })?;
        Some(group.row().number)
    }

    /// Whether a name is in a group that is there: some member matches it, and no non-member does. It
    /// takes no memory.
    pub fn in_group(&self, group: u32, name: &str) -> bool
        requires { has_row group_number group self.now ≡ true }
        ensures { result ≡ in_group_of self.now group name.now }
    {
        self.has(group, name)
    }

    /// Whether a name that was folded once is in a group that is there. It takes no memory.
    pub fn has_folded(&self, group: u32, name: &FoldedName) -> bool
        requires { has_row group_number group self.now ≡ true }
        ensures { (text : Items ℕ) → folded text ≡ name.now → result ≡ in_group_of self.now group text }
    {
        self.has(group, name.characters())
    }

    fn has<N: Rest>(&self, group: u32, name: N) -> bool
        requires { has_row group_number group self.now ≡ true }
        ensures { (text : Items ℕ) → folded text ≡ N.characters name → result ≡ in_group_of self.now group text }
    {
        self.held(group).has(name)
    }

    /// Whether a name may be in some group, told by its last character alone. One that may not is in none. It takes no
    /// memory.
    pub fn may_have(&self, name: &str) -> bool
        ensures { result ≡ false → (number : ℕ) → in_group_of self.now number name.now ≡ false }
    {
        self.ends.may_have(name)
    }

    /// The bytes of all names and patterns.
    pub fn texts(&self) -> u32
        ensures { result ≡ group_texts self.now }
    {
        self.groups.texts()
    }

    /// How many groups there are, at most 1,024.
    pub fn count(&self) -> u32
        ensures { result ≡ length self.now }
    {
        self.groups.len()
    }

    /// The group at a place, from 0, in the order of the numbers.
    pub fn at(&self, place: u32) -> &GroupRow
        requires { place < length self.now }
        ensures { slice_get self.now place ≡ Some result.now }
    {
        self.groups.at(place).row()
    }

    /// The group of a number that is there.
    pub fn group(&self, number: u32) -> &GroupRow
        requires { has_row group_number number self.now ≡ true }
        ensures group { row_of group_number number self.now ≡ Some result.now }
        ensures valid { is_group result.now ≡ true }
    {
        self.held(number).row()
    }

    // The same, as it is held.
    fn held(&self, number: u32) -> &HeldGroup
        requires { has_row group_number number self.now ≡ true }
        ensures group { row_of group_number number self.now ≡ Some result.now }
        ensures valid { is_group result.now ≡ true }
        ensures small { group_bytes result.now ≤ most_group_bytes }
    {
        self.groups.get(number).unwrap()
    }
}
