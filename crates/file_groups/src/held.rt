//! Groups as the table holds them.

ghost use Rattle.std.specs.Prelude.{◌≡◌};
ghost use Rattle.name_patterns.specs.Ends.{Cover};
ghost use Rattle.file_groups.specs.Folded.{in_group_folded, in_some_group};

use crate::rows::{is_in, texts_of};
use fsrm_base::places::Key;
use fsrm_model::GroupRow;
use fsrm_model::limits::MOST_GROUPS;
use name_patterns::{Ends, Rest};
use name_rules::same_name;
use row_table::{Kind, Table, Test};
use std::marker::Model;

/// A group, with what the names in it end with: a look at its last character spares most names the patterns. Contracts
/// see the group.
#[derive(Drop)]
pub struct HeldGroup {
    row: GroupRow,
    ends: Ends,
}

impl Model for HeldGroup {
    ghost use Rattle.fsrm_model.specs.declared.row.GroupRow.{GroupRow};
    ghost use Rattle.name_patterns.specs.Ends.{Cover};
    ghost use Rattle.file_groups.specs.Folded.{in_group_folded};

    ghost Value = { GroupRow };

    ghost view = { λ g. g.row };

    ghost invariant = { λ g. Cover g.ends (in_group_folded g.row) };
}

impl HeldGroup {
    /// A group that is to be held.
    pub fn new(row: GroupRow) -> HeldGroup
        ensures { result ≡ row }
    {
        let ends = Ends::of(&row.members);
        HeldGroup { row, ends }
    }

    /// The group, lent.
    #[inline]
    pub fn row(&self) -> &GroupRow
        ensures { result.now ≡ self.now }
    {
        &self.row
    }

    /// The ends of the names that may be in it.
    pub fn ends(&self) -> Ends
        ensures { Cover result (in_group_folded self.now) }
    {
        self.ends
    }

    /// Whether a name is in it.
    pub fn has<N: Rest>(&self, name: N) -> bool
        ensures { result ≡ in_group_folded self.now (N.characters name) }
    {
        self.ends.may_have(name) && is_in(&self.row, name)
    }
}

/// Groups by their numbers, with their names and patterns.
pub struct HeldGroups;

impl Key for HeldGroups {
    ghost use Rattle.fsrm_model.specs.values.Patterns.{group_number};

    type Row = HeldGroup;

    ghost key = { group_number };

    fn number(group: &HeldGroup) -> u32 {
        group.row().number
    }
}

impl Kind for HeldGroups {
    ghost use Rattle.std.proofs.Common.{rules};
    ghost use Rattle.fsrm_model.specs.values.Limits.{most_groups};
    ghost use Rattle.fsrm_model.specs.values.Texts.{group_bytes};
    ghost use Rattle.file_groups.specs.Kept.{most_group_bytes};

    ghost bytes = { group_bytes };

    ghost most_bytes = { most_group_bytes };

    ghost MOST = { most_groups };

    const MOST: u32 = MOST_GROUPS as u32;

    fn texts(group: &HeldGroup) -> u32 {
        texts_of(group.row())
    }

    ghost few = { Prim.search rules };

    ghost fits = { Prim.search rules };
}

/// Whether a group has a name, in any spelling.
#[derive(Clone, Copy)]
pub struct Named<'a> {
    pub name: &'a str,
}

impl<'a> Test<HeldGroup> for Named<'a> {
    ghost use Rattle.fsrm_model.specs.values.Patterns.{has_name};

    ghost passes = { λ it group. has_name it.name.now group };

    fn test(&self, group: &HeldGroup) -> bool {
        same_name(group.row().name.as_str(), self.name)
    }
}

/// The ends of the names that may be in some group.
pub fn ends_of_groups(groups: &Table<HeldGroups>) -> Ends
    ensures { Cover result (in_some_group groups.now.rows) }
{
    let mut ends = Ends::none();
    for place in 0..groups.len() {
        ends = ends.or(groups.at(place).ends());
    }
    ends
}
