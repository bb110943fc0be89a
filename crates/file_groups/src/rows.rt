//! Rows of groups: what is in them, what they take, and how they are made.

ghost use Rattle.std.specs.Prelude.{◌≡◌, ◌+◌, ◌<◌, ◌^◌, nat_lt, true, length, IfOk, IfSome, MatchOption, unwrap_or};
ghost use Rattle.std.specs.List.{list_all};
ghost use Rattle.std.specs.Option.{option_copied};
ghost use Rattle.fsrm_model.specs.values.Limits.{most_groups};
ghost use Rattle.fsrm_model.specs.values.Patterns.{is_group, is_object_name, is_pattern, regrouped};
ghost use Rattle.fsrm_model.specs.values.Texts.{group_bytes, texts_bytes};
ghost use Rattle.file_groups.specs.Folded.{in_group_folded};
ghost use Rattle.file_groups.specs.Kept.{AreMembers, AreNonMembers};

use fsrm_base::room::{left_of_text, left_of_texts};
use fsrm_model::{Duplicate, GroupRow, List, NoMemory, Text};
use name_patterns::{Pattern, Rest, some_matches};
use std::alloc::Global;

/// Whether a name is in a group.
pub fn is_in<N: Rest>(group: &GroupRow, name: N) -> bool
    ensures { result ≡ in_group_folded group.now (N.characters name) }
{
    some_matches(&group.members, name) && !some_matches(&group.non_members, name)
}

/// The bytes of a group's texts, which fit.
pub fn texts_of(group: &GroupRow) -> u32
    requires { group_bytes group.now < 2 ^ 32 }
    ensures { result ≡ group_bytes group.now }
{
    let room = u64::from(u32::MAX);
    let left = left_of_group(group, room).unwrap();
    (room - left) as u32
}

/// How much of the room a group's texts leave; None if there isn't enough.
pub fn left_of_group(group: &GroupRow, room: u64) -> Option<u64>
    ensures { MatchOption result (room < group_bytes group.now) (λ left. left + group_bytes group.now ≡ room) }
{
    left_of_regrouped(group, None, None, room)
}

/// How much of the room a group's texts leave with other members, other non-members, or both; None if there isn't
/// enough.
pub fn left_of_regrouped(
    group: &GroupRow,
    members: Option<&List<Pattern>>,
    non_members: Option<&List<Pattern>>,
    room: u64,
) -> Option<u64>
    ensures { let row = regrouped (option_copied members.entry) (option_copied non_members.entry) group.now in
        MatchOption result (room < group_bytes row) (λ left. left + group_bytes row ≡ room) }
{
    let left = left_of_text(group.name.as_str(), room)?;
    let left = left_of_either(members, &group.members, left)?;
    left_of_either(non_members, &group.non_members, left)
}

/// Whether a group's texts with other members, other non-members, or both are longer than the room together with the
/// texts that are there, which fit.
pub fn outgrows(
    group: &GroupRow,
    members: Option<&List<Pattern>>,
    non_members: Option<&List<Pattern>>,
    room: u32,
) -> bool
    requires { group_bytes group.now < 2 ^ 32 }
    ensures { result ≡ nat_lt (room + group_bytes group.now) (group_bytes (regrouped (option_copied members.entry) (option_copied non_members.entry) group.now)) }
{
    let room = u64::from(room) + u64::from(texts_of(group));
    left_of_regrouped(group, members, non_members, room).is_none()
}

/// How much room the texts of a new group leave.
pub fn left_of_new(
    name: &str,
    members: &List<Pattern>,
    non_members: &List<Pattern>,
    room: u64,
) -> Option<u64>
    ensures { let bytes = length name.now + (texts_bytes members.now + texts_bytes non_members.now) in
        MatchOption result (room < bytes) (λ left. left + bytes ≡ room) }
{
    let left = left_of_text(name, room)?;
    let left = left_of_texts(members, left)?;
    left_of_texts(non_members, left)
}

// The room that the patterns leave, or the texts if no patterns are given.
fn left_of_either(patterns: Option<&List<Pattern>>, texts: &List<Text>, room: u64) -> Option<u64>
    ensures { let bytes = texts_bytes (unwrap_or (option_copied patterns.entry) texts.now) in
        MatchOption result (room < bytes) (λ left. left + bytes ≡ room) }
{
    match patterns {
        Some(patterns) => left_of_texts(patterns, room),
        None => left_of_texts(texts, room),
    }
}

/// The texts of patterns, in memory of their own.
pub fn texts_from(alloc: Global, patterns: &List<Pattern>) -> Result<List<Text>, NoMemory>
    ensures texts { IfOk result (λ texts. texts ≡ patterns.now) }
    ensures valid { IfOk result (λ texts. list_all is_pattern texts ≡ true) }
{
    let mut texts = List::new(alloc);
    for pattern in patterns.as_slice() {
        texts.push(Text::from_str(alloc, pattern.as_str())?)?;
    }
    Ok(texts)
}

/// A group of these values.
pub fn new_group(
    alloc: Global,
    number: u32,
    name: &str,
    members: &List<Pattern>,
    non_members: &List<Pattern>,
) -> Result<GroupRow, NoMemory>
    requires below { number < most_groups }
    requires named { is_object_name name.now ≡ true }
    requires members { AreMembers members.now }
    requires non_members { AreNonMembers non_members.now }
    ensures row { IfOk result (λ row. row ≡ record { number = number; name = name.now; members = members.now; non_members = non_members.now }) }
    ensures valid { IfOk result (λ row. is_group row ≡ true) }
{
    Ok(GroupRow {
        number,
        name: Text::from_str(alloc, name)?,
        members: texts_from(alloc, members)?,
        non_members: texts_from(alloc, non_members)?,
    })
}

/// A group with other members, other non-members, or both.
pub fn regrouped(
    alloc: Global,
    group: &GroupRow,
    members: Option<&List<Pattern>>,
    non_members: Option<&List<Pattern>>,
) -> Result<GroupRow, NoMemory>
    requires valid { is_group group.now ≡ true }
    requires members { IfSome (option_copied members) AreMembers }
    requires non_members { IfSome (option_copied non_members) AreNonMembers }
    ensures row { IfOk result (λ row. row ≡ regrouped (option_copied members.entry) (option_copied non_members.entry) group.now) }
    ensures valid { IfOk result (λ row. is_group row ≡ true) }
{
    Ok(GroupRow {
        number: group.number,
        name: group.name.copy(alloc)?,
        members: texts_or(alloc, members, &group.members)?,
        non_members: texts_or(alloc, non_members, &group.non_members)?,
    })
}

// The texts of the patterns, or a copy of the texts that are there.
fn texts_or(
    alloc: Global,
    patterns: Option<&List<Pattern>>,
    texts: &List<Text>,
) -> Result<List<Text>, NoMemory>
    requires { list_all is_pattern texts.now ≡ true }
    ensures texts { IfOk result (λ made. made ≡ unwrap_or (option_copied patterns.entry) texts.now) }
    ensures valid { IfOk result (λ made. list_all is_pattern made ≡ true) }
{
    match patterns {
        Some(patterns) => texts_from(alloc, patterns),
        None => texts.copy(alloc),
    }
}
