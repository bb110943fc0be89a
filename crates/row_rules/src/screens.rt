//! File groups, screens and exceptions.

ghost use Rattle.std.specs.Prelude.{◌≡◌, true};
ghost use Rattle.std.specs.List.{list_all};
ghost use Rattle.fsrm_base.specs.Keyed.{has_row, is_ascending};
ghost use Rattle.fsrm_base.specs.Numbers.{each_once};
ghost use Rattle.fsrm_model.specs.nodes.Tree.{number};
ghost use Rattle.fsrm_model.specs.objects.Screens.{except_folder};
ghost use Rattle.fsrm_model.specs.store.Valid.{are_excepts, are_group_numbers, are_screens, is_sound_except, is_sound_screen};
ghost use Rattle.fsrm_model.specs.values.Patterns.{are_members, are_non_members, group_number, is_group, is_pattern};
ghost use Rattle.row_rules.specs.Kept.{are_numbered_groups};

use crate::actions::are_screen_actions;
use crate::keys::{Excepts, Groups, Screens, ascend, has, is_folder};
use fsrm_model::limits::{
    MOST_EXCEPTS, MOST_GROUPS, MOST_PATTERNS, MOST_SCREEN_GROUPS, MOST_SCREENS,
};
use fsrm_model::{ExceptRow, GroupRow, NodeRow, ScreenRow, Text};
use name_patterns::is_pattern;
use text_rules::is_object_name;

fn are_patterns(texts: &[Text]) -> bool
    ensures { result ≡ list_all is_pattern texts.now }
{
    texts.iter().all(|text| is_pattern(text.as_str()))
}

fn are_members(texts: &[Text]) -> bool
    ensures { result ≡ are_members texts.now }
{
    !texts.is_empty() && texts.len() <= MOST_PATTERNS && are_patterns(texts)
}

fn are_non_members(texts: &[Text]) -> bool
    ensures { result ≡ are_non_members texts.now }
{
    texts.len() <= MOST_PATTERNS && are_patterns(texts)
}

fn is_group(group: &GroupRow) -> bool
    ensures { result ≡ is_group group.now }
{
    let named = is_object_name(group.name.as_str());
    let members = are_members(group.members.as_slice());
    let non_members = are_non_members(group.non_members.as_slice());
    (group.number as usize) < MOST_GROUPS && named && members && non_members
}

fn are_all_groups(groups: &[GroupRow]) -> bool
    ensures { result ≡ list_all is_group groups.now }
{
    groups.iter().all(|group| is_group(group))
}

/// Whether these are file groups, in the order of their numbers.
pub fn are_numbered_groups(groups: &[GroupRow]) -> bool
    ensures { result ≡ are_numbered_groups groups.now }
{
    let few = ascend::<Groups>(groups) && groups.len() <= MOST_GROUPS;
    few && are_all_groups(groups)
}

// Whether each number stands once.
fn each_once(numbers: &[u32]) -> bool
    ensures { result ≡ each_once numbers.now }
{
    let mut left = numbers;
    while let Some((number, rest)) = left.split_first() {
        if rest.contains(number) {
            return false;
        }
        left = rest;
    }
    true
}

fn are_there(groups: &[GroupRow], numbers: &[u32]) -> bool
    requires { is_ascending group_number groups.now ≡ true }
    ensures { result ≡ list_all (λ n. has_row group_number n groups.now) numbers.now }
{
    numbers.iter().all(|number| has::<Groups>(groups, *number))
}

fn are_group_numbers(groups: &[GroupRow], numbers: &[u32]) -> bool
    requires { is_ascending group_number groups.now ≡ true }
    ensures { result ≡ are_group_numbers groups.now numbers.now }
{
    let few = !numbers.is_empty() && numbers.len() <= MOST_SCREEN_GROUPS;
    few && each_once(numbers) && are_there(groups, numbers)
}

fn is_sound_screen(
    nodes: &[NodeRow],
    groups: &[GroupRow],
    excepts: &[ExceptRow],
    screen: &ScreenRow,
) -> bool
    requires nodes { is_ascending number nodes.now ≡ true }
    requires groups { is_ascending group_number groups.now ≡ true }
    requires excepts { is_ascending except_folder excepts.now ≡ true }
    ensures { result ≡ is_sound_screen nodes.now groups.now excepts.now screen.now }
{
    let alone = !has::<Excepts>(excepts, screen.folder);
    let named = are_group_numbers(groups, screen.groups.as_slice());
    let acts = are_screen_actions(screen.actions.as_slice());
    is_folder(nodes, screen.folder) && alone && named && acts
}

fn are_sound_screens(
    nodes: &[NodeRow],
    groups: &[GroupRow],
    excepts: &[ExceptRow],
    screens: &[ScreenRow],
) -> bool
    requires nodes { is_ascending number nodes.now ≡ true }
    requires groups { is_ascending group_number groups.now ≡ true }
    requires excepts { is_ascending except_folder excepts.now ≡ true }
    ensures { result ≡ list_all (is_sound_screen nodes.now groups.now excepts.now) screens.now }
{
    screens
        .iter()
        .all(|screen| is_sound_screen(nodes, groups, excepts, screen))
}

/// Whether these are the screens of a store with these nodes, groups and exceptions.
pub fn are_screens(
    nodes: &[NodeRow],
    groups: &[GroupRow],
    excepts: &[ExceptRow],
    screens: &[ScreenRow],
) -> bool
    requires nodes { is_ascending number nodes.now ≡ true }
    requires groups { is_ascending group_number groups.now ≡ true }
    requires excepts { is_ascending except_folder excepts.now ≡ true }
    ensures { result ≡ are_screens nodes.now groups.now excepts.now screens.now }
{
    let few = ascend::<Screens>(screens) && screens.len() <= MOST_SCREENS;
    few && are_sound_screens(nodes, groups, excepts, screens)
}

fn is_sound_except(nodes: &[NodeRow], groups: &[GroupRow], except: &ExceptRow) -> bool
    requires nodes { is_ascending number nodes.now ≡ true }
    requires groups { is_ascending group_number groups.now ≡ true }
    ensures { result ≡ is_sound_except nodes.now groups.now except.now }
{
    let named = are_group_numbers(groups, except.groups.as_slice());
    is_folder(nodes, except.folder) && named
}

fn are_sound_excepts(nodes: &[NodeRow], groups: &[GroupRow], excepts: &[ExceptRow]) -> bool
    requires nodes { is_ascending number nodes.now ≡ true }
    requires groups { is_ascending group_number groups.now ≡ true }
    ensures { result ≡ list_all (is_sound_except nodes.now groups.now) excepts.now }
{
    excepts
        .iter()
        .all(|except| is_sound_except(nodes, groups, except))
}

/// Whether these are the exceptions of a store with these nodes and groups.
pub fn are_excepts(nodes: &[NodeRow], groups: &[GroupRow], excepts: &[ExceptRow]) -> bool
    requires nodes { is_ascending number nodes.now ≡ true }
    requires groups { is_ascending group_number groups.now ≡ true }
    ensures { result ≡ are_excepts nodes.now groups.now excepts.now }
{
    let few = ascend::<Excepts>(excepts) && excepts.len() <= MOST_EXCEPTS;
    few && are_sound_excepts(nodes, groups, excepts)
}
