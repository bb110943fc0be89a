//! The file groups of a screen or an exception, as a command gives them.

ghost use Rattle.std.specs.Prelude.{◌≡◌, ◌&&◌, IfOk, OnOk, OnErr, MatchOption, fold, false, true};
ghost use Rattle.fsrm_base.specs.Numbers.{without_numbers};
ghost use Rattle.fsrm_model.specs.commands.ScreenWork.{are_named, changed_groups, may_be_taken, numbers_named, with_last};

use file_groups::Groups;
use fsrm_model::{List, NoMemory, Text};
use std::alloc::Global;

// The numbers of the groups that these names name. None if a name is no group's.
fn numbers_of(
    alloc: Global,
    groups: &Groups,
    names: &List<Text>,
) -> Result<Option<List<u32>>, NoMemory>
    ensures { IfOk result (λ found. MatchOption found (are_named groups.now names.now ≡ false) (λ numbers. (are_named groups.now names.now ≡ true) × (numbers ≡ numbers_named groups.now names.now))) }
{
    let mut numbers = List::new(alloc);
    for name in names.as_slice() {
        let Some(number) = groups.find(name.as_str()) else {
            return Ok(None);
        };
        numbers.push(number)?;
    }
    Ok(Some(numbers))
}

// Puts a number after others, if it isn't among them.
fn add_number(numbers: &mut List<u32>, n: u32) -> Result<(), NoMemory>
    ensures ok { OnOk result (numbers.new ≡ with_last numbers.old n) }
    ensures err { OnErr result (numbers.new ≡ numbers.old) }
{
    if numbers.as_slice().contains(&n) {
        return Ok(());
    }
    numbers.push(n)
}

fn add_numbers(numbers: &mut List<u32>, more: &[u32]) -> Result<(), NoMemory>
    ensures { OnOk result (numbers.new ≡ fold with_last numbers.old more.now) }
{
    for n in more {
        add_number(numbers, *n)?;
    }
    Ok(())
}

/// The groups that these names name, after those that are there. A group keeps its first place. None if a name is no
/// group's.
pub fn groups_with(
    alloc: Global,
    groups: &Groups,
    there: List<u32>,
    names: &List<Text>,
) -> Result<Option<List<u32>>, NoMemory>
    ensures { IfOk result (λ found. MatchOption found (are_named groups.now names.now ≡ false) (λ all. (are_named groups.now names.now ≡ true) × (all ≡ fold with_last there (numbers_named groups.now names.now)))) }
{
    let Some(numbers) = numbers_of(alloc, groups, names)? else {
        return Ok(None);
    };
    let mut all = there;
    add_numbers(&mut all, numbers.as_slice())?;
    Ok(Some(all))
}

// Whether groups may be removed: each of them is there, and named once.
fn may_be_taken(removed: &[u32], groups: &[u32]) -> bool
    ensures { result ≡ may_be_taken removed.now groups.now }
{
    let mut rest = removed;
    while let Some((number, later)) = rest.split_first() {
        if !groups.contains(number) || later.contains(number) {
            return false;
        }
        rest = later;
    }
    true
}

// A copy of numbers without some of them.
fn without(alloc: Global, removed: &[u32], numbers: &[u32]) -> Result<List<u32>, NoMemory>
    ensures { IfOk result (λ kept. kept ≡ without_numbers removed.now numbers.now) }
{
    let mut kept = List::new(alloc);
    for number in numbers {
        if !removed.contains(number) {
            kept.push(*number)?;
        }
    }
    Ok(kept)
}

/// Groups of which some are removed, and then others are added, by their names. None if a name is no group's, or if
/// what is removed isn't there, or is named twice.
pub fn changed_groups(
    alloc: Global,
    groups: &Groups,
    before: &List<u32>,
    removed: &List<Text>,
    added: &List<Text>,
) -> Result<Option<List<u32>>, NoMemory>
    ensures { IfOk result (λ found. MatchOption found (((are_named groups.now removed.now && are_named groups.now added.now) && may_be_taken (numbers_named groups.now removed.now) before.now) ≡ false) (λ all. (((are_named groups.now removed.now && are_named groups.now added.now) && may_be_taken (numbers_named groups.now removed.now) before.now) ≡ true) × (all ≡ changed_groups (numbers_named groups.now removed.now) (numbers_named groups.now added.now) before.now))) }
{
    let Some(gone) = numbers_of(alloc, groups, removed)? else {
        return Ok(None);
    };
    if !may_be_taken(gone.as_slice(), before.as_slice()) {
        return Ok(None);
    }
    let kept = without(alloc, gone.as_slice(), before.as_slice())?;
    groups_with(alloc, groups, kept, added)
}
