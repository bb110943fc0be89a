//! Which screen judges a name: the screens and exceptions on the way up to the root are asked.

ghost use Rattle.std.specs.Prelude.{◌≡◌, ℕ, ◌+◌, ◌∷◌, ◌≤◌, List as Items, IfSome, MatchOption, true, false, length, option_map};
ghost use Rattle.std.specs.List.{list_all};
ghost use Rattle.fsrm_base.specs.Keyed.{has_row};
ghost use Rattle.fsrm_base.specs.Numbers.{is_in};
ghost use Rattle.fsrm_model.specs.values.Name.{folded, is_name};
ghost use Rattle.fsrm_model.specs.values.Patterns.{group_number};
ghost use Rattle.fsrm_model.specs.objects.Screens.{in_groups, judging};
ghost use Rattle.fsrm_model.specs.nodes.Tree.{chain, is_folder};
ghost use Rattle.fsrm_model.specs.store.Valid.{IsVolume};
ghost use Rattle.file_screens.specs.Blocked.{are_known, screened_rows, told};
ghost use Rattle.file_screens.specs.Way.{ApplyAlike, NoneApply, is_active, is_asked, judging_on, lets_pass, screen_with};

use crate::answer::Blocked;
use file_groups::Groups;
use fsrm_model::{Ledger, List, Steps};
use fsrm_objects::Objects;
use name_patterns::FoldedName;
use volume_tree::{Tree, WayUp};

// Whether a name is in one of the groups of these numbers.
fn is_in_some(groups: &Groups, numbers: &List<u32>, name: &FoldedName) -> bool
    requires { list_all (λ number. has_row group_number number groups.now) numbers.now ≡ true }
    ensures { (text : Items ℕ) → folded text ≡ name.now → result ≡ in_groups groups.now numbers.now text }
{
    for number in numbers.as_slice() {
        if groups.has_folded(*number, name) {
            return true;
        }
    }
    false
}

// The screen of a folder, if it has the name in one of its groups.
fn screen_with(
    objects: &Objects,
    groups: &Groups,
    folder: u32,
    name: &FoldedName,
) -> Option<Blocked>
    requires { are_known groups.now objects.now ≡ true }
    ensures { (text : Items ℕ) → folded text ≡ name.now → result ≡ option_map told (screen_with groups.now objects.now.screens text folder) }
{
    let Some(screen) = objects.screen(folder) else {
        return None;
    };
    if !is_in_some(groups, &screen.groups, name) {
        return None;
    }
    Some(Blocked {
        screen: screen.folder,
        active: screen.active,
    })
}

// Whether the exception of a folder has the name in one of its groups.
fn is_excepted(objects: &Objects, groups: &Groups, folder: u32, name: &FoldedName) -> bool
    requires { are_known groups.now objects.now ≡ true }
    ensures { (text : Items ℕ) → folded text ≡ name.now → result ≡ lets_pass groups.now objects.now.excepts text folder }
{
    let Some(except) = objects.except(folder) else {
        return false;
    };
    is_in_some(groups, &except.groups, name)
}

fn is_active(found: Option<Blocked>) -> bool
    ensures { result ≡ is_active found }
{
    match found {
        Some(screen) => screen.active,
        None => false,
    }
}

// Whether a folder has a screen or an exception.
fn is_asked(objects: &Objects, folder: u32) -> bool
    ensures { result ≡ is_asked objects.now folder }
{
    objects.screen(folder).is_some() || objects.except(folder).is_some()
}

// The first folder on a way up that has a screen or an exception; what is left of the way is what is above it. It takes
// a look for each folder on the way up to that one.
fn first_asked<L: Ledger>(
    way: &mut WayUp<'_>,
    objects: &Objects,
    steps: &mut Steps<L>,
) -> Option<u32>
    ensures apart { IfSome result (λ folder. is_in way.new folder ≡ false) }
    ensures alike { MatchOption result (NoneApply objects.now way.old) (λ folder. ApplyAlike objects.now way.old (folder ∷ way.new)) }
    ensures looks { steps.new + length way.new ≡ steps.old + length way.old }
{
    while let Some(folder) = way.next(steps) {
        if is_asked(objects, folder) {
            return Some(folder);
        }
    }
    None
}

// The screen that judges a name, on a way up of which the first folder was lent already: that one is asked, and then
// what is left of the way. It takes a look for each folder that it comes to after the first.
fn climb<L: Ledger>(
    start: u32,
    way: &mut WayUp<'_>,
    objects: &Objects,
    groups: &Groups,
    name: &FoldedName,
    steps: &mut Steps<L>,
) -> Option<Blocked>
    requires apart { is_in way.old start ≡ false }
    requires known { are_known groups.now objects.now ≡ true }
    ensures judged { (text : Items ℕ) → folded text ≡ name.now → result ≡ option_map told (judging_on groups.now objects.now (start ∷ way.old) text) }
    ensures looks { steps.new ≤ steps.old + length way.old }
{
    let mut at = start;
    // The nearest passive screen that applies.
    let mut passive = None;
    loop {
        let found = screen_with(objects, groups, at, name);
        if is_active(found) {
            return found;
        }
        passive = passive.or(found);
        // An exception says nothing of its own folder's screen, and takes the name from all screens above.
        if is_excepted(objects, groups, at, name) {
            return passive;
        }
        match way.next(steps) {
            Some(up) => at = up,
            None => return passive,
        }
    }
}

// The same of a name, which is folded once for all patterns. It isn't inlined, since a function clears the room of all
// that it may need when it begins, and a folded name takes a KiB.
#[inline(never)]
fn climb_with<L: Ledger>(
    start: u32,
    way: &mut WayUp<'_>,
    objects: &Objects,
    groups: &Groups,
    name: &str,
    steps: &mut Steps<L>,
) -> Option<Blocked>
    requires apart { is_in way.old start ≡ false }
    requires named { is_name name.now ≡ true }
    requires known { are_known groups.now objects.now ≡ true }
    ensures judged { result ≡ option_map told (judging_on groups.now objects.now (start ∷ way.old) name.now) }
    ensures looks { steps.new ≤ steps.old + length way.old }
{
    let name = FoldedName::of(name);
    climb(start, way, objects, groups, &name, steps)
}

/// The screen that judges a name which a file is given in a folder: the nearest active one that applies, else the
/// nearest passive one. A screen applies, on the way from the folder up to the root, to a name that is in one of its
/// groups, unless an exception nearer to the folder than the screen has the name in one of its groups. None exactly if
/// none applies. It takes at most one look for each folder on the way, and no memory.
pub fn blocked<L: Ledger>(
    tree: &Tree,
    objects: &Objects,
    groups: &Groups,
    folder: u32,
    name: &str,
    steps: &mut Steps<L>,
) -> Option<Blocked>
    requires volume { IsVolume tree.now.size tree.now.nodes }
    requires folder { is_folder tree.now.nodes folder ≡ true }
    requires named { is_name name.now ≡ true }
    requires known { are_known groups.now objects.now ≡ true }
    ensures judged { result ≡ option_map told (judging (screened_rows tree.now.nodes groups.now objects.now) folder name.now) }
    ensures looks { steps.new ≤ steps.old + length (chain tree.now.nodes folder) }
{
    if objects.screen_count() == 0 {
        return None;
    }
    // Most names have a last character that no name in a group has.
    if !groups.may_have(name) {
        return None;
    }
    let mut way = tree.way_up(folder);
    let Some(start) = first_asked(&mut way, objects, steps) else {
        return None;
    };
    climb_with(start, &mut way, objects, groups, name, steps)
}
