//! Auto-apply quotas that commands make, and the folders to which they give quotas.

ghost use Rattle.std.specs.Prelude.{◌≡◌, ◌+◌, ◌*◌, ◌≤◌, ◌&&◌, ◌++◌, true, length, filter, IfOk, OnOk, Some};
ghost use Rattle.fsrm_base.specs.Keyed.{has_row};
ghost use Rattle.fsrm_model.specs.commands.AutoWork.{new_auto};
ghost use Rattle.fsrm_model.specs.nodes.Tree.{number, children, is_folder};
ghost use Rattle.fsrm_model.specs.store.Valid.{IsVolume};
ghost use Rattle.fsrm_parts.specs.Applying.{gets_one, given_folders};
ghost use Rattle.fsrm_parts.specs.Walk.{AreThere};

use fsrm_model::{AutoRow, Duplicate, Ledger, List, NoMemory, Steps, Text};
use fsrm_objects::Objects;
use std::alloc::Global;
use templates::excludes;
use volume_tree::{Children, Finger, Siblings, Tree};

/// A new auto-apply quota, with copies of the names that it excludes.
pub fn new_auto(
    alloc: Global,
    folder: u32,
    template: u32,
    excluded: &List<Text>,
) -> Result<AutoRow, NoMemory>
    ensures { IfOk result (λ row. row ≡ new_auto folder template excluded.now) }
{
    Ok(AutoRow {
        folder,
        template,
        excluded: excluded.copy(alloc)?,
    })
}

// Whether a child of a folder is a folder to which the folder's auto-apply quota gives a quota.
fn gets_one<L: Ledger>(
    tree: &Tree,
    objects: &Objects,
    row: &AutoRow,
    child: u32,
    steps: &mut Steps<L>,
) -> bool
    requires { has_row number child tree.now.nodes ≡ true }
    ensures value { result ≡ (is_folder tree.now.nodes child && gets_one tree.now.nodes objects.now.quotas row.now child) }
    ensures looks { steps.new ≤ steps.old + 1 }
{
    let view = tree.node(child, steps);
    view.folder && !excludes(row, view.name) && objects.quota(child).is_none()
}

// Puts those of some children that get a quota after other folders. It takes a look for each child.
fn put_given<L: Ledger>(
    tree: &Tree,
    objects: &Objects,
    row: &AutoRow,
    siblings: &Siblings<'_>,
    folders: &mut Vec<u32>,
    steps: &mut Steps<L>,
) -> Result<(), NoMemory>
    requires { AreThere tree.now.nodes siblings.now }
    ensures ok { OnOk result (folders.new.items ≡ folders.old.items ++ filter (λ child. is_folder tree.now.nodes child && gets_one tree.now.nodes objects.now.quotas row.now child) siblings.now) }
    ensures looks { steps.new ≤ steps.old + length siblings.now }
{
    for place in 0..siblings.len() {
        let child = siblings.number(place);
        if gets_one(tree, objects, row, child, steps) {
            folders.push(child)?;
        }
    }
    Ok(())
}

// The same of all children. It takes two looks for each.
fn put_all_given<L: Ledger>(
    tree: &Tree,
    objects: &Objects,
    row: &AutoRow,
    children: &mut Children<'_>,
    folders: &mut Vec<u32>,
    steps: &mut Steps<L>,
) -> Result<(), NoMemory>
    requires { AreThere tree.now.nodes children.old }
    ensures ok { OnOk result (folders.new.items ≡ folders.old.items ++ filter (λ child. is_folder tree.now.nodes child && gets_one tree.now.nodes objects.now.quotas row.now child) children.old) }
    ensures looks { steps.new ≤ steps.old + 2 * length children.old }
{
    while let Some(siblings) = children.next(steps) {
        put_given(tree, objects, row, &siblings, folders, steps)?;
    }
    Ok(())
}

/// The folders in its folder to which an auto-apply quota gives quotas, in the order of their numbers.
pub fn given_folders<L: Ledger>(
    tree: &Tree,
    objects: &Objects,
    alloc: Global,
    row: &AutoRow,
    steps: &mut Steps<L>,
) -> Result<Vec<u32>, NoMemory>
    requires { IsVolume tree.now.size tree.now.nodes }
    ensures folders { IfOk result (λ folders. folders.items ≡ given_folders tree.now.nodes objects.now.quotas row.now) }
    ensures looks { steps.new ≤ steps.old + (1 + 2 * length (children tree.now.nodes row.now.folder)) }
{
    let mut folders = Vec::new(alloc);
    let mut children = tree.children(row.folder, &mut Finger::default(), steps);
    put_all_given(tree, objects, row, &mut children, &mut folders, steps)?;
    folders.sort_unstable();
    Ok(folders)
}
