//! What a scan has yet to visit, which the program doesn't ask, and a queue of scans. Scans are shown by scripts.

ghost use Rattle.std.specs.Prelude.{◌≡◌, true};
ghost use Rattle.fsrm_model.specs.store.Valid.{IsVolume};
ghost use Rattle.fsrm_model.specs.nodes.Tree.{is_folder as is_folder_of};

use crate::trees::is_folder;
use crate::values::SMALL;
use fsrm_model::{Ledger, List, Steps, Weightless};
use rescan::{Frontier, Scans};
use std::alloc::Global;
use std::marker::Brand;
use std::process::Abort;
use std::sync::ledger::{Blank, Ledger as Named};
use std::test::Fail;
use volume_tree::Tree;

fn unvisited<L: Ledger>(tree: &Tree, alloc: Global, steps: &mut Steps<L>) -> Result<List<u32>, Fail>
    requires volume { IsVolume tree.now.size tree.now.nodes }
    requires nodes { tree.now.size.nodes ≡ 9 }
    requires cluster { tree.now.size.cluster ≡ 4096 }
    requires root { is_folder_of tree.now.nodes 0 ≡ true }
{
    let mut frontier = Frontier::reserve(alloc, 9, 4_096)?;
    frontier.start(0);
    Ok(frontier.unvisited(alloc, tree, steps)?)
}

// In a volume with the root alone.
fn in_new_tree<L: Ledger>(
    alloc: Global,
    end: &impl Abort,
    steps: &mut Steps<L>,
) -> Result<List<u32>, Fail> {
    let tree = Tree::reserve(alloc, SMALL)?;
    assert!(end; is_folder(&tree, 0, steps));
    unvisited(&tree, alloc, steps)
}

fn scans<N: Named>(rt: &HostRuntime, end: &impl Abort, blank: Blank) -> Result<(), Fail>
    requires name { blank.name ≡ N.name }
    requires parts { blank.parts ≡ N.parts }
    requires one { blank.parts ≡ 1 }
{
    let mut steps = Steps::new(rt, Weightless::<N>::of(blank));
    let left = in_new_tree(rt.alloc(), end, &mut steps)?;
    assert!(end; left.as_slice() == [0].as_slice());
    Ok(())
}

#[test]
fn a_scan_has_its_folder_to_visit(rt: HostRuntime) -> Result<(), Fail> {
    scans::<Brand>(&rt, &rt, Blank::new(1))
}

fn pushed(alloc: Global) -> Result<Option<u32>, Fail> {
    let mut scans = Scans::reserve(alloc, 9, 4_096)?;
    scans.push(5);
    Ok(scans.head())
}

#[test]
fn a_pushed_folder_is_the_first(rt: HostRuntime) -> Result<(), Fail> {
    assert!(rt; pushed(rt.alloc())? == Some(5));
    Ok(())
}
