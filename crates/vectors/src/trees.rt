//! The tree of a volume: the order of children and the owners and moments of files, and the calls that the
//! program doesn't make: whole creations and moves, and copies of its rows.

ghost use Rattle.std.specs.Prelude.{◌≡◌, ◌==◌, true, false};
ghost use Rattle.fsrm_model.specs.store.Capacities.{is_capacity};
ghost use Rattle.fsrm_model.specs.values.Name.{is_name};
ghost use Rattle.fsrm_model.specs.nodes.Tree.{is_folder as is_folder_of};

use crate::many_names::SPELLINGS;
use crate::two_trees::numbers;
use crate::values::{SMALL, TINY, folder, one};
use fsrm_model::{Capacity, Ledger, List, NodeRow, Steps, Weightless};
use std::alloc::Global;
use std::marker::Brand;
use std::process::Abort;
use std::sync::ledger::{Blank, Ledger as Named};
use std::test::Fail;
use volume_tree::{Finger, RowsFault, Tree, TreeFault};

/// Whether there is a folder of this number.
pub fn is_folder<L: Ledger>(tree: &Tree, node: u32, steps: &mut Steps<L>) -> bool
    ensures { result ≡ is_folder_of tree.now.nodes node }
{
    tree.live(node) && tree.node(node, steps).folder
}

fn mkdir<L: Ledger>(
    tree: &mut Tree,
    end: &impl Abort,
    name: &str,
    steps: &mut Steps<L>,
) -> Result<u32, TreeFault>
    requires { is_name name.now ≡ true }
{
    assert!(end; is_folder(tree, 0, steps));
    tree.mkdir(0, name, 3, 7, steps)
}

// A file of five bytes.
fn create<L: Ledger>(
    tree: &mut Tree,
    end: &impl Abort,
    name: &str,
    steps: &mut Steps<L>,
) -> Result<u32, TreeFault>
    requires { is_name name.now ≡ true }
{
    assert!(end; is_folder(tree, 0, steps));
    tree.create(0, name, 5, 3, 7, steps)
}

// Makes four nodes in the root: file 1, folder 2, and files 3 and 4.
fn fill<L: Ledger>(
    tree: &mut Tree,
    end: &impl Abort,
    steps: &mut Steps<L>,
) -> Result<(), TreeFault> {
    create(tree, end, "B", steps)?;
    mkdir(tree, end, "É", steps)?;
    create(tree, end, "a", steps)?;
    create(tree, end, "_", steps)?;
    Ok(())
}

fn resize<L: Ledger>(tree: &mut Tree, end: &impl Abort, steps: &mut Steps<L>) {
    assert!(end; tree.live(1));
    assert!(end; !is_folder(tree, 1, steps));
    tree.resize(1, 6, 8, steps);
}

fn touch<L: Ledger>(tree: &mut Tree, end: &impl Abort, steps: &mut Steps<L>) {
    assert!(end; tree.live(1));
    assert!(end; !is_folder(tree, 1, steps));
    tree.touch(1, 9, steps);
}

fn is_changed<L: Ledger>(tree: &Tree, end: &impl Abort, steps: &mut Steps<L>) -> bool {
    assert!(end; tree.live(1));
    let file = tree.node(1, steps);
    let is_made = file.length == 6 && file.owner == 3 && file.created == 7;
    is_made && file.modified == 8 && file.accessed == 9
}

fn are_ordered<L: Ledger>(tree: &Tree, alloc: Global, steps: &mut Steps<L>) -> Result<bool, Fail> {
    let numbers = numbers(tree, alloc, 0, &mut Finger::default(), steps)?;
    Ok(numbers.as_slice() == [4, 3, 1, 2].as_slice())
}

fn move_into_folder<L: Ledger>(
    tree: &mut Tree,
    end: &impl Abort,
    node: u32,
    name: &str,
    steps: &mut Steps<L>,
) -> Result<(), TreeFault>
    requires inner { (node == 0) ≡ false }
    requires name { is_name name.now ≡ true }
{
    assert!(end; tree.live(node));
    assert!(end; is_folder(tree, 2, steps));
    tree.move_node(node, 2, name, steps)
}

fn nodes_move<L: Ledger>(
    tree: &mut Tree,
    end: &impl Abort,
    steps: &mut Steps<L>,
) -> Result<(), Fail> {
    move_into_folder(tree, end, 1, "c", steps)?;
    let again = move_into_folder(tree, end, 3, "C", steps);
    assert!(end; matches!(again, Err(TreeFault::AlreadyExists)));
    Ok(())
}

// From file 1, which was moved into folder 2, up to the root.
fn goes_up<L: Ledger>(tree: &Tree, end: &impl Abort, steps: &mut Steps<L>) -> bool {
    assert!(end; tree.live(1));
    let mut way = tree.way_up(1);
    let three = way.next(steps) == Some(1)
        && way.next(steps) == Some(2)
        && way.next(steps) == Some(0);
    three && way.next(steps).is_none() && way.next(steps).is_none()
}

fn fault(alloc: Global, rows: &List<NodeRow>, size: Capacity) -> Option<RowsFault>
    requires { is_capacity size ≡ true }
{
    Tree::from_rows(alloc, rows, size).err()
}

/// Whether no tree is made of these rows.
pub fn is_bad(alloc: Global, rows: &List<NodeRow>, size: Capacity) -> bool
    requires { is_capacity size ≡ true }
{
    matches!(fault(alloc, rows, size), Some(RowsFault::BadRows))
}

fn rows_go_round<L: Ledger>(
    tree: &Tree,
    alloc: Global,
    steps: &mut Steps<L>,
) -> Result<bool, Fail> {
    let rows = tree.to_rows(alloc, steps)?;
    Ok(fault(alloc, &rows, SMALL).is_none() && is_bad(alloc, &rows, TINY))
}

fn changes<L: Ledger>(
    tree: &mut Tree,
    alloc: Global,
    end: &impl Abort,
    steps: &mut Steps<L>,
) -> Result<(), Fail> {
    fill(tree, end, steps)?;
    resize(tree, end, steps);
    touch(tree, end, steps);
    assert!(end; is_changed(tree, end, steps));
    assert!(end; are_ordered(tree, alloc, steps)?);
    nodes_move(tree, end, steps)?;
    assert!(end; goes_up(tree, end, steps));
    assert!(end; rows_go_round(tree, alloc, steps)?);
    Ok(())
}

// A function that owns a tree is dear to prove by each of its statements, so this one has two.
fn new_tree<L: Ledger>(alloc: Global, end: &impl Abort, steps: &mut Steps<L>) -> Result<(), Fail> {
    let mut tree = Tree::reserve(alloc, SMALL)?;
    changes(&mut tree, alloc, end, steps)
}

fn trees<N: Named>(rt: &HostRuntime, end: &impl Abort, blank: Blank) -> Result<(), Fail>
    requires name { blank.name ≡ N.name }
    requires parts { blank.parts ≡ N.parts }
    requires one { blank.parts ≡ 1 }
{
    let mut steps = Steps::new(rt, Weightless::<N>::of(blank));
    new_tree(rt.alloc(), end, &mut steps)
}

#[test]
fn nodes_are_made_and_moved(rt: HostRuntime) -> Result<(), Fail> {
    trees::<Brand>(&rt, &rt, Blank::new(1))
}

// The root, and folders 1 and 2 with these parents and names.
fn folders(alloc: Global, first: (u32, &str), second: (u32, &str)) -> Result<List<NodeRow>, Fail> {
    let mut rows = one(alloc, folder(alloc, 0, 0, "")?)?;
    rows.push(folder(alloc, 1, first.0, first.1)?)?;
    rows.push(folder(alloc, 2, second.0, second.1)?)?;
    Ok(rows)
}

fn are_bad(alloc: Global, first: (u32, &str), second: (u32, &str)) -> Result<bool, Fail> {
    Ok(is_bad(alloc, &folders(alloc, first, second)?, SMALL))
}

// Two spellings of a name are bad in one folder, and not in two.
#[test]
fn twins_are_bad(rt: HostRuntime) -> Result<(), Fail> {
    for (name, other) in SPELLINGS {
        assert!(rt; are_bad(rt.alloc(), (0, name), (0, name))?);
        assert!(rt; are_bad(rt.alloc(), (0, name), (0, other))?);
        assert!(rt; !are_bad(rt.alloc(), (0, name), (1, other))?);
    }
    Ok(())
}

#[test]
fn a_ring_is_bad(rt: HostRuntime) -> Result<(), Fail> {
    assert!(rt; are_bad(rt.alloc(), (2, "b"), (1, "c"))?);
    Ok(())
}
