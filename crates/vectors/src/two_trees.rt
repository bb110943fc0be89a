//! Many changes of a tree, each of which a plain tree makes too: both answer the same, and come to the same nodes.

ghost use Rattle.std.specs.Prelude.{◌≡◌, ◌≤◌, true, false};
ghost use Rattle.fsrm_base.specs.Keyed.{has_row};
ghost use Rattle.fsrm_model.specs.values.Limits.{latest_moment};
ghost use Rattle.fsrm_model.specs.nodes.Tree.{number as key, is_folder as is_folder_of};

use crate::chances::{below, chances};
use crate::plain_tree::{Change, PlainTree};
use crate::trees::is_folder;
use fsrm_model::{Capacity, Ledger, List, NodeRow, Steps, Weightless};
use name_rules::is_name;
use rand_core::Rng;
use rand_pcg::Pcg32;
use std::alloc::Global;
use std::marker::Brand;
use std::process::Abort;
use std::sync::ledger::{Blank, Ledger as Named};
use std::test::Fail;
use volume_tree::{Finger, Siblings, Tree, TreeFault};

// Most names begin with more characters than the order keeps of a name. Each stands beside the same name in another
// spelling.
static NAMES: [&str; 50] = [
    "annual report of the north",
    "Annual Report Of The NORTH",
    "annual report of the north 1",
    "Annual Report Of The NORTH 1",
    "annual report of the north 10",
    "Annual Report Of The NORTH 10",
    "annual report of the north 2",
    "Annual Report Of The NORTH 2",
    "annual report of the north a",
    "Annual Report Of The NORTH A",
    "annual report of the north ab",
    "Annual Report Of The NORTH aB",
    "annual report of the north b",
    "Annual Report Of The NORTH B",
    "annual report of the north é",
    "Annual Report Of The NORTH É",
    "annual report of the north e",
    "Annual Report Of The NORTH E",
    "annual report of the north f",
    "Annual Report Of The NORTH F",
    "annual report of the north ß",
    "Annual Report Of The NORTH ẞ",
    "annual report of the north ss",
    "Annual Report Of The NORTH SS",
    "annual report of the north k",
    "Annual Report Of The NORTH \u{212a}",
    "annual report of the north l",
    "Annual Report Of The NORTH L",
    "annual report of the north s",
    "Annual Report Of The NORTH \u{17f}",
    "annual report of the north t",
    "Annual Report Of The NORTH T",
    "annual report of the north σ",
    "Annual Report Of The NORTH ς",
    "annual report of the north τ",
    "Annual Report Of The NORTH Τ",
    "annual report of the north z.txt",
    "Annual Report Of The NORTH Z.TXT",
    "annual report of the north zz.txt",
    "Annual Report Of The NORTH ZZ.Txt",
    "a",
    "A",
    "é",
    "É",
    "k",
    "\u{212a}",
    "n",
    "N",
    "~",
    "~",
];

const SIZE: Capacity = Capacity {
    nodes: 300,
    names: 6_000,
    cluster: 4_096,
};

const CHANGES: u64 = 10_000;

// Where a folder is looked for.
const FOLDERS: u32 = 80;

// How many places children are asked for.
const PLACES: u32 = 6;

fn some_name(chances: &mut Pcg32) -> &'static str {
    NAMES[below(chances, NAMES.len() as u32) as usize]
}

// Two hundred changes are of all sorts. Then two hundred remove nodes, and two hundred make new ones, so that many are
// late at once.
fn some_sort(chances: &mut Pcg32, moment: u64) -> u32 {
    match moment / 200 % 3 {
        0 => below(chances, 10),
        1 => 6,
        _ => below(chances, 4),
    }
}

// Four of ten changes make a node, so the volume is mostly full. Low numbers are the folders, so that each has several
// children.
fn choose(chances: &mut Pcg32, plain: &PlainTree, moment: u64) -> Change {
    let folder = plain.folder_from(below(chances, FOLDERS));
    let name = some_name(chances);
    let length = chances.next_u32();
    let node = plain.node_from(1 + below(chances, SIZE.nodes));
    if node == 0 {
        return Change::Folder { folder, name };
    }
    match some_sort(chances, moment) {
        0..=2 => Change::File {
            folder,
            name,
            length,
        },
        3 => Change::Folder { folder, name },
        4 | 5 => Change::Move { node, folder, name },
        6 => Change::Remove { node },
        _ if plain.is_folder(node) => Change::Remove { node },
        7 | 8 => Change::Resize { node, length },
        _ => Change::Touch { node },
    }
}

/// Makes a folder in one that there is.
pub fn make_folder<L: Ledger>(
    tree: &mut Tree,
    end: &impl Abort,
    folder: u32,
    name: &str,
    moment: u64,
    steps: &mut Steps<L>,
) -> Result<u32, TreeFault>
    requires { moment ≤ latest_moment }
{
    assert!(end; is_folder(tree, folder, steps));
    assert!(end; is_name(name));
    tree.mkdir(folder, name, 1, moment, steps)
}

/// Makes a file in a folder that there is.
pub fn make_file<L: Ledger>(
    tree: &mut Tree,
    end: &impl Abort,
    folder: u32,
    name: &str,
    length: u32,
    moment: u64,
    steps: &mut Steps<L>,
) -> Result<u32, TreeFault>
    requires { moment ≤ latest_moment }
{
    assert!(end; is_folder(tree, folder, steps));
    assert!(end; is_name(name));
    tree.create(folder, name, u64::from(length), 1, moment, steps)
}

// Whether a node is a file.
fn is_file<L: Ledger>(tree: &Tree, node: u32, steps: &mut Steps<L>) -> bool
    ensures there { result ≡ true → has_row key node tree.now.nodes ≡ true }
    ensures file { result ≡ true → is_folder_of tree.now.nodes node ≡ false }
{
    tree.live(node) && !is_folder(tree, node, steps)
}

fn resize<L: Ledger>(
    tree: &mut Tree,
    end: &impl Abort,
    node: u32,
    length: u32,
    moment: u64,
    steps: &mut Steps<L>,
)
    requires { moment ≤ latest_moment }
{
    assert!(end; is_file(tree, node, steps));
    tree.resize(node, u64::from(length), moment, steps);
}

fn touch<L: Ledger>(tree: &mut Tree, end: &impl Abort, node: u32, moment: u64, steps: &mut Steps<L>)
    requires { moment ≤ latest_moment }
{
    assert!(end; is_file(tree, node, steps));
    tree.touch(node, moment, steps);
}

fn move_node<L: Ledger>(
    tree: &mut Tree,
    end: &impl Abort,
    node: u32,
    folder: u32,
    name: &str,
    steps: &mut Steps<L>,
) -> Result<u32, TreeFault> {
    assert!(end; node != 0);
    assert!(end; tree.live(node));
    assert!(end; is_folder(tree, folder, steps));
    assert!(end; is_name(name));
    tree.move_node(node, folder, name, steps)?;
    Ok(node)
}

/// Removes a node that there is.
pub fn remove<L: Ledger>(
    tree: &mut Tree,
    end: &impl Abort,
    node: u32,
    steps: &mut Steps<L>,
) -> Result<u32, TreeFault> {
    assert!(end; node != 0);
    assert!(end; tree.live(node));
    tree.remove(node, steps)?;
    Ok(node)
}

fn change<L: Ledger>(
    tree: &mut Tree,
    end: &impl Abort,
    change: Change,
    moment: u64,
    steps: &mut Steps<L>,
) -> Result<u32, TreeFault>
    requires { moment ≤ latest_moment }
{
    match change {
        Change::Folder { folder, name } => {
            return make_folder(tree, end, folder, name, moment, steps);
        }
        Change::File {
            folder,
            name,
            length,
        } => {
            return make_file(tree, end, folder, name, length, moment, steps);
        }
        Change::Resize { node, length } => resize(tree, end, node, length, moment, steps),
        Change::Touch { node } => touch(tree, end, node, moment, steps),
        Change::Move { node, folder, name } => {
            return move_node(tree, end, node, folder, name, steps);
        }
        Change::Remove { node } => return remove(tree, end, node, steps),
    }
    Ok(0)
}

fn change_both<L: Ledger>(
    tree: &mut Tree,
    plain: &mut PlainTree,
    end: &impl Abort,
    chances: &mut Pcg32,
    moment: u64,
    steps: &mut Steps<L>,
)
    requires { moment ≤ latest_moment }
{
    let chosen = choose(chances, plain, moment);
    let answer = change(tree, end, chosen, moment, steps);
    assert!(end; answer == plain.change(chosen, moment));
}

// Puts the late nodes into the order, now and then.
fn arrange_by_chance(tree: &mut Tree, chances: &mut Pcg32) {
    match below(chances, 100) {
        0 | 1 => tree.arrange(),
        2 => tree.arrange_if_many(),
        _ => {}
    }
}

// Whether both find the same child of a name.
fn find_same<L: Ledger>(
    tree: &Tree,
    plain: &PlainTree,
    chances: &mut Pcg32,
    steps: &mut Steps<L>,
) -> bool {
    let folder = below(chances, FOLDERS);
    let name = some_name(chances);
    tree.child(folder, name, steps) == plain.child(folder, name)
}

// The child that stands at a place, if there are so many.
fn child_at<L: Ledger>(tree: &Tree, folder: u32, place: u32, steps: &mut Steps<L>) -> Option<u32> {
    if place < tree.child_count(folder, steps) {
        Some(tree.child_at(folder, place, steps))
    } else {
        None
    }
}

// Whether both have as many children in a folder, and the same one at a place.
fn count_same<L: Ledger>(
    tree: &Tree,
    plain: &PlainTree,
    chances: &mut Pcg32,
    steps: &mut Steps<L>,
) -> bool {
    let folder = below(chances, FOLDERS);
    let place = below(chances, PLACES);
    tree.child_count(folder, steps) as usize == plain.child_count(folder)
        && child_at(tree, folder, place, steps) == plain.child_at(folder, place)
}

fn push_numbers(numbers: &mut Vec<u32>, siblings: &Siblings<'_>) -> Result<(), Fail> {
    for place in 0..siblings.len() {
        numbers.push(siblings.number(place))?;
    }
    Ok(())
}

/// The numbers of a folder's children.
pub fn numbers<L: Ledger>(
    tree: &Tree,
    alloc: Global,
    folder: u32,
    finger: &mut Finger,
    steps: &mut Steps<L>,
) -> Result<Vec<u32>, Fail> {
    let mut children = tree.children(folder, finger, steps);
    let mut numbers = Vec::new(alloc);
    while let Some(siblings) = children.next(steps) {
        push_numbers(&mut numbers, &siblings)?;
    }
    Ok(numbers)
}

fn have_same_children<L: Ledger>(
    tree: &Tree,
    plain: &PlainTree,
    alloc: Global,
    steps: &mut Steps<L>,
) -> Result<bool, Fail> {
    let mut finger = Finger::default();
    for folder in 0..SIZE.nodes {
        let numbers = numbers(tree, alloc, folder, &mut finger, steps)?;
        if !plain.are_children(folder, &numbers) {
            return Ok(false);
        }
    }
    Ok(true)
}

fn are_same<L: Ledger>(
    tree: &Tree,
    plain: &PlainTree,
    alloc: Global,
    steps: &mut Steps<L>,
) -> Result<bool, Fail> {
    let rows = tree.to_rows(alloc, steps)?;
    Ok(plain.are_all(rows.as_slice()) && have_same_children(tree, plain, alloc, steps)?)
}

// The same while nodes are late, and when none is.
fn stay_same<L: Ledger>(
    tree: &mut Tree,
    plain: &PlainTree,
    alloc: Global,
    steps: &mut Steps<L>,
) -> Result<bool, Fail> {
    let same = are_same(tree, plain, alloc, steps)?;
    tree.arrange();
    Ok(same && are_same(tree, plain, alloc, steps)?)
}

fn changes<L: Ledger>(
    tree: &mut Tree,
    plain: &mut PlainTree,
    alloc: Global,
    end: &impl Abort,
    steps: &mut Steps<L>,
) -> Result<(), Fail> {
    let mut chances = chances();
    for moment in 0..CHANGES {
        change_both(tree, plain, end, &mut chances, moment, steps);
        arrange_by_chance(tree, &mut chances);
        assert!(end; find_same(tree, plain, &mut chances, steps));
        assert!(end; count_same(tree, plain, &mut chances, steps));
        if moment % 500 == 0 {
            assert!(end; stay_same(tree, plain, alloc, steps)?);
        }
    }
    assert!(end; stay_same(tree, plain, alloc, steps)?);
    Ok(())
}

// The same changes of a tree that is made of rows: all of its nodes are late at first.
fn changes_of_rows<L: Ledger>(
    rows: &List<NodeRow>,
    plain: &mut PlainTree,
    alloc: Global,
    end: &impl Abort,
    steps: &mut Steps<L>,
) -> Result<(), Fail> {
    let mut tree = Tree::from_rows(alloc, rows, SIZE)?;
    changes(&mut tree, plain, alloc, end, steps)
}

fn changes_and_more<L: Ledger>(
    tree: &mut Tree,
    plain: &mut PlainTree,
    alloc: Global,
    end: &impl Abort,
    steps: &mut Steps<L>,
) -> Result<(), Fail> {
    changes(tree, plain, alloc, end, steps)?;
    let rows = tree.to_rows(alloc, steps)?;
    changes_of_rows(&rows, plain, alloc, end, steps)
}

// A function that owns a tree is dear to prove by each of its statements, so this one has three.
fn new_trees<L: Ledger>(alloc: Global, end: &impl Abort, steps: &mut Steps<L>) -> Result<(), Fail> {
    let mut plain = PlainTree::new(alloc, SIZE)?;
    let mut tree = Tree::reserve(alloc, SIZE)?;
    changes_and_more(&mut tree, &mut plain, alloc, end, steps)
}

fn two_trees<N: Named>(rt: &HostRuntime, end: &impl Abort, blank: Blank) -> Result<(), Fail>
    requires name { blank.name ≡ N.name }
    requires parts { blank.parts ≡ N.parts }
    requires one { blank.parts ≡ 1 }
{
    let mut steps = Steps::new(rt, Weightless::<N>::of(blank));
    new_trees(rt.alloc(), end, &mut steps)
}

#[test]
fn a_tree_answers_as_a_plain_one_does(rt: HostRuntime) -> Result<(), Fail> {
    two_trees::<Brand>(&rt, &rt, Blank::new(1))
}
