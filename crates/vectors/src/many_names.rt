//! The names of a tree: all spellings of a name lead to its node, and where the index of names has grown and has lost
//! some, too.

ghost use Rattle.std.specs.Prelude.{◌≡◌};

use crate::trees::is_bad;
use crate::two_trees::{make_file, make_folder, numbers, remove};
use crate::values::folder;
use fsrm_model::{Capacity, Ledger, List, NodeRow, Steps, Weightless};
use name_rules::read_path;
use std::alloc::Global;
use std::marker::Brand;
use std::process::Abort;
use std::sync::ledger::{Blank, Ledger as Named};
use std::test::Fail;
use volume_tree::{Finger, Tree, TreeFault};

/// Names, each beside another spelling, in the order of their folded characters: U+00DF, U+00E4, U+00E5, U+0131 and
/// U+03C3 come last. Some begin with the same eight characters, and some differ at their ends alone.
pub static SPELLINGS: [(&str, &str); 15] = [
    ("a\u{308}", "A\u{308}"),
    ("i", "I"),
    ("k", "\u{212a}"),
    ("s", "\u{17f}"),
    ("ss", "SS"),
    ("yearly r", "YEARLY R"),
    ("yearly report", "Yearly Report"),
    ("yearly report 1", "yearly REPORT 1"),
    ("yearly report 2", "YEARLY report 2"),
    ("yearly report \u{212a}", "yearly report k"),
    ("ß", "ẞ"),
    ("ä", "Ä"),
    ("å", "\u{212b}"),
    ("ı.txt", "ı.TXT"),
    ("σ", "ς"),
];

const SIZE: Capacity = Capacity {
    nodes: 16_384,
    names: 524_288,
    cluster: 4_096,
};

// Folders 1 to 15 are in the root, and 1,000 files in each of them. The index begins with 256 buckets, and ends with
// 2,048; some 100 of them have lost a name by then.
const FOLDERS: u32 = 15;

const FIRST: u32 = 16;

const END: u32 = 15_016;

// The index of a tree of their rows loses this file: its name leads to a full bucket.
const LOST: u32 = 13_434;

fn folder_of(file: u32) -> u32 {
    1 + file % FOLDERS
}

// The year of a file. The later files of a folder have the earlier ones.
fn year_of(file: u32) -> u32 {
    END.saturating_sub(file) / FOLDERS
}

// Makes a folder, and refuses it again in another spelling, which leads to it.
fn make_once<L: Ledger>(
    tree: &mut Tree,
    end: &impl Abort,
    name: &str,
    other: &str,
    steps: &mut Steps<L>,
) -> Result<(), Fail> {
    let made = make_folder(tree, end, 0, name, 7, steps)?;
    let again = make_folder(tree, end, 0, other, 7, steps);
    assert!(end; again == Err(TreeFault::AlreadyExists));
    assert!(end; tree.child(0, other, steps) == Some(made));
    Ok(())
}

// Makes the last name first.
fn make_spellings<L: Ledger>(
    tree: &mut Tree,
    end: &impl Abort,
    steps: &mut Steps<L>,
) -> Result<(), Fail> {
    for (name, other) in SPELLINGS.iter().rev() {
        make_once(tree, end, name, other, steps)?;
    }
    Ok(())
}

// Whether a folder's children have descending numbers, so many of them.
fn descend<L: Ledger>(
    tree: &Tree,
    alloc: Global,
    folder: u32,
    count: usize,
    steps: &mut Steps<L>,
) -> Result<bool, Fail> {
    let numbers = numbers(tree, alloc, folder, &mut Finger::default(), steps)?;
    let descend = numbers.is_sorted_by(|one, next| one > next);
    Ok(descend && numbers.len() == count)
}

fn spellings<L: Ledger>(
    tree: &mut Tree,
    alloc: Global,
    end: &impl Abort,
    steps: &mut Steps<L>,
) -> Result<(), Fail> {
    make_spellings(tree, end, steps)?;
    assert!(end; descend(tree, alloc, 0, SPELLINGS.len(), steps)?);
    tree.arrange();
    assert!(end; descend(tree, alloc, 0, SPELLINGS.len(), steps)?);
    Ok(())
}

fn make_folders<L: Ledger>(
    tree: &mut Tree,
    alloc: Global,
    end: &impl Abort,
    steps: &mut Steps<L>,
) -> Result<(), Fail> {
    for number in 1..FIRST {
        let name = format!(in alloc; "folder {number}")?;
        make_folder(tree, end, 0, &name, 7, steps)?;
    }
    Ok(())
}

fn make_files<L: Ledger>(
    tree: &mut Tree,
    alloc: Global,
    end: &impl Abort,
    steps: &mut Steps<L>,
) -> Result<(), Fail> {
    for file in FIRST..END {
        let year = year_of(file);
        let name = format!(in alloc; "yearly report {year:04}")?;
        make_file(tree, end, folder_of(file), &name, 1, 7, steps)?;
    }
    Ok(())
}

fn remove_odd<L: Ledger>(
    tree: &mut Tree,
    end: &impl Abort,
    steps: &mut Steps<L>,
) -> Result<(), Fail> {
    for file in FIRST..END {
        if file % 2 == 1 {
            remove(tree, end, file, steps)?;
        }
    }
    Ok(())
}

// What a file's name leads to, and in capitals, too.
fn named<L: Ledger>(
    tree: &Tree,
    alloc: Global,
    file: u32,
    steps: &mut Steps<L>,
) -> Result<[Option<u32>; 2], Fail> {
    let year = year_of(file);
    let name = format!(in alloc; "yearly report {year:04}")?;
    let capitals = format!(in alloc; "YEARLY REPORT {year:04}")?;
    let folder = folder_of(file);
    Ok([
        tree.child(folder, &name, steps),
        tree.child(folder, &capitals, steps),
    ])
}

// What a file's path leads to, and a longer one, which is no node's.
fn led<L: Ledger>(
    tree: &Tree,
    alloc: Global,
    file: u32,
    steps: &mut Steps<L>,
) -> Result<[Option<u32>; 2], Fail> {
    let (folder, year) = (folder_of(file), year_of(file));
    let path = read_path(
        alloc,
        &format!(in alloc; "d:\\folder {folder}\\yearly report {year:04}")?,
    )?;
    let longer = read_path(
        alloc,
        &format!(in alloc; "d:\\folder {folder}\\yearly report {year:04}0")?,
    )?;
    Ok([tree.resolve(&path, steps), tree.resolve(&longer, steps)])
}

// Whether a file's name and path lead to a node, or to none.
fn lead_to<L: Ledger>(
    tree: &Tree,
    alloc: Global,
    file: u32,
    node: Option<u32>,
    steps: &mut Steps<L>,
) -> Result<bool, Fail> {
    let named = named(tree, alloc, file, steps)? == [node, node];
    Ok(named && led(tree, alloc, file, steps)? == [node, None])
}

// Whether all files are found, or exactly those of even numbers.
fn are_found<L: Ledger>(
    tree: &Tree,
    alloc: Global,
    odd: bool,
    steps: &mut Steps<L>,
) -> Result<bool, Fail> {
    for file in FIRST..END {
        let there = odd || file % 2 == 0;
        if !lead_to(tree, alloc, file, there.then_some(file), steps)? {
            return Ok(false);
        }
    }
    Ok(true)
}

fn are_found_in_rows<L: Ledger>(
    alloc: Global,
    rows: &List<NodeRow>,
    steps: &mut Steps<L>,
) -> Result<bool, Fail> {
    let tree = Tree::from_rows(alloc, rows, SIZE)?;
    are_found(&tree, alloc, true, steps)
}

// Whether rows are bad with one more, which has the name of a file in another spelling.
fn are_bad_with(alloc: Global, rows: &mut List<NodeRow>, file: u32) -> Result<bool, Fail> {
    let year = year_of(file);
    let name = format!(in alloc; "Yearly Report {year:04}")?;
    rows.push(folder(alloc, END, folder_of(file), &name)?)?;
    Ok(is_bad(alloc, rows, SIZE))
}

fn files<L: Ledger>(
    tree: &mut Tree,
    alloc: Global,
    end: &impl Abort,
    steps: &mut Steps<L>,
) -> Result<(), Fail> {
    make_folders(tree, alloc, end, steps)?;
    make_files(tree, alloc, end, steps)?;
    assert!(end; are_found(tree, alloc, true, steps)?);
    let mut rows = tree.to_rows(alloc, steps)?;
    assert!(end; are_found_in_rows(alloc, &rows, steps)?);
    assert!(end; are_bad_with(alloc, &mut rows, LOST)?);
    tree.arrange();
    assert!(end; descend(tree, alloc, 7, 1_000, steps)?);
    remove_odd(tree, end, steps)?;
    assert!(end; are_found(tree, alloc, false, steps)?);
    assert!(end; descend(tree, alloc, 7, 500, steps)?);
    Ok(())
}

// A function that owns a tree is dear to prove by each of its statements, so this one has four.
fn new_trees<L: Ledger>(alloc: Global, end: &impl Abort, steps: &mut Steps<L>) -> Result<(), Fail> {
    let mut tree = Tree::reserve(alloc, SIZE)?;
    spellings(&mut tree, alloc, end, steps)?;
    let mut tree = Tree::reserve(alloc, SIZE)?;
    files(&mut tree, alloc, end, steps)
}

fn trees<N: Named>(rt: &HostRuntime, end: &impl Abort, blank: Blank) -> Result<(), Fail>
    requires name { blank.name ≡ N.name }
    requires parts { blank.parts ≡ N.parts }
    requires one { blank.parts ≡ 1 }
{
    let mut steps = Steps::new(rt, Weightless::<N>::of(blank));
    new_trees(rt.alloc(), end, &mut steps)
}

// Another spelling of a name is found, refused and listed as the name is; and with many names each leads to its node,
// though the index has been doubled and has lost some, in a tree of rows, too, and after half of them are gone.
#[test]
fn names_lead_to_their_nodes(rt: HostRuntime) -> Result<(), Fail> {
    trees::<Brand>(&rt, &rt, Blank::new(1))
}
