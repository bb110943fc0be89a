//! A row in 32 bytes.

ghost use Rattle.std.specs.Prelude.{◌≡◌, ℕ, ◌^◌, ◌<◌, ◌≤◌, false, List, Some};
ghost use Rattle.fsrm_model.specs.nodes.FileOps.{placed, resized, touched};
ghost use Rattle.fsrm_model.specs.values.Limits.{latest_moment, longest_file};
ghost use Rattle.node_table.specs.Rows.{IsMarked, empty_row, is_empty, is_folder, key_of, length_of, row_in};
ghost use Rattle.node_table.specs.Views.{IsInRange, seen};

use crate::view::NodeView;

// The longest file's length takes 44 bits, so the two bits above a length are free to say more.

// The row is a folder's.
const FOLDER: u64 = 1 << 63;

// The slot is empty.
const EMPTY: u64 = 1 << 62;

// The bits of a length.
const LENGTH: u64 = EMPTY - 1;

/// What a slot holds: the row of a node, but for its number, which is the slot's, and its name, of which it has the
/// key; or nothing.
#[derive(Clone, Copy)]
pub struct Row {
    // The length, and the two bits above it.
    pub size: u64,
    pub parent: u32,
    /// The key of its name.
    pub name: u32,
    pub owner: u32,
    // Moments end in the year 2099, below 2^32 seconds.
    pub created: u32,
    pub modified: u32,
    pub accessed: u32,
}

// A length, marked if it is a folder's.
fn marked(length: u64, folder: bool) -> u64
    requires { length < 2 ^ 62 }
    ensures { IsMarked result length folder }
{
    if folder { FOLDER | length } else { length }
}

impl Row {
    /// The row of an empty slot.
    pub fn empty() -> Row
        ensures { result ≡ empty_row }
    {
        Row {
            size: EMPTY,
            parent: 0,
            name: 0,
            owner: 0,
            created: 0,
            modified: 0,
            accessed: 0,
        }
    }

    /// The row of a node whose name has this key.
    pub fn of(node: &NodeView<'_>, name: u32) -> Row
        requires { IsInRange (seen node.now) }
        ensures key { key_of result ≡ Some name }
        ensures row { row_in node.now.number result node.now.name.now ≡ seen node.now }
    {
        Row {
            size: marked(node.length, node.folder),
            parent: node.parent,
            name,
            owner: node.owner,
            created: node.created as u32,
            modified: node.modified as u32,
            accessed: node.accessed as u32,
        }
    }

    /// Whether the slot is empty.
    pub fn is_empty(&self) -> bool
        ensures { result ≡ is_empty self.now }
    {
        self.size & EMPTY != 0
    }

    /// Whether it is a folder's row.
    pub fn is_folder(&self) -> bool
        ensures { result ≡ is_folder self.now }
    {
        self.size & FOLDER != 0
    }

    /// The length.
    pub fn length(&self) -> u64
        ensures { result ≡ length_of self.now }
    {
        self.size & LENGTH
    }

    /// The row as that of a node of this number and name.
    pub fn view<'a>(&self, number: u32, name: &'a str) -> NodeView<'a>
        ensures { seen result ≡ row_in number self.now name.now }
    {
        NodeView {
            number,
            parent: self.parent,
            name,
            folder: self.is_folder(),
            length: self.length(),
            owner: self.owner,
            created: self.created as u64,
            modified: self.modified as u64,
            accessed: self.accessed as u64,
        }
    }

    /// The row with another length, modified at a moment.
    pub fn resized(self, length: u64, moment: u64) -> Row
        requires taken { is_empty self ≡ false }
        requires length { length ≤ longest_file }
        requires moment { moment ≤ latest_moment }
        ensures key { key_of result ≡ key_of self }
        ensures row { (n : ℕ) (name : List ℕ) → row_in n result name ≡ resized length moment (row_in n self name) }
    {
        Row {
            size: marked(length, self.is_folder()),
            modified: moment as u32,
            ..self
        }
    }

    /// The row, accessed at a moment.
    pub fn touched(self, moment: u64) -> Row
        requires { moment ≤ latest_moment }
        ensures key { key_of result ≡ key_of self }
        ensures row { (n : ℕ) (name : List ℕ) → row_in n result name ≡ touched moment (row_in n self name) }
    {
        Row {
            accessed: moment as u32,
            ..self
        }
    }

    /// The row in another folder, with another key.
    pub fn placed(self, folder: u32, name: u32) -> Row
        requires { is_empty self ≡ false }
        ensures key { key_of result ≡ Some name }
        ensures row { (n : ℕ) (old new : List ℕ) → row_in n result new ≡ placed folder new (row_in n self old) }
    {
        Row {
            parent: folder,
            name,
            ..self
        }
    }
}
