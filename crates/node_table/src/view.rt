//! A node by its values, lent.

ghost use Rattle.std.specs.Prelude.{◌≡◌, IfOk};
ghost use Rattle.node_table.specs.Views.{seen};

use fsrm_base::{NoMemory, Text};
use fsrm_model::NodeRow;
use std::alloc::Global;

/// A node, lent.
#[derive(Clone, Copy)]
pub struct NodeView<'a> {
    /// The root's is 0.
    pub number: u32,
    /// The number of its folder. The root names itself.
    pub parent: u32,
    /// The root's is empty.
    pub name: &'a str,
    pub folder: bool,
    /// Bytes of a file, up to 17,592,185,978,880. A folder has 0.
    pub length: u64,
    /// At least 1.
    pub owner: u32,
    /// Seconds since 1970-01-01 00:00:00 UTC, as are the other moments, up to 4,102,444,799.
    pub created: u64,
    pub modified: u64,
    pub accessed: u64,
}

impl<'a> NodeView<'a> {
    /// What a row shows.
    pub fn of(row: &'a NodeRow) -> NodeView<'a>
        ensures { seen result ≡ row.now }
    {
        NodeView {
            number: row.number,
            parent: row.parent,
            name: row.name.as_str(),
            folder: row.folder,
            length: row.length,
            owner: row.owner,
            created: row.created,
            modified: row.modified,
            accessed: row.accessed,
        }
    }

    /// The row of the node, with a name of its own.
    pub fn to_row(&self, alloc: Global) -> Result<NodeRow, NoMemory>
        ensures { IfOk result (λ row. row ≡ seen self.now) }
    {
        let name = Text::from_str(alloc, self.name)?;
        Ok(NodeRow {
            number: self.number,
            parent: self.parent,
            name,
            folder: self.folder,
            length: self.length,
            owner: self.owner,
            created: self.created,
            modified: self.modified,
            accessed: self.accessed,
        })
    }
}
