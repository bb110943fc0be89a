//! Rows of folders and files.

ghost use Rattle.std.specs.Prelude.{◌≡◌, ◌≤◌, true, length};
ghost use Rattle.record_fields.specs.Writers.{Writes};
ghost use Rattle.image_codec.specs.Nodes.{node_lent};
ghost use Rattle.image_codec.specs.Parts.{is_short};
ghost use Rattle.image_codec.specs.Rows.{node as node_format};

use crate::parts::{Part, put_name};
use fsrm_model::NodeRow;
use record_fields::{Field, FieldFault, Reader, TextField, TruthField, U32Field, U64Field};
use std::alloc::Global;

/// A folder or a file.
pub struct NodeField;

impl Field for NodeField {
    type Value = NodeRow;

    ghost format = { node_format };

    // Inlined into the loop over rows, so that a row's fields go from the bytes to their list.
    #[inline(always)]
    #[tactic(auto, unfolding(record_fields::specs::Formats::known_at))]
    fn read(alloc: Global, reader: &mut Reader<'_>) -> Result<NodeRow, FieldFault> {
        let number = reader.read_u32()?;
        let parent = reader.read_u32()?;
        let name = TextField::read(alloc, reader)?;
        let folder = reader.read_truth()?;
        let length = reader.read_u64()?;
        let owner = reader.read_u32()?;
        let created = reader.read_u64()?;
        let modified = reader.read_u64()?;
        let accessed = reader.read_u64()?;
        Ok(NodeRow {
            number,
            parent,
            name,
            folder,
            length,
            owner,
            created,
            modified,
            accessed,
        })
    }

    fn write(value: &NodeRow, into: &mut [u8], at: usize) -> usize {
        put_node(&lend_node(value), into, at)
    }
}

/// A folder or a file whose name is lent.
#[derive(Clone, Copy)]
pub struct NodeRef<'a> {
    pub number: u32,
    pub parent: u32,
    pub name: &'a str,
    pub folder: bool,
    pub length: u64,
    pub owner: u32,
    pub created: u64,
    pub modified: u64,
    pub accessed: u64,
}

fn lend_node(node: &NodeRow) -> NodeRef<'_>
    ensures { node_lent result ≡ node.now }
{
    NodeRef {
        number: node.number,
        parent: node.parent,
        name: node.name.as_str(),
        folder: node.folder,
        length: node.length,
        owner: node.owner,
        created: node.created,
        modified: node.modified,
        accessed: node.accessed,
    }
}

#[inline(always)]
pub fn put_node(node: &NodeRef<'_>, into: &mut [u8], at: usize) -> usize
    requires { at ≤ length into.old }
    ensures written { Writes into.old at into.new result (node_format.spell (node_lent node.now)) }
    ensures legal { is_short (node_lent node.now).name ≡ true → node_format.legal (node_lent node.now) ≡ true }
{
    let number_end = U32Field::put(&node.number, into, at);
    let parent_end = U32Field::put(&node.parent, into, number_end);
    let name_end = put_name(node.name, into, parent_end);
    let folder_end = TruthField::put(&node.folder, into, name_end);
    let length_end = U64Field::put(&node.length, into, folder_end);
    let owner_end = U32Field::put(&node.owner, into, length_end);
    let created_end = U64Field::put(&node.created, into, owner_end);
    let modified_end = U64Field::put(&node.modified, into, created_end);
    U64Field::put(&node.accessed, into, modified_end)
}
