//! The simplest tree: a list of nodes, each of which is asked, one after the other. What a `Tree` answers is compared
//! with what this one does.

use fsrm_model::{Capacity, NodeRow};
use name_rules::{fold_cmp, same_name};
use std::alloc::{AllocError, Global};
use volume_tree::TreeFault;

/// A change of a tree.
#[derive(Clone, Copy)]
pub enum Change {
    Folder {
        folder: u32,
        name: &'static str,
    },
    File {
        folder: u32,
        name: &'static str,
        length: u32,
    },
    Resize {
        node: u32,
        length: u32,
    },
    Touch {
        node: u32,
    },
    Move {
        node: u32,
        folder: u32,
        name: &'static str,
    },
    Remove {
        node: u32,
    },
}

// A node. Its owner is 1.
#[derive(Clone, Copy)]
struct PlainNode {
    parent: u32,
    name: &'static str,
    folder: bool,
    length: u64,
    created: u64,
    modified: u64,
    accessed: u64,
}

impl PlainNode {
    fn new(parent: u32, name: &'static str, length: Option<u32>, moment: u64) -> PlainNode {
        PlainNode {
            parent,
            name,
            folder: length.is_none(),
            length: u64::from(length.unwrap_or(0)),
            created: moment,
            modified: moment,
            accessed: moment,
        }
    }

    fn has_place(&self, row: &NodeRow) -> bool {
        self.parent == row.parent && self.name == row.name.as_str() && self.folder == row.folder
    }

    fn has_moments(&self, row: &NodeRow) -> bool {
        let is_made = self.created == row.created && row.owner == 1;
        is_made && self.modified == row.modified && self.accessed == row.accessed
    }

    fn is(&self, row: &NodeRow) -> bool {
        self.has_place(row) && self.length == row.length && self.has_moments(row)
    }
}

/// The nodes of a volume, each at the place of its number.
#[derive(Drop)]
pub struct PlainTree {
    size: Capacity,
    nodes: Vec<Option<PlainNode>>,
}

// What it is asked.
impl PlainTree {
    /// The root alone.
    pub fn new(alloc: Global, size: Capacity) -> Result<PlainTree, AllocError> {
        let mut nodes = Vec::new(alloc);
        nodes.resize(size.nodes as usize, None)?;
        let mut tree = PlainTree { size, nodes };
        tree.put(0, Some(PlainNode::new(0, "", None, 0)));
        Ok(tree)
    }

    fn get(&self, number: u32) -> Option<PlainNode> {
        self.nodes.get(number as usize).copied().flatten()
    }

    fn name(&self, number: u32) -> &'static str {
        self.get(number).map_or("", |node| node.name)
    }

    fn parent(&self, number: u32) -> u32 {
        self.get(number).map_or(0, |node| node.parent)
    }

    /// Whether there is a folder of this number.
    pub fn is_folder(&self, number: u32) -> bool {
        self.get(number).is_some_and(|node| node.folder)
    }

    /// The first folder from a number on, or else the root.
    pub fn folder_from(&self, number: u32) -> u32 {
        (number..self.size.nodes)
            .find(|number| self.is_folder(*number))
            .unwrap_or(0)
    }

    /// The first node from a number on, or else the root.
    pub fn node_from(&self, number: u32) -> u32 {
        (number..self.size.nodes)
            .find(|number| self.get(*number).is_some())
            .unwrap_or(0)
    }

    fn count(&self) -> usize {
        self.nodes.iter().filter(|node| node.is_some()).count()
    }

    fn name_bytes(&self) -> usize {
        let mut bytes = 0_usize;
        for node in self.nodes.iter().flatten() {
            bytes = bytes.saturating_add(node.name.len());
        }
        bytes
    }

    // The least number that is free.
    fn fresh(&self) -> Option<u32> {
        (0..self.size.nodes).find(|number| self.get(*number).is_none())
    }

    fn is_in(&self, number: u32, folder: u32) -> bool {
        number != 0 && self.get(number).is_some_and(|node| node.parent == folder)
    }

    /// The child of a name in a folder.
    pub fn child(&self, folder: u32, name: &str) -> Option<u32> {
        (0..self.size.nodes).find(|number| self.is_in(*number, folder)
            && same_name(self.name(*number), name))
    }

    /// How many children a folder has.
    pub fn child_count(&self, folder: u32) -> usize {
        (0..self.size.nodes)
            .filter(|number| self.is_in(*number, folder))
            .count()
    }

    // How many children of a folder have names that come before this one.
    fn count_before(&self, folder: u32, name: &str) -> usize {
        (0..self.size.nodes)
            .filter(|number| self.is_in(*number, folder)
                && fold_cmp(self.name(*number), name).is_lt())
            .count()
    }

    /// The child at a place in the order of the folded names.
    pub fn child_at(&self, folder: u32, place: u32) -> Option<u32> {
        (0..self.size.nodes).find(|number| self.is_in(*number, folder)
            && self.count_before(folder, self.name(*number)) == place as usize)
    }

    // Goes up from a node for as long as any way may be.
    fn is_at_or_below(&self, top: u32, number: u32) -> bool {
        let mut at = number;
        for _ in 0..self.size.nodes {
            if at == top {
                return true;
            }
            at = self.parent(at);
        }
        false
    }

    /// Whether these are all children of a folder, in the order of their folded names.
    pub fn are_children(&self, folder: u32, numbers: &[u32]) -> bool {
        numbers.len() == self.child_count(folder)
            && numbers.iter().all(|number| self.is_in(*number, folder))
            && numbers.is_sorted_by(|one, next| fold_cmp(self.name(*one), self.name(*next)).is_lt())
    }

    /// Whether these are all nodes, ascending by number.
    pub fn are_all(&self, rows: &[NodeRow]) -> bool {
        rows.len() == self.count()
            && rows.iter().all(|row| self.get(row.number).is_some_and(|node| node.is(row)))
            && rows.is_sorted_by(|one, next| one.number < next.number)
    }
}

// How it is changed.
impl PlainTree {
    fn put(&mut self, number: u32, node: Option<PlainNode>) {
        if let Some(place) = self.nodes.get_mut(number as usize) {
            *place = node;
        }
    }

    // Whether so many bytes of names are too many, less those of a node.
    fn is_full(&self, name: &str, old: &str) -> bool {
        self.name_bytes().saturating_add(name.len())
            > (self.size.names as usize).saturating_add(old.len())
    }

    fn make(&mut self, node: PlainNode) -> Result<u32, TreeFault> {
        if self.child(node.parent, node.name).is_some() {
            return Err(TreeFault::AlreadyExists);
        }
        let Some(number) = self.fresh() else {
            return Err(TreeFault::VolumeFull);
        };
        if self.is_full(node.name, "") {
            return Err(TreeFault::NamesFull);
        }
        self.put(number, Some(node));
        Ok(number)
    }

    fn move_node(
        &mut self,
        number: u32,
        folder: u32,
        name: &'static str,
    ) -> Result<u32, TreeFault> {
        if self.is_at_or_below(number, folder) {
            return Err(TreeFault::InvalidMove);
        }
        if self
            .child(folder, name)
            .is_some_and(|other| other != number)
        {
            return Err(TreeFault::AlreadyExists);
        }
        if self.is_full(name, self.name(number)) {
            return Err(TreeFault::NamesFull);
        }
        let moved = self.get(number).map(|node| PlainNode {
            parent: folder,
            name,
            ..node
        });
        self.put(number, moved);
        Ok(number)
    }

    fn remove(&mut self, number: u32) -> Result<u32, TreeFault> {
        if self.child_count(number) > 0 {
            return Err(TreeFault::NotEmpty);
        }
        self.put(number, None);
        Ok(number)
    }

    fn resize(&mut self, number: u32, length: u32, moment: u64) {
        let resized = self.get(number).map(|node| PlainNode {
            length: u64::from(length),
            modified: moment,
            ..node
        });
        self.put(number, resized);
    }

    fn touch(&mut self, number: u32, moment: u64) {
        let touched = self.get(number).map(|node| PlainNode {
            accessed: moment,
            ..node
        });
        self.put(number, touched);
    }

    /// Makes a change, and answers the number of the node that it made or changed.
    pub fn change(&mut self, change: Change, moment: u64) -> Result<u32, TreeFault> {
        match change {
            Change::Folder { folder, name } => {
                return self.make(PlainNode::new(folder, name, None, moment));
            }
            Change::File {
                folder,
                name,
                length,
            } => {
                return self.make(PlainNode::new(folder, name, Some(length), moment));
            }
            Change::Resize { node, length } => self.resize(node, length, moment),
            Change::Touch { node } => self.touch(node, moment),
            Change::Move { node, folder, name } => return self.move_node(node, folder, name),
            Change::Remove { node } => return self.remove(node),
        }
        Ok(0)
    }
}
