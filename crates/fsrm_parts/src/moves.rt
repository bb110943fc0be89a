//! A node that moves: the template of which it gets a quota, and the bytes that move with it.

ghost use Rattle.std.specs.Prelude.{◌≡◌, ◌+◌, ◌*◌, ◌≤◌, true, length, IfOk, OnErr, Some};
ghost use Rattle.fsrm_base.specs.Keyed.{has_row};
ghost use Rattle.fsrm_model.specs.nodes.Tree.{number as key, is_folder, under};
ghost use Rattle.fsrm_model.specs.store.Valid.{IsVolume};
ghost use Rattle.fsrm_model.specs.store.Capacities.{is_capacity};
ghost use Rattle.fsrm_parts.specs.Moves.{AreMoved, IsSourceOfMove};

use crate::places::Place;
use crate::usage::usage_of;
use fsrm_model::{Ledger, NoMemory, Steps};
use fsrm_objects::Objects;
use std::alloc::Global;
use templates::Templates;
use volume_tree::Tree;

/// A node that moves, as it is before the move, and the place that it goes to.
#[derive(Clone, Copy)]
pub struct Moving<'a> {
    pub node: u32,
    pub parent: u32,
    pub owner: u32,
    pub folder: bool,
    pub place: Place<'a>,
}

/// The template of the quota that a node gets at its new place. A file gets none, and a folder that has one no other.
#[inline]
pub fn moved_source(templates: &Templates, objects: &Objects, moving: &Moving<'_>) -> Option<u32>
    ensures { IsSourceOfMove objects.now.quotas templates.now moving.now result }
{
    if !moving.folder {
        return None;
    }
    let source = templates.template_for(moving.place.folder, moving.place.name)?;
    if objects.quota(moving.node).is_some() {
        return None;
    }
    Some(source)
}

/// The bytes that move with a node. A file's are those that it takes. A folder's are added up, which takes memory;
/// they aren't if there is no quota and none comes. (If one comes and there is no other, nothing asks for them
/// either.)
pub fn moved_bytes<L: Ledger>(
    tree: &Tree,
    objects: &Objects,
    alloc: Global,
    moving: &Moving<'_>,
    source: Option<u32>,
    steps: &mut Steps<L>,
) -> Result<u64, NoMemory>
    requires volume { IsVolume tree.now.size tree.now.nodes }
    requires legal { is_capacity tree.now.size ≡ true }
    requires there { has_row key moving.now.node tree.now.nodes ≡ true }
    requires kind { is_folder tree.now.nodes moving.now.node ≡ moving.now.folder }
    ensures moved { IfOk result (λ bytes. AreMoved tree.now.size tree.now.nodes objects.now.quotas moving.now.node source bytes) }
    ensures memory { OnErr result (moving.now.folder ≡ true) }
    ensures looks { steps.new ≤ steps.old + 3 * length (under tree.now.nodes moving.now.node) }
{
    if !moving.folder {
        let file = tree.node(moving.node, steps);
        return Ok(tree.allocated(file.length));
    }
    if source.is_none() && objects.quota_count() == 0 {
        return Ok(0);
    }
    usage_of(tree, alloc, moving.node, steps)
}
