//! A node's path, as it is written.

ghost use Rattle.std.specs.Prelude.{◌≡◌, ◌+◌, ◌*◌, ◌≤◌, ◌++◌, ◌∷◌, [], true, length, map, reverse, codes, IfOk};
ghost use Rattle.std.specs.List.{join_with_byte};
ghost use Rattle.std.specs.String.{string_bytes};
ghost use Rattle.fsrm_base.specs.Keyed.{has_row};
ghost use Rattle.fsrm_model.specs.nodes.Tree.{number as key, name_of, chain, path_of};
ghost use Rattle.fsrm_model.specs.store.Valid.{IsVolume};
ghost use Rattle.fsrm_parts.specs.Walk.{AreThere};

use fsrm_model::{Ledger, NoMemory, Steps};
use std::alloc::Global;
use volume_tree::Tree;

// Most paths have no more bytes than this.
const USUAL_PATH: usize = 128;

/// The nodes on the way up from a node that have a name: all but the root. It takes a look for each, and one for the
/// root.
pub fn named_nodes<L: Ledger>(
    tree: &Tree,
    alloc: Global,
    node: u32,
    steps: &mut Steps<L>,
) -> Result<Vec<u32>, NoMemory>
    requires volume { IsVolume tree.now.size tree.now.nodes }
    requires there { has_row key node tree.now.nodes ≡ true }
    ensures there { IfOk result (λ nodes. AreThere tree.now.nodes nodes.items) }
    ensures way { IfOk result (λ nodes. chain tree.now.nodes node ≡ nodes.items ++ 0 ∷ []) }
    ensures looks { steps.new ≤ steps.old + (length (path_of tree.now.nodes node) + 1) }
{
    let mut nodes = Vec::new(alloc);
    let mut way = tree.way_up(node);
    while let Some(at) = way.next(steps) {
        if at == 0 {
            continue;
        }
        nodes.push(at)?;
    }
    Ok(nodes)
}

// A text that begins so, with room for most paths.
fn begun(alloc: Global, start: &str) -> Result<String, NoMemory>
    ensures { IfOk result (λ text. string_bytes text ≡ start.now) }
{
    let mut text = String::with_capacity(alloc, USUAL_PATH)?;
    text.push_str(start)?;
    Ok(text)
}

/// The text of the path whose nodes these are, from the last one to the first.
pub fn joined<L: Ledger>(
    tree: &Tree,
    alloc: Global,
    way: &[u32],
    steps: &mut Steps<L>,
) -> Result<String, NoMemory>
    requires volume { IsVolume tree.now.size tree.now.nodes }
    requires there { AreThere tree.now.nodes way.now }
    ensures text { IfOk result (λ text. string_bytes text ≡ codes "D:\\" ++ join_with_byte 92 (map (name_of tree.now.nodes) (reverse way.now))) }
    ensures looks { steps.new ≤ steps.old + length way.now }
{
    // Each name stands after a `\`, and the root has the `\` alone.
    let mut text = begun(alloc, if way.is_empty() { "D:\\" } else { "D:" })?;
    for node in way.iter().rev() {
        text.push('\\')?;
        text.push_str(tree.node(*node, steps).name)?;
    }
    Ok(text)
}
