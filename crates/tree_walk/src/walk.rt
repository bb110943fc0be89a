//! A walk over the nodes at and below a node.

ghost use Rattle.std.specs.Prelude.{◌≡◌, ◌+◌, ◌*◌, ◌≤◌, ◌++◌, [], ◌∷◌, true, length, IfOk, OnOk, IfSome, IfNone};
ghost use Rattle.fsrm_base.specs.Keyed.{has_row};
ghost use Rattle.fsrm_model.specs.values.Limits.{longest_file};
ghost use Rattle.fsrm_model.specs.nodes.Tree.{number as key};
ghost use Rattle.fsrm_model.specs.store.Valid.{IsVolume};
ghost use Rattle.node_table.specs.Views.{seen};
ghost use Rattle.tree_walk.specs.Walk.{AreOutside, AreThere, Takes, TakesOutside, inside, inside_if, left};

use fsrm_model::{Ledger, NoMemory, Steps};
use std::alloc::Global;
use std::marker::Model;
use volume_tree::{Children, Finger, NodeView, Siblings, Tree};

/// The nodes at and below a node, each lent once. Contracts see the numbers of those that wait: they, and what is below
/// them, are still to come.
#[derive(Drop)]
pub struct Walk {
    waiting: Vec<u32>,
    finger: Finger,
}

impl Model for Walk {
    ghost use Rattle.std.specs.Prelude.{ℕ, List};

    ghost Value = { List ℕ };

    ghost view = { λ w. w.waiting.items };
}

fn put_siblings(siblings: &Siblings<'_>, waiting: &mut Vec<u32>) -> Result<(), NoMemory>
    ensures { OnOk result (waiting.new.items ≡ waiting.old.items ++ siblings.now) }
{
    for place in 0..siblings.len() {
        waiting.push(siblings.number(place))?;
    }
    Ok(())
}

fn put_children<L: Ledger>(
    children: &mut Children<'_>,
    waiting: &mut Vec<u32>,
    steps: &mut Steps<L>,
) -> Result<(), NoMemory>
    ensures put { OnOk result (waiting.new.items ≡ waiting.old.items ++ children.old) }
    ensures count { OnOk result (steps.new ≡ steps.old + length children.old) }
    ensures looks { steps.new ≤ steps.old + length children.old }
{
    while let Some(siblings) = children.next(steps) {
        put_siblings(&siblings, waiting)?;
    }
    Ok(())
}

// Puts the children of a node to those that wait: a file has none. It takes a look for a folder, and one for each child.
fn put_inside<L: Ledger>(
    tree: &Tree,
    view: &NodeView<'_>,
    finger: &mut Finger,
    waiting: &mut Vec<u32>,
    steps: &mut Steps<L>,
) -> Result<(), NoMemory>
    ensures put { OnOk result (waiting.new.items ≡ waiting.old.items ++ inside_if view.now.folder tree.now.nodes view.now.number) }
    ensures count { OnOk result (steps.new ≤ steps.old + (1 + length (inside_if view.now.folder tree.now.nodes view.now.number))) }
    ensures looks { steps.new ≤ steps.old + (1 + length (inside tree.now.nodes view.now.number)) }
{
    if !view.folder {
        return Ok(());
    }
    let mut children = tree.children(view.number, finger, steps);
    put_children(&mut children, waiting, steps)
}

impl Walk {
    /// A walk that begins at a node.
    pub fn from(alloc: Global, node: u32) -> Result<Walk, NoMemory>
        ensures { IfOk result (λ walk. walk ≡ node ∷ []) }
    {
        let mut waiting = Vec::new(alloc);
        waiting.push(node)?;
        Ok(Walk {
            waiting,
            finger: Finger::default(),
        })
    }

    /// The next node. None exactly if none is left. It takes a look, for a folder one more, and one for each child.
    pub fn next<'t, L: Ledger>(
        &mut self,
        tree: &'t Tree,
        steps: &mut Steps<L>,
    ) -> Result<Option<NodeView<'t>>, NoMemory>
        requires volume { IsVolume tree.now.size tree.now.nodes }
        requires there { AreThere tree.now.nodes self.old }
        ensures taken { IfOk result (λ next. IfSome next (λ view. Takes tree.now.nodes self.old self.new (seen view))) }
        ensures short { IfOk result (λ next. IfSome next (λ view. view.length ≤ longest_file)) }
        ensures none { IfOk result (λ next. IfNone next (self.old ≡ [])) }
        ensures looks { OnOk result (steps.new + (length self.old + 3 * left tree.now.nodes self.new) ≤ steps.old + (length self.new + 3 * left tree.now.nodes self.old)) }
        ensures most { steps.new + length self.old ≤ steps.old + 3 * left tree.now.nodes self.old }
    {
        let Some(number) = self.waiting.pop() else {
            return Ok(None);
        };
        let view = tree.node(number, steps);
        put_inside(tree, &view, &mut self.finger, &mut self.waiting, steps)?;
        Ok(Some(view))
    }

    /// The next node, as `next` lends it, but of the closed folder nothing comes but the folder itself. No node waits that
    /// is below it.
    pub fn next_outside<'t, L: Ledger>(
        &mut self,
        tree: &'t Tree,
        closed: u32,
        steps: &mut Steps<L>,
    ) -> Result<Option<NodeView<'t>>, NoMemory>
        requires volume { IsVolume tree.now.size tree.now.nodes }
        requires there { AreThere tree.now.nodes self.old }
        requires outside { AreOutside tree.now.nodes closed self.old }
        ensures taken { IfOk result (λ next. IfSome next (λ view. TakesOutside tree.now.nodes closed self.old self.new (seen view))) }
        ensures none { IfOk result (λ next. IfNone next (self.old ≡ [])) }
        ensures looks { OnOk result (steps.new + (length self.old + 3 * left tree.now.nodes self.new) ≤ steps.old + (length self.new + 3 * left tree.now.nodes self.old)) }
        ensures most { steps.new + length self.old ≤ steps.old + 3 * left tree.now.nodes self.old }
    {
        let Some(number) = self.waiting.pop() else {
            return Ok(None);
        };
        let view = tree.node(number, steps);
        if number == closed {
            return Ok(Some(view));
        }
        put_inside(tree, &view, &mut self.finger, &mut self.waiting, steps)?;
        Ok(Some(view))
    }
}
