//! A node's path, as it is written.

ghost use Rattle.std.specs.Prelude.{◌≡◌, ◌+◌, ◌*◌, ◌≤◌, true, length, IfOk};
ghost use Rattle.fsrm_base.specs.Keyed.{has_row};
ghost use Rattle.fsrm_model.specs.texts.Text.{path_text};
ghost use Rattle.fsrm_model.specs.nodes.Tree.{number as key, path_of};

use crate::engine::Engine;
use fsrm_model::{Ledger, NoMemory, Steps, Text};
use fsrm_parts::{joined, named_nodes};
use std::alloc::Global;

impl Engine {
    /// A node's path: `D:\`, and the names from the root down to it, joined by `\`. It takes no more
    /// than 4 looks for the root and for each name.
    pub fn path_text<L: Ledger>(
        &self,
        alloc: Global,
        node: u32,
        steps: &mut Steps<L>,
    ) -> Result<Text, NoMemory>
        requires { has_row key node self.now.rows.nodes ≡ true }
        ensures text { IfOk result (λ text. text ≡ path_text self.now.rows.nodes node) }
        ensures looks { steps.new ≤ steps.old + 4 * (length (path_of self.now.rows.nodes node) + 1) }
    {
        let nodes = named_nodes(&self.parts.tree, alloc, node, steps)?;
        let text = joined(&self.parts.tree, alloc, &nodes, steps)?;
        Ok(Text::from_string(text))
    }
}
