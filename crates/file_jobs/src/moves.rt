//! Moves a file into a folder.

ghost use Rattle.std.specs.Prelude.{◌≡◌, ◌+◌, ◌*◌, ◌≤◌, ◌++◌, ◌∷◌, [], ℕ, true, length, IfOk, IfSome};
ghost use Rattle.std.specs.String.{string_bytes};
ghost use Rattle.fsrm_model.specs.commands.Cost.{path_cost};
ghost use Rattle.fsrm_model.specs.declared.command.Deed.TheVariants.{File};
ghost use Rattle.fsrm_model.specs.store.Valid.{is_moment, IsVolume};
ghost use Rattle.fsrm_model.specs.store.Valued.{is_command};
ghost use Rattle.fsrm_model.specs.nodes.Tree.{is_folder, path_of};
ghost use Rattle.file_jobs.specs.Moves.{is_file, move_of, moved_path, text_of};

use crate::paths::{joined, path_in};
use fsrm_engine::Engine;
use fsrm_model::{FileOp, Ledger, NoMemory, Steps};
use std::alloc::Global;

// The two paths have no more bytes than this together.
const MOST_BYTES: usize = 65_000;

// The text of the path of a file's name in a folder.
fn text_in<L: Ledger>(
    alloc: Global,
    engine: &Engine,
    folder: u32,
    name: &str,
    steps: &mut Steps<L>,
) -> Result<String, NoMemory>
    requires volume { IsVolume engine.now.size engine.now.rows.nodes }
    requires folder { is_folder engine.now.rows.nodes folder ≡ true }
    ensures text { IfOk result (λ text. string_bytes text ≡ text_of (path_of engine.now.rows.nodes folder ++ name.now ∷ [])) }
    ensures looks { steps.new ≤ steps.old + path_cost engine.now.rows.nodes folder }
{
    let path = engine.path_text(alloc, folder, steps)?;
    joined(alloc, path.as_str(), folder == 0, name)
}

/// The operation that moves a file into a folder, from its path to the folder's path and its name. None exactly if these two
/// paths have more than 65,000 bytes together. It takes no more than 4 looks for each name of the two paths, and 8 more.
pub fn move_of<L: Ledger>(
    alloc: Global,
    engine: &Engine,
    node: u32,
    to: u32,
    steps: &mut Steps<L>,
) -> Result<Option<FileOp>, NoMemory>
    requires file { is_file engine.now.rows.nodes node ≡ true }
    requires folder { is_folder engine.now.rows.nodes to ≡ true }
    ensures op { IfOk result (λ op. op ≡ move_of engine.now.rows.nodes node to) }
    // It may be taken at any moment.
    ensures valid { IfOk result (λ op. IfSome op (λ op. (moment : ℕ) → is_moment moment ≡ true → is_command (record { moment = moment; deed = File op }) ≡ true)) }
    ensures looks { steps.new ≤ steps.old + (path_cost engine.now.rows.nodes node + 4 * (length (moved_path engine.now.rows.nodes node to) + 1)) }
{
    let from = engine.path_text(alloc, node, steps)?;
    let name = engine.tree().node(node, steps).name;
    let moved = text_in(alloc, engine, to, name, steps)?;
    let (from, moved) = (from.as_str(), moved.as_str());
    if from.len().saturating_add(moved.len()) > MOST_BYTES {
        return Ok(None);
    }
    let from = path_in(alloc, from)?;
    let to = path_in(alloc, moved)?;
    Ok(Some(FileOp::Move { from, to }))
}
