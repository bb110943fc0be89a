//! The option of commands that take a path and nothing else.

ghost use Rattle.command_words.specs.Taking.{left, end};
ghost use Rattle.tool_commands.specs.PathOption.{ReadsPath};

use crate::keys;
use command_words::{LineFault, Words, read_options, required};
use fsrm_model::Path;
use std::alloc::Global;

/// The path that is all that a command takes, and that it must have.
pub fn path_alone(alloc: Global, words: &mut Words<'_>) -> Result<Path, LineFault>
    ensures { ReadsPath result (end words.old) (left words.old) }
{
    let path = read_options(alloc, keys::PATH, words)?;
    required(path, words)
}
