//! Which owners and names are asked for.

ghost use Rattle.std.specs.Prelude.{◌≡◌, true, IfOk};
ghost use Rattle.std.specs.Option.{option_map_or};
ghost use Rattle.fsrm_model.specs.values.Patterns.{is_pattern};
ghost use Rattle.node_table.specs.Views.{seen};
ghost use Rattle.storage_reports.specs.Files.{is_asked, passes_owner, passes_pattern_of};

use fsrm_model::{Filter, NoMemory, Text};
use name_patterns::Pattern;
use name_rules::NameFault;
use std::alloc::Global;
use volume_tree::NodeView;

/// The pattern that is asked for, if one is.
pub fn pattern_in(alloc: Global, text: &Option<Text>) -> Result<Option<Pattern>, NoMemory>
    requires { option_map_or is_pattern text.now true ≡ true }
    ensures { IfOk result (λ pattern. pattern ≡ text.now) }
{
    let Some(text) = text else {
        return Ok(None);
    };
    match Pattern::read(alloc, text.as_str()) {
        Ok(pattern) => Ok(Some(pattern)),
        Err(NameFault::InvalidName | NameFault::NoMemory) => Err(NoMemory),
    }
}

/// Whether an owner is one that is asked for.
pub fn passes_owner(asked: &Filter, owner: u32) -> bool
    ensures { result ≡ passes_owner asked.now owner }
{
    match asked.owner {
        Some(wanted) => wanted == owner,
        None => true,
    }
}

/// Whether a name is one that is asked for.
pub fn passes_pattern(pattern: &Option<Pattern>, name: &str) -> bool
    ensures { result ≡ passes_pattern_of pattern.now name.now }
{
    match pattern {
        Some(pattern) => pattern.matches(name),
        None => true,
    }
}

/// Whether a node is a file that is asked for.
pub fn is_asked(asked: &Filter, pattern: &Option<Pattern>, node: &NodeView<'_>) -> bool
    requires { pattern.now ≡ asked.now.pattern }
    ensures { result ≡ is_asked asked.now (seen node.now) }
{
    !node.folder && passes_owner(asked, node.owner) && passes_pattern(pattern, node.name)
}
