//! Paths of their texts.

ghost use Rattle.std.specs.Prelude.{◌≡◌, ◌++◌, ◌∷◌, [], ℕ, List, true, length, ◌==◌, IfOk};
ghost use Rattle.std.specs.List.{list_all};
ghost use Rattle.std.specs.String.{string_bytes};
ghost use Rattle.fsrm_model.specs.values.Name.{is_name};
ghost use Rattle.file_jobs.specs.Moves.{text_of};

use fsrm_model::{NoMemory, Path};
use name_rules::read_path;
use std::alloc::Global;

/// The path of names that has this text.
pub fn path_in(alloc: Global, text: &str) -> Result<Path, NoMemory>
    ensures { IfOk result (λ path. (names : List (List ℕ)) → list_all is_name names ≡ true → text.now ≡ text_of names → path ≡ names) }
{
    match read_path(alloc, text) {
        Ok(path) => Ok(path),
        // The text of a path is refused only if memory runs out.
        Err(_fault) => Err(NoMemory),
    }
}

/// The text of the path of a name in a folder, by the folder's path, which may be the root's.
pub fn joined(alloc: Global, folder: &str, is_root: bool, name: &str) -> Result<String, NoMemory>
    ensures { IfOk result (λ text. (names : List (List ℕ)) → folder.now ≡ text_of names → is_root ≡ (length names == 0) → string_bytes text ≡ text_of (names ++ name.now ∷ [])) }
{
    let mut text = String::from_str(alloc, folder)?;
    // The root's path ends with a backslash.
    if !is_root {
        text.push('\\')?;
    }
    text.push_str(name)?;
    Ok(text)
}
