//! Paths of the volume `D:`.

ghost use Rattle.std.specs.Prelude.{◌≡◌, true, false, drop, Ok, Err, IfOk, IfErr, MatchOption};
ghost use Rattle.std.specs.List.{list_all};
ghost use Rattle.fsrm_model.specs.values.Name.{is_name};
ghost use Rattle.fsrm_model.specs.lines.Reading.{path_from, is_on_volume};
ghost use Rattle.fsrm_model.specs.meaning.PathNames.{parts_of};
ghost use Rattle.name_rules.specs.Parts.{has_no_empty_part};
ghost use Rattle.name_rules.specs.PathFaults.{IsFault};

use crate::name::NameFault;
use crate::parts::count_names;
use fsrm_model::Path;
use std::alloc::Global;

/// Why a text is read as no path.
#[derive(Clone, Copy, Debug, PartialEq, Eq)]
pub enum PathFault {
    /// It doesn't begin with `D:\` or `d:\`, or has an empty part.
    InvalidPath,
    /// Its form is that of a path, but a part isn't a name.
    InvalidName,
    /// Memory ran out.
    NoMemory,
}

/// The path that a text is: `D:\` or `d:\`, and names joined by `\`; one more `\` may stand after the last name.
pub fn read_path(alloc: Global, text: &str) -> Result<Path, PathFault>
    ensures path { IfOk result (λ path. path_from text.now ≡ Ok path) }
    ensures fault { IfErr result (λ fault. IsFault fault (path_from text.now)) }
{
    let Some(rest) = after_volume(text) else {
        return Err(PathFault::InvalidPath);
    };
    match read_names(alloc, rest) {
        Ok(path) => Ok(path),
        // An empty part is no name either, so the form is looked at only here.
        Err(NameFault::InvalidName) if has_no_empty_part(rest) => Err(PathFault::InvalidName),
        Err(NameFault::InvalidName) => Err(PathFault::InvalidPath),
        Err(NameFault::NoMemory) => Err(PathFault::NoMemory),
    }
}

// What stands after `D:\` or `d:\`.
fn after_volume(text: &str) -> Option<&str>
    ensures { MatchOption result (is_on_volume text.now ≡ false)
        (λ rest. (is_on_volume text.now ≡ true) × (rest.now ≡ drop 3 text.now)) }
{
    match text.strip_prefix("D:\\") {
        Some(rest) => Some(rest),
        None => text.strip_prefix("d:\\"),
    }
}

// The path of the parts of the rest of a path, if each one is a name.
fn read_names(alloc: Global, rest: &str) -> Result<Path, NameFault>
    ensures names { IfOk result (λ path. path ≡ parts_of rest.now) }
    ensures valid { IfOk result (λ path. list_all is_name path ≡ true) }
    ensures invalid { result ≡ Err NameFault.InvalidName → list_all is_name (parts_of rest.now) ≡ false }
{
    let Some(depth) = count_names(rest.as_bytes()) else {
        return Err(NameFault::InvalidName);
    };
    let text = String::from_str(alloc, rest)?;
    Ok(Path::from_joined(text, depth))
}

fn has_no_empty_part(rest: &str) -> bool
    ensures { result ≡ has_no_empty_part rest.now }
{
    rest.split_terminator('\\').all(|part| !part.is_empty())
}
