//! The parts of a path, which are to be names.

ghost use Rattle.std.specs.Prelude.{◌≡◌, ◌<◌, ◌≤◌, ◌==◌, ◌||◌, true, false, length, slice_index, IfSome, IfNone};
ghost use Rattle.std.specs.List.{list_all};
ghost use Rattle.fsrm_model.specs.values.Name.{is_name};
ghost use Rattle.fsrm_model.specs.meaning.PathNames.{parts_of};
ghost use Rattle.name_rules.specs.Parts.{IsFirstName};

use crate::name::{is_whole_name, name_len};

// Whether a text's first part ends after so many bytes, if it has no backslash among them.
fn is_end(text: &[u8], count: usize) -> bool
    requires { count ≤ length text.now }
    ensures { result ≡ (count == length text.now || slice_index text.now count == 92) }
{
    count == text.len() || text[count] == b'\\'
}

// How many bytes the name has that a text begins with. None if its first part isn't a name.
fn first_name_len(text: &[u8]) -> Option<usize>
    requires { 0 < length text.now }
    ensures name { IfSome result (λ count. IsFirstName text.now count) }
    ensures none { IfNone result (list_all is_name (parts_of text.now) ≡ false) }
{
    let count = name_len(text);
    if !is_end(text, count) {
        return None;
    }
    if !is_whole_name(&text[..count]) {
        return None;
    }
    Some(count)
}

/// How many parts the rest of a path has, if each one is a name.
pub fn count_names(rest: &[u8]) -> Option<usize>
    ensures count { IfSome result (λ count. count ≡ length (parts_of rest.now)) }
    ensures valid { IfSome result (λ count. list_all is_name (parts_of rest.now) ≡ true) }
    ensures invalid { IfNone result (list_all is_name (parts_of rest.now) ≡ false) }
{
    let mut count = 0;
    let mut start = 0;
    while start < rest.len() {
        let Some(length) = first_name_len(&rest[start..]) else {
            return None;
        };
        start += length + 1;
        count += 1;
    }
    Some(count)
}
