//! Names and paths: their order, which no reply shows.

use fsrm_model::{Duplicate, Path};
use name_rules::{Name, fold_cmp, read_path};
use std::cmp::Ordering;
use std::test::Fail;

#[test]
fn a_name_is_read(rt: HostRuntime) -> Result<(), Fail> {
    let name = Name::read(rt.alloc(), "文件.txt")?;
    assert!(rt; name.as_str() == "文件.txt");
    Ok(())
}

fn has_names(path: &Path) -> bool {
    if path.depth() != 2 {
        return false;
    }
    let mut names = path.names();
    names.next() == Some("a") && names.next() == Some("b c") && names.next().is_none()
}

#[test]
fn a_path_is_copied(rt: HostRuntime) -> Result<(), Fail> {
    let copy = read_path(rt.alloc(), "d:\\a\\b c\\")?.copy(rt.alloc())?;
    assert!(rt; has_names(&copy));
    Ok(())
}

fn stands_before(lesser: &str, greater: &str) -> bool {
    fold_cmp(lesser, greater) == Ordering::Less && fold_cmp(greater, lesser) == Ordering::Greater
}

// `_` stands between the capitals and the small letters of ASCII, and U+FF5E is a number below U+10428, though not in
// UTF-16.
#[test]
fn names_are_ordered_by_folded_characters(rt: HostRuntime) {
    for (lesser, greater) in [
        ("", "a"),
        ("a", "A0"),
        ("A", "b"),
        ("a", "B"),
        ("_", "A"),
        ("Z", "é"),
        ("\u{ff5e}", "\u{10400}"),
        ("\u{212a}", "L"),
        ("report", "report\u{301}"),
        ("report 1 é", "report 2 É"),
    ] {
        assert!(rt; stands_before(lesser, greater));
    }
}
