//! File groups: which names match a pattern, and the table of groups.

ghost use Rattle.std.specs.Prelude.{◌≡◌, ◌∷◌, [], IfOk};

use crate::values::one;
use file_groups::Groups;
use fsrm_model::{GroupRow, List, Text};
use name_patterns::Pattern;
use name_rules::NameFault;
use std::alloc::Global;
use std::test::Fail;

#[test]
fn names_match_a_pattern(rt: HostRuntime) -> Result<(), Fail> {
    let pattern = Pattern::read(rt.alloc(), "*ab*?D")?;
    assert!(rt; pattern.matches("xababéd"));
    assert!(rt; !pattern.matches("xabd"));
    Ok(())
}

#[test]
fn a_pattern_is_part_of_a_name(rt: HostRuntime) {
    let fault = Pattern::read(rt.alloc(), "..").err();
    assert!(rt; matches!(fault, Some(NameFault::InvalidName)));
}

fn patterns(alloc: Global, text: &str) -> Result<List<Pattern>, Fail>
    ensures { IfOk result (λ patterns. patterns ≡ text.now ∷ []) }
{
    one(alloc, Pattern::read(alloc, text)?)
}

fn office(alloc: Global) -> Result<Groups, Fail> {
    let mut groups = Groups::new(alloc);
    let members = patterns(alloc, "*.doc")?;
    let non_members = patterns(alloc, "~*")?;
    groups.add("Office", members, non_members, 13)?;
    Ok(groups)
}

fn in_office(groups: &Groups, name: &str) -> bool {
    match groups.find("OFFICE") {
        Some(group) => groups.in_group(group, name),
        None => false,
    }
}

fn leave_no_one_out(groups: &mut Groups, alloc: Global) -> bool {
    let none = List::new(alloc);
    match groups.find("office") {
        Some(group) => groups.modify(group, None, Some(&none), 0).is_ok(),
        None => false,
    }
}

#[test]
fn a_group_comes_and_changes(rt: HostRuntime) -> Result<(), Fail> {
    let mut groups = office(rt.alloc())?;
    assert!(rt; in_office(&groups, "a.DOC"));
    assert!(rt; !in_office(&groups, "~a.doc"));
    assert!(rt; leave_no_one_out(&mut groups, rt.alloc()));
    assert!(rt; in_office(&groups, "~a.doc"));
    Ok(())
}

fn late(alloc: Global) -> Result<Groups, Fail> {
    let mut groups = Groups::new(alloc);
    let row = GroupRow {
        number: 1_023,
        name: Text::from_str(alloc, "Late")?,
        members: one(alloc, Text::from_str(alloc, "*")?)?,
        non_members: List::new(alloc),
    };
    groups.put(row, 5)?;
    Ok(groups)
}

#[test]
fn a_stored_group_keeps_its_number(rt: HostRuntime) -> Result<(), Fail> {
    assert!(rt; late(rt.alloc())?.find("LATE") == Some(1_023));
    Ok(())
}
