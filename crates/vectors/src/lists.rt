//! Long lists in blocks.

use block_list::BlockList;
use std::alloc::Global;
use std::test::Fail;

#[test]
fn an_item_is_put_between(rt: HostRuntime) -> Result<(), Fail> {
    let mut list = BlockList::reserve(rt.alloc(), 4)?;
    list.extend_from_slice(&[10u32, 30, 40]);
    let place = list.place_of(1);
    list.insert(place, 20);
    let place = list.place_of(1);
    assert!(rt; list.rest(place) == [20u32, 30, 40].as_slice());
    Ok(())
}

#[test]
fn an_item_is_replaced(rt: HostRuntime) -> Result<(), Fail> {
    let mut list = BlockList::reserve(rt.alloc(), 4)?;
    list.extend_from_slice(&[10u32, 30, 40]);
    let place = list.place_of(2);
    list.replace(place, 50);
    let place = list.place_of(2);
    assert!(rt; list.get(place) == 50);
    Ok(())
}

// How many runs 600 entries make, and how many are left after all are removed.
fn runs(alloc: Global) -> Result<(usize, usize), Fail> {
    let mut list = BlockList::reserve(alloc, 600)?;
    for key in 0..600u32 {
        if !list.is_full() {
            let end = list.end();
            list.insert(end, key);
        }
    }
    let most = list.run_count();
    for _ in 0..600u32 {
        if !list.is_empty() {
            let place = list.place_of(0);
            list.remove(place);
        }
    }
    Ok((most, list.run_count()))
}

#[test]
fn runs_are_divided_and_joined(rt: HostRuntime) -> Result<(), Fail> {
    assert!(rt; runs(rt.alloc())? == (5, 0));
    Ok(())
}
