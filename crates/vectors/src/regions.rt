//! Regions of names, and sets of numbers.

use name_region::{Region, RegionFault};
use number_set::NumberSet;
use std::alloc::Global;
use std::test::Fail;

fn holds(region: &Region, key: u32, text: &str) -> bool {
    region.live(key) && region.get(key) == text
}

// Whether the keys are at an end after the bytes are.
fn refuses(region: &mut Region) -> Result<bool, RegionFault> {
    region.store("abcd")?;
    region.store("efgh")?;
    let is_full = region.store("x") == Err(RegionFault::Full);
    region.store("")?;
    Ok(is_full && region.store("") == Err(RegionFault::NoKey))
}

#[test]
fn a_full_region_refuses(rt: HostRuntime) -> Result<(), Fail> {
    let mut region = Region::reserve(rt.alloc(), 8, 3)?;
    assert!(rt; refuses(&mut region)?);
    Ok(())
}

fn give_back(region: &mut Region, key: u32) {
    if region.live(key) {
        region.release(key);
    }
}

fn wins_back(region: &mut Region) -> Result<bool, RegionFault> {
    let first = region.store("ab")?;
    let second = region.store("cé")?;
    let third = region.store("fgh")?;
    give_back(region, first);
    give_back(region, third);
    let whole = region.store("12345")?;
    Ok(holds(region, whole, "12345") && holds(region, second, "cé"))
}

#[test]
fn bytes_are_won_back_from_two_holes(rt: HostRuntime) -> Result<(), Fail> {
    let mut region = Region::reserve(rt.alloc(), 8, 4)?;
    assert!(rt; wins_back(&mut region)?);
    Ok(())
}

// Whether a text that goes makes room for two others, the second of which fits only beside what is left of all texts;
// and then for no bytes and the last key.
fn takes_two_for_one(region: &mut Region) -> Result<bool, RegionFault> {
    let goes = region.store("abc")?;
    let stays = region.store("defg")?;
    let is_full = region.store("hi") == Err(RegionFault::Full);
    give_back(region, goes);
    let next = region.store("hi")?;
    let last = region.store("jk")?;
    let is_kept = holds(region, stays, "defg") && holds(region, next, "hi");
    region.store("")?;
    let is_at_end = region.store("") == Err(RegionFault::NoKey);
    Ok(is_full && is_kept && is_at_end && holds(region, last, "jk"))
}

#[test]
fn one_text_makes_room_for_two(rt: HostRuntime) -> Result<(), Fail> {
    let mut region = Region::reserve(rt.alloc(), 8, 4)?;
    assert!(rt; takes_two_for_one(&mut region)?);
    Ok(())
}

// The texts are gathered a dozen times.
fn keeps_what_stays(region: &mut Region) -> Result<bool, RegionFault> {
    let stays = region.store("stays")?;
    for _ in 0..200_000 {
        let key = region.store("name")?;
        give_back(region, key);
    }
    Ok(holds(region, stays, "stays"))
}

#[test]
fn many_texts_come_and_go(rt: HostRuntime) -> Result<(), Fail> {
    let mut region = Region::reserve(rt.alloc(), 1_000, 1_000_000)?;
    assert!(rt; keeps_what_stays(&mut region)?);
    Ok(())
}

// As many names of 255 bytes as a region of some 16 MiB has bytes for.
const MANY: u32 = 65_536;

// How many are stored in all.
const ALL: u32 = 400_000;

// A name of 255 bytes.
fn long_name(alloc: Global, number: u32) -> Result<String, Fail> {
    Ok(format!(in alloc; "{number:0>255}")?)
}

fn fill(region: &mut Region, alloc: Global) -> Result<Vec<u32>, Fail> {
    let mut keys = Vec::new(alloc);
    for number in 0..MANY {
        let name = long_name(alloc, number)?;
        keys.push(region.store(&name)?)?;
    }
    Ok(keys)
}

// Whether a name is refused until the one of this key goes. The key becomes its own.
fn replaces(region: &mut Region, name: &str, key: &mut u32) -> Result<bool, RegionFault> {
    let is_full = region.store(name) == Err(RegionFault::Full);
    give_back(region, *key);
    *key = region.store(name)?;
    Ok(is_full)
}

// Whether each name takes the place of the oldest one. All others have to slide down for its bytes, some forty times.
fn are_replaced(region: &mut Region, alloc: Global, keys: &mut [u32]) -> Result<bool, Fail> {
    for number in MANY..ALL {
        let name = long_name(alloc, number)?;
        let Some(key) = keys.get_mut((number % MANY) as usize) else {
            return Ok(false);
        };
        if !replaces(region, &name, key)? {
            return Ok(false);
        }
    }
    Ok(true)
}

fn are_kept(region: &Region, alloc: Global, keys: &[u32]) -> Result<bool, Fail> {
    for number in ALL - MANY..ALL {
        let name = long_name(alloc, number)?;
        let key = keys.get((number % MANY) as usize).copied();
        if !key.is_some_and(|key| holds(region, key, &name)) {
            return Ok(false);
        }
    }
    Ok(true)
}

fn renews_names(region: &mut Region, alloc: Global) -> Result<bool, Fail> {
    let mut keys = fill(region, alloc)?;
    Ok(are_replaced(region, alloc, &mut keys)? && are_kept(region, alloc, &keys)?)
}

#[test]
fn the_oldest_name_makes_room_for_the_next(rt: HostRuntime) -> Result<(), Fail> {
    let mut region = Region::reserve(rt.alloc(), 255 * MANY, MANY)?;
    assert!(rt; renews_names(&mut region, rt.alloc())?);
    Ok(())
}

fn leasts(alloc: Global) -> Result<(Option<u32>, Option<u32>), Fail> {
    let mut set = NumberSet::reserve(alloc, 5_000)?;
    set.insert(4_999);
    set.insert(4_096);
    let least = set.least();
    set.clear();
    Ok((least, set.least()))
}

#[test]
fn a_set_has_its_least_number_at_hand(rt: HostRuntime) -> Result<(), Fail> {
    assert!(rt; leasts(rt.alloc())? == (Some(4_096), None));
    Ok(())
}
