//! Many files in one folder, in a volume that is larger than that of a script, below a quota that counts what they
//! take.

ghost use Rattle.std.specs.Prelude.{◌≡◌};

use crate::engines::has_done;
use fsrm_engine::Engine;
use fsrm_model::{Capacity, Ledger, Steps, Weightless};
use std::alloc::Global;
use std::marker::Brand;
use std::process::Abort;
use std::sync::ledger::{Blank, Ledger as Named};
use std::test::Fail;

const SIZE: Capacity = Capacity {
    nodes: 131_072,
    names: 1_048_576,
    cluster: 4_096,
};

const FILES: u32 = 100_000;

// How often each file gets another length: at each time a cluster more.
const ROUNDS: u32 = 10;

// What the files take then: 10 clusters each.
const TAKEN: u64 = 4_096_000_000;

const QUOTA: &str = "100 dirquota quota add /Path:D:\\ /Limit:1tb";

fn create<L: Ledger>(
    engine: &mut Engine,
    alloc: Global,
    end: &impl Abort,
    file: u32,
    steps: &mut Steps<L>,
) -> Result<(), Fail> {
    let line = format!(in alloc; "100 create D:\\f{file:06} 1 1")?;
    has_done(engine, alloc, end, &line, steps);
    Ok(())
}

fn create_files<L: Ledger>(
    engine: &mut Engine,
    alloc: Global,
    end: &impl Abort,
    steps: &mut Steps<L>,
) -> Result<(), Fail> {
    for file in 0..FILES {
        create(engine, alloc, end, file, steps)?;
    }
    Ok(())
}

fn resize<L: Ledger>(
    engine: &mut Engine,
    alloc: Global,
    end: &impl Abort,
    file: u32,
    length: u32,
    steps: &mut Steps<L>,
) -> Result<(), Fail> {
    let line = format!(in alloc; "100 resize D:\\f{file:06} {length}")?;
    has_done(engine, alloc, end, &line, steps);
    Ok(())
}

fn resize_files<L: Ledger>(
    engine: &mut Engine,
    alloc: Global,
    end: &impl Abort,
    length: u32,
    steps: &mut Steps<L>,
) -> Result<(), Fail> {
    for file in 0..FILES {
        resize(engine, alloc, end, file, length, steps)?;
    }
    Ok(())
}

fn counts<L: Ledger>(
    engine: &mut Engine,
    alloc: Global,
    end: &impl Abort,
    steps: &mut Steps<L>,
) -> Result<(), Fail> {
    has_done(engine, alloc, end, QUOTA, steps);
    create_files(engine, alloc, end, steps)?;
    for round in 0..ROUNDS {
        resize_files(engine, alloc, end, SIZE.cluster * (round + 1), steps)?;
    }
    assert!(end; engine.used(0) == Some(TAKEN));
    Ok(())
}

// A function that owns an engine is dear to prove by each of its statements, so this one has two.
fn new_engine<L: Ledger>(
    alloc: Global,
    end: &impl Abort,
    steps: &mut Steps<L>,
) -> Result<(), Fail> {
    let mut engine = Engine::new(alloc, SIZE)?;
    counts(&mut engine, alloc, end, steps)
}

fn large_engine<N: Named>(rt: &HostRuntime, end: &impl Abort, blank: Blank) -> Result<(), Fail>
    requires name { blank.name ≡ N.name }
    requires parts { blank.parts ≡ N.parts }
    requires one { blank.parts ≡ 1 }
{
    let mut steps = Steps::new(rt, Weightless::<N>::of(blank));
    new_engine(rt.alloc(), end, &mut steps)
}

#[test]
fn the_usage_is_the_sum_of_many_files(rt: HostRuntime) -> Result<(), Fail> {
    large_engine::<Brand>(&rt, &rt, Blank::new(1))
}
