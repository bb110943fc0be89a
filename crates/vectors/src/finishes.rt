//! Scans that finish at once, below and above a folder that counts, and scans that are given up.

ghost use Rattle.std.specs.Prelude.{◌≡◌, [], true};

use crate::engines::passes;
use crate::values::SMALL;
use fsrm_engine::Engine;
use fsrm_model::{Ledger, QuotaState, Steps, Weightless};
use std::alloc::Global;
use std::marker::Brand;
use std::process::Abort;
use std::sync::ledger::{Blank, Ledger as Named};
use std::test::Fail;

// Makes folder 1 with a file of one cluster and folder 2, which has a file of two clusters and folder 3, with a file of
// one cluster.
fn make_tree<L: Ledger>(engine: &mut Engine, alloc: Global, end: &impl Abort, steps: &mut Steps<L>)
    requires { engine.old.waiting ≡ [] }
    ensures { engine.new.waiting ≡ [] }
{
    assert!(end; passes(engine, alloc, b"7 mkdir D:\\a 1", steps));
    assert!(end; passes(engine, alloc, b"7 mkdir D:\\a\\b 1", steps));
    assert!(end; passes(engine, alloc, b"7 mkdir D:\\a\\b\\c 1", steps));
    assert!(end; passes(engine, alloc, b"7 create D:\\a\\f 1 1", steps));
    assert!(end; passes(engine, alloc, b"7 create D:\\a\\b\\f 4097 1", steps));
    assert!(end; passes(engine, alloc, b"7 create D:\\a\\b\\c\\f 4096 1", steps));
}

// Has the scans of folders 1, 2 and 3 wait in this order.
fn add_quotas<L: Ledger>(engine: &mut Engine, alloc: Global, end: &impl Abort, steps: &mut Steps<L>)
    requires { engine.old.waiting ≡ [] }
    ensures { engine.new.waiting ≡ [] }
{
    assert!(end;
        passes(
            engine,
            alloc,
            b"7 dirquota quota add /Path:D:\\a /Limit:1gb",
            steps
        )
    );
    assert!(end;
        passes(
            engine,
            alloc,
            b"7 dirquota quota add /Path:D:\\a\\b /Limit:1gb",
            steps
        )
    );
    assert!(end;
        passes(
            engine,
            alloc,
            b"7 dirquota quota add /Path:D:\\a\\b\\c /Limit:1gb",
            steps
        )
    );
}

// Whether a folder's scan finishes with so many bytes, and has no action run.
fn finishes<L: Ledger>(engine: &mut Engine, folder: u32, bytes: u64, steps: &mut Steps<L>) -> bool
    requires { engine.old.waiting ≡ [] }
    ensures { result ≡ true → engine.new.waiting ≡ [] }
{
    engine.finish_fresh(folder, 6, steps);
    engine.next_act().is_none() && engine.used(folder) == Some(bytes)
}

// How many scans wait, and the moment of the last command.
fn stands_at(engine: &Engine, scans: u32, last_moment: u64) -> bool {
    let settings = engine.settings();
    settings.scans == scans && settings.last_moment == last_moment
}

fn finish_around<L: Ledger>(
    engine: &mut Engine,
    alloc: Global,
    end: &impl Abort,
    steps: &mut Steps<L>,
)
    requires { engine.old.waiting ≡ [] }
{
    make_tree(engine, alloc, end, steps);
    add_quotas(engine, alloc, end, steps);
    assert!(end; stands_at(engine, 3, 7));
    assert!(end; finishes(engine, 2, 12_288, steps));
    assert!(end; stands_at(engine, 2, 6));
    assert!(end; finishes(engine, 3, 4_096, steps));
    assert!(end; finishes(engine, 1, 16_384, steps));
    assert!(end; stands_at(engine, 0, 6));
}

fn is_incomplete(engine: &Engine, folder: u32) -> bool {
    matches!(
        engine.objects().quota(folder),
        Some(quota) if quota.state == QuotaState::Incomplete
    )
}

fn give_up<L: Ledger>(engine: &mut Engine, alloc: Global, end: &impl Abort, steps: &mut Steps<L>)
    requires { engine.old.waiting ≡ [] }
{
    make_tree(engine, alloc, end, steps);
    add_quotas(engine, alloc, end, steps);
    engine.flag_unfinished();
    assert!(end; stands_at(engine, 0, 7));
    assert!(end; is_incomplete(engine, 1) && is_incomplete(engine, 2) && is_incomplete(engine, 3));
    assert!(end; finishes(engine, 1, 16_384, steps));
}

fn finish_in_new<L: Ledger>(
    alloc: Global,
    end: &impl Abort,
    steps: &mut Steps<L>,
) -> Result<(), Fail> {
    let mut engine = Engine::new(alloc, SMALL)?;
    finish_around(&mut engine, alloc, end, steps);
    Ok(())
}

fn give_up_in_new<L: Ledger>(
    alloc: Global,
    end: &impl Abort,
    steps: &mut Steps<L>,
) -> Result<(), Fail> {
    let mut engine = Engine::new(alloc, SMALL)?;
    give_up(&mut engine, alloc, end, steps);
    Ok(())
}

fn engines<N: Named>(rt: &HostRuntime, end: &impl Abort, blank: Blank) -> Result<(), Fail>
    requires name { blank.name ≡ N.name }
    requires parts { blank.parts ≡ N.parts }
    requires one { blank.parts ≡ 1 }
{
    let mut steps = Steps::new(rt, Weightless::<N>::of(blank));
    finish_in_new(rt.alloc(), end, &mut steps)?;
    give_up_in_new(rt.alloc(), end, &mut steps)
}

#[test]
fn scans_finish_at_once_or_are_given_up(rt: HostRuntime) -> Result<(), Fail> {
    engines::<Brand>(&rt, &rt, Blank::new(1))
}
