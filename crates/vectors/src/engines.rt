//! The machine, of which scripts show the replies to what it is asked by `apply`. What they don't show is asked here of
//! one engine: an operation that comes by `file_op`, who owns a node, the texts of acts (`acts`), the templates, and
//! the audit log (`audits`).

ghost use Rattle.std.specs.Prelude.{◌≡◌, [], true};
ghost use Rattle.fsrm_model.specs.store.Valued.{is_command, is_op};

use crate::acts::warns;
use crate::audits::notes;
use crate::values::{SMALL, root};
use fsrm_engine::Engine;
use fsrm_model::{Command, FileOp, Ledger, Outcome, Refusal, Steps, Weightless};
use std::alloc::Global;
use std::marker::Brand;
use std::process::Abort;
use std::sync::ledger::{Blank, Ledger as Named};
use std::test::Fail;
use tool_commands::read_line;

fn outcome_of<L: Ledger>(
    engine: &mut Engine,
    alloc: Global,
    command: &Command,
    steps: &mut Steps<L>,
) -> Option<Outcome>
    requires valid { is_command command.now ≡ true }
    requires idle { engine.old.waiting ≡ [] }
{
    match engine.apply(alloc, command, steps) {
        Ok(answer) => Some(answer.outcome),
        Err(_) => None,
    }
}

/// What the command comes to that a line spells, if it spells one.
pub fn outcome<L: Ledger>(
    engine: &mut Engine,
    alloc: Global,
    line: &[u8],
    steps: &mut Steps<L>,
) -> Option<Outcome>
    requires { engine.old.waiting ≡ [] }
{
    match read_line(alloc, line) {
        Ok(Some(command)) => outcome_of(engine, alloc, &command, steps),
        Ok(None) => None,
        Err(_) => None,
    }
}

/// Whether the command that a line spells is done.
pub fn does<L: Ledger>(
    engine: &mut Engine,
    alloc: Global,
    line: &[u8],
    steps: &mut Steps<L>,
) -> bool
    requires { engine.old.waiting ≡ [] }
{
    matches!(
        outcome(engine, alloc, line, steps),
        Some(Outcome::Done { .. })
    )
}

/// The same, and that no action runs.
pub fn passes<L: Ledger>(
    engine: &mut Engine,
    alloc: Global,
    line: &[u8],
    steps: &mut Steps<L>,
) -> bool
    requires { engine.old.waiting ≡ [] }
    ensures { result ≡ true → engine.new.waiting ≡ [] }
{
    does(engine, alloc, line, steps) && engine.next_act().is_none()
}

/// Has the command done that a line spells, while no act waits.
pub fn has_done<L: Ledger>(
    engine: &mut Engine,
    alloc: Global,
    end: &impl Abort,
    line: &str,
    steps: &mut Steps<L>,
) {
    assert!(end; engine.next_act().is_none());
    assert!(end; does(engine, alloc, line.as_bytes(), steps));
}

fn refuses_a_move<L: Ledger>(
    engine: &mut Engine,
    alloc: Global,
    op: &FileOp,
    steps: &mut Steps<L>,
) -> bool
    requires valid { is_op op.now ≡ true }
    requires idle { engine.old.waiting ≡ [] }
{
    match engine.file_op(alloc, op, 7, steps) {
        Ok(answer) => matches!(answer.outcome, Outcome::Refused(Refusal::InvalidMove)),
        Err(_) => false,
    }
}

fn refuses_the_root<L: Ledger>(engine: &mut Engine, alloc: Global, steps: &mut Steps<L>) -> bool
    requires { engine.old.waiting ≡ [] }
{
    let removal = FileOp::Remove { path: root(alloc) };
    refuses_a_move(engine, alloc, &removal, steps)
}

// Whether node 1 has the owner of the file that warns.
fn is_owned<L: Ledger>(engine: &Engine, steps: &mut Steps<L>) -> bool {
    let tree = engine.tree();
    tree.live(1) && tree.node(1, steps).owner == 4_294_967_295
}

const TEMPLATE: &[u8] = b"7 dirquota template add /Template:T /Limit:1kb";

// Whether the templates that are lent have a new one.
fn lends_templates<L: Ledger>(engine: &mut Engine, alloc: Global, steps: &mut Steps<L>) -> bool
    requires { engine.old.waiting ≡ [] }
    ensures { result ≡ true → engine.new.waiting ≡ [] }
{
    passes(engine, alloc, TEMPLATE, steps) && engine.templates().find("t") == Some(0)
}

fn takes<L: Ledger>(
    engine: &mut Engine,
    alloc: Global,
    end: &impl Abort,
    steps: &mut Steps<L>,
) -> Result<(), Fail>
    requires { engine.old.waiting ≡ [] }
{
    assert!(end; refuses_the_root(engine, alloc, steps));
    assert!(end; engine.next_act().is_none());
    assert!(end; warns(engine, alloc, steps)?);
    assert!(end; is_owned(engine, steps));
    assert!(end; engine.next_act().is_none());
    assert!(end; lends_templates(engine, alloc, steps));
    assert!(end; notes(engine, alloc, steps));
    Ok(())
}

// A function that owns an engine is dear to prove by each of its statements, so this one has two, and no other owns
// one.
fn new_engine<L: Ledger>(
    alloc: Global,
    end: &impl Abort,
    steps: &mut Steps<L>,
) -> Result<(), Fail> {
    let mut engine = Engine::new(alloc, SMALL)?;
    takes(&mut engine, alloc, end, steps)
}

fn engines<N: Named>(rt: &HostRuntime, end: &impl Abort, blank: Blank) -> Result<(), Fail>
    requires name { blank.name ≡ N.name }
    requires parts { blank.parts ≡ N.parts }
    requires one { blank.parts ≡ 1 }
{
    let mut steps = Steps::new(rt, Weightless::<N>::of(blank));
    new_engine(rt.alloc(), end, &mut steps)
}

#[test]
fn operations_are_taken_told_and_noted(rt: HostRuntime) -> Result<(), Fail> {
    engines::<Brand>(&rt, &rt, Blank::new(1))
}
