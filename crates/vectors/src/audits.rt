//! The audit log, which no command prints yet.

ghost use Rattle.std.specs.Prelude.{◌≡◌, []};

use crate::engines::passes;
use file_screens::Audit;
use fsrm_engine::Engine;
use fsrm_model::{Ledger, Steps};
use std::alloc::Global;
use std::test::Fail;

const GROUP: &[u8] = b"7 filescrn filegroup add /Filegroup:G /Members:*.mp3";

const SCREEN: &[u8] = b"7 filescrn screen add /Path:D:\\ /Type:passive /Add-Filegroup:g";

const FILE: &[u8] = b"7 create D:\\a.mp3 1 5";

fn is_noted(engine: &Engine) -> bool {
    let audit = engine.audit();
    audit.len() == 1 && audit.at(0).name == "a.mp3"
}

/// Whether a name that a new screen reports has an entry.
pub fn notes<L: Ledger>(engine: &mut Engine, alloc: Global, steps: &mut Steps<L>) -> bool
    requires { engine.old.waiting ≡ [] }
{
    passes(engine, alloc, GROUP, steps)
        && passes(engine, alloc, SCREEN, steps)
        && passes(engine, alloc, FILE, steps)
        && is_noted(engine)
}

fn fill(audit: &mut Audit) {
    for moment in 0..1_025 {
        audit.push(moment, true, 1, 0, 0, "a");
    }
}

fn has_dropped_one(audit: &Audit) -> bool {
    audit.len() == 1_024 && audit.at(0).moment == 1
}

fn full_log_drops_one(alloc: Global) -> Result<bool, Fail> {
    let mut audit = Audit::new(alloc)?;
    fill(&mut audit);
    Ok(has_dropped_one(&audit))
}

#[test]
fn a_full_log_drops_its_oldest_entry(rt: HostRuntime) -> Result<(), Fail> {
    assert!(rt; full_log_drops_one(rt.alloc())?);
    Ok(())
}
