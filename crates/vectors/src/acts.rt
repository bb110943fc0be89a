//! An action that ran: its act is handed out, told and written, and the log has it.

ghost use Rattle.std.specs.Prelude.{◌≡◌, []};
ghost use Rattle.fsrm_model.specs.objects.Acts.{IsAct};

use crate::engines::{does, passes};
use fsrm_engine::Engine;
use fsrm_model::{Act, Ledger, Steps};
use fsrm_outside::MemoryOutside;
use reply_text::write_act;
use std::alloc::Global;
use std::test::Fail;

// A quota that warns when 871 bytes are used, and a file that takes more.
const QUOTA: &[u8] =
    b"7 dirquota quota add /Path:D:\\ /Limit:1kb /Type:soft /Add-Notification:85,m,0,ab";

const FILE: &[u8] = b"7 create D:\\f 1 4294967295";

const LINE: &[u8] = b"  act quota 85 m D:\\|ab\n";

fn is_written<L: Ledger>(
    engine: &Engine,
    alloc: Global,
    act: &Act,
    steps: &mut Steps<L>,
) -> Result<bool, Fail>
    requires { IsAct engine.now.rows act.now }
{
    let logged = engine.marks().log_len() == 1; // `marks` says too that the rows are valid
    let mut outside = MemoryOutside::new(alloc, &[], [].as_slice())?;
    write_act(alloc, &mut outside, act, engine, steps)?;
    Ok(logged && outside.shown() == LINE && engine.act_text(act) == "ab")
}

fn hands_out<L: Ledger>(
    engine: &mut Engine,
    alloc: Global,
    steps: &mut Steps<L>,
) -> Result<bool, Fail> {
    match engine.next_act() {
        Some(act) => is_written(engine, alloc, &act, steps),
        None => Ok(false),
    }
}

// Whether a file has an act handed out.
fn file_warns<L: Ledger>(
    engine: &mut Engine,
    alloc: Global,
    steps: &mut Steps<L>,
) -> Result<bool, Fail>
    requires { engine.old.waiting ≡ [] }
{
    if !does(engine, alloc, FILE, steps) {
        return Ok(false);
    }
    hands_out(engine, alloc, steps)
}

/// The same of a new quota, which warns of nothing before.
pub fn warns<L: Ledger>(
    engine: &mut Engine,
    alloc: Global,
    steps: &mut Steps<L>,
) -> Result<bool, Fail>
    requires { engine.old.waiting ≡ [] }
{
    if !passes(engine, alloc, QUOTA, steps) {
        return Ok(false);
    }
    file_warns(engine, alloc, steps)
}
