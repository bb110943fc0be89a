//! The outbox of an engine.

ghost use Rattle.std.specs.Prelude.{◌≡◌, ◌+◌, ◌≤◌, IfOk, flat_map, sum_by};
ghost use Rattle.std.specs.List.{All};
ghost use Rattle.fsrm_model.specs.objects.Acts.{folder_in};
ghost use Rattle.fsrm_model.specs.commands.Cost.{path_cost};
ghost use Rattle.line_parts.specs.Writes.{Writes};
ghost use Rattle.notice_text.specs.Notices.{notices};
ghost use Rattle.notice_text.specs.Outbox.{facts_of, notice_cost, notice_lines, outbox_text};
ghost use Rattle.notice_text.specs.Named.{IsNotice};

use crate::lines::write_lines;
use crate::macros::{Facts, QuotaFacts};
use crate::notice::{Notice, in_order};
use fsrm_engine::Engine;
use fsrm_model::{Ledger, NoMemory, Steps, Subject};
use fsrm_objects::Objects;
use fsrm_outside::Sink;
use line_parts::{TextFault, moment_text};
use std::alloc::Global;

/// The latest notice of each action that ran at a moment or later, in the order of their moments; of one moment those of
/// quotas before those of screens, each by folders, percentages and places.
pub fn outbox(alloc: Global, engine: &Engine, since: u64) -> Result<Vec<Notice>, NoMemory>
    ensures found { IfOk result (λ found. found.items ≡ notices since engine.now.rows.quotas engine.now.rows.screens) }
    ensures named { IfOk result (λ found. All (IsNotice engine.now.rows) found.items) }
{
    in_order(alloc, engine.objects(), since)
}

// What is known of the quota that a notice is of, as it is now.
fn quota_facts(engine: &Engine, objects: &Objects, subject: Subject) -> Option<QuotaFacts>
    requires { objects.now.quotas ≡ engine.now.rows.quotas }
    ensures { result ≡ facts_of engine.now.size engine.now.rows subject }
{
    match subject {
        Subject::Quota { folder, percent } => {
            let quota = objects.quota(folder)?;
            Some(QuotaFacts {
                limit: quota.limit,
                used: engine.used(folder),
                peak: quota.peak,
                percent,
            })
        }
        Subject::Screen { .. } => None,
    }
}

/// Writes the two lines of a notice, whose action is there: what it is of, and its text, whose macros give what holds
/// now. It takes no more than 4 looks for each name of its path, and 4 more.
pub fn write_notice<S: Sink, L: Ledger>(
    alloc: Global,
    sink: &mut S,
    notice: &Notice,
    engine: &Engine,
    steps: &mut Steps<L>,
) -> Result<(), TextFault>
    requires { IsNotice engine.now.rows notice.now }
    ensures writes { Writes S.Sink result sink.old sink.new (notice_lines engine.now.size engine.now.rows notice.now) }
    ensures looks { steps.new ≤ steps.old + path_cost engine.now.rows.nodes (folder_in notice.now.act.subject) }
{
    let objects = engine.objects();
    let path = engine.path_text(alloc, notice.act.subject.folder(), steps)?;
    let date = moment_text(notice.moment);
    let quota = quota_facts(engine, objects, notice.act.subject);
    let facts = Facts {
        path: path.as_str(),
        date: &date,
        quota,
    };
    write_lines(sink, &notice.act, &facts, engine.act_text(&notice.act))
}

// Writes the lines of notices.
fn write_notices<S: Sink, L: Ledger>(
    alloc: Global,
    sink: &mut S,
    notices: &[Notice],
    engine: &Engine,
    steps: &mut Steps<L>,
) -> Result<(), TextFault>
    requires { All (IsNotice engine.now.rows) notices.now }
    ensures writes { Writes S.Sink result sink.old sink.new (flat_map (notice_lines engine.now.size engine.now.rows) notices.now) }
    ensures looks { steps.new ≤ steps.old + sum_by (notice_cost engine.now.rows) notices.now }
{
    for notice in notices {
        write_notice(alloc, sink, notice, engine, steps)?;
    }
    Ok(())
}

/// Writes the lines of the outbox since a moment. Its looks are those of its notices.
pub fn write_outbox<S: Sink, L: Ledger>(
    alloc: Global,
    sink: &mut S,
    engine: &Engine,
    since: u64,
    steps: &mut Steps<L>,
) -> Result<(), TextFault>
    ensures writes { Writes S.Sink result sink.old sink.new (outbox_text engine.now.size engine.now.rows since) }
    ensures looks { steps.new ≤ steps.old + sum_by (notice_cost engine.now.rows) (notices since engine.now.rows.quotas engine.now.rows.screens) }
{
    let notices = outbox(alloc, engine, since)?;
    write_notices(alloc, sink, notices.as_slice(), engine, steps)
}
