//! Steps of the active scan.

ghost use Rattle.std.specs.Prelude.{◌≡◌, ◌+◌, ◌-◌, ◌≤◌, true, Some, is_some, length};
ghost use Rattle.fsrm_model.specs.declared.command.Deed.TheVariants.{Step};
ghost use Rattle.fsrm_model.specs.commands.Cost.{deed_cost, step_cost};
ghost use Rattle.fsrm_model.specs.objects.QuotaStates.{head};
ghost use Rattle.fsrm_model.specs.objects.Scan.{visits};
ghost use Rattle.fsrm_model.specs.nodes.Tree.{usage};
ghost use Rattle.rescan.specs.Courses.{Scanning};
ghost use Rattle.fsrm_engine.specs.Due.{Finishes};
ghost use Rattle.fsrm_engine.specs.Machine.{Does, IsReady, IsSound, IsWhole, rows_of};

use crate::parts::Parts;
use fsrm_model::{Answer, Ledger, Outcome, Refusal, Steps};
use fsrm_parts::{passing, refused};

impl Parts {
    /// Goes on with the active scan, at a moment that isn't before the last one.
    pub(crate) fn go_on<L: Ledger>(&mut self, n: u32, moment: u64, steps: &mut Steps<L>) -> Answer
        requires ready { IsReady self.old moment }
        ensures ok { Does self.old self.new moment (Step n) result }
        ensures sound { IsSound self.new }
        ensures looks { steps.new ≤ steps.old + deed_cost (rows_of self.old) (Step n) }
    {
        let Some(folder) = self.scans.head() else {
            return refused(Refusal::NothingToScan);
        };
        let visited = self.visit(n, steps);
        if !self.scans.done() {
            return passing(Outcome::Scanned {
                folder,
                visited,
                done: None,
            });
        }
        let used = self.finish(folder, moment);
        Answer {
            outcome: Outcome::Scanned {
                folder,
                visited,
                done: Some(used),
            },
            lasting: true,
        }
    }

    // Visits at most `n` folders of the active scan, and tells how many it visited.
    fn visit<L: Ledger>(&mut self, n: u32, steps: &mut Steps<L>) -> u32
        requires scanning { Scanning self.old.tree self.old.scans }
        requires active { is_some (head self.old.scans.queue) ≡ true }
        ensures kept { self.new ≡ record self.old { scans = self.new.scans } }
        ensures left { rows_of self.new ≡ record (rows_of self.old) { unvisited = visits n (rows_of self.old).nodes (rows_of self.old).unvisited } }
        ensures visited { result ≡ length (rows_of self.old).unvisited - length (rows_of self.new).unvisited }
        ensures whole { IsWhole self.old → IsWhole self.new }
        ensures looks { steps.new ≤ steps.old + step_cost (rows_of self.old) n }
    {
        self.scans.visit(&self.tree, n, steps)
    }

    // Ends the active scan, which has nothing more to visit: its quota counts from now on, and the next scan begins.
    // The quota may have reached thresholds. It gives what the quota's folder uses.
    fn finish(&mut self, folder: u32, moment: u64) -> u64
        requires ready { IsReady self.old moment }
        requires active { head self.old.scans.queue ≡ Some folder }
        requires done { length (rows_of self.old).unvisited ≡ 0 }
        ensures used { result ≡ usage self.old.tree.size self.old.tree.nodes folder }
        ensures finished { Finishes self.old self.new folder moment }
        ensures sound { IsSound self.new }
    {
        let used = self.scans.finish();
        self.complete(folder, used, moment);
        used
    }
}
