//! The commands on the settings and on the log of actions.

ghost use Rattle.fsrm_model.specs.declared.command.AdminDeed.TheVariants.{Options as AdminOptions, List as AdminList, Log as AdminLog};
ghost use Rattle.fsrm_model.specs.declared.command.Deed.TheVariants.{Admin};
ghost use Rattle.fsrm_engine.specs.Machine.{Does, IsReady, IsSound};

use crate::parts::Parts;
use fsrm_model::{AdminDeed, Answer, Ask};
use fsrm_parts::listing;

impl Parts {
    // Sets how many minutes pass at least between two runs of an action that has none of its own.
    fn set_options(&mut self, run_limit: u32, moment: u64) -> Answer
        requires ready { IsReady self.old moment }
        ensures ok { Does self.old self.new moment (Admin (AdminOptions run_limit)) result }
        ensures sound { IsSound self.new }
    {
        self.run_limit = run_limit;
        self.done(moment)
    }

    // Shows the settings.
    fn show_settings(&self, moment: u64) -> Answer
        requires ready { IsReady self.now moment }
        ensures { Does self.now self.now moment (Admin AdminList) result }
    {
        listing(Ask::Settings)
    }

    // Shows the log of actions.
    fn show_log(&self, moment: u64) -> Answer
        requires ready { IsReady self.now moment }
        ensures { Does self.now self.now moment (Admin AdminLog) result }
    {
        listing(Ask::Acts)
    }

    /// Does a command on the settings or on the log.
    pub(crate) fn on_admin(&mut self, deed: &AdminDeed, moment: u64) -> Answer
        requires ready { IsReady self.old moment }
        ensures ok { Does self.old self.new moment (Admin deed.now) result }
        ensures sound { IsSound self.new }
    {
        match deed {
            AdminDeed::Options { run_limit } => self.set_options(*run_limit, moment),
            AdminDeed::List => self.show_settings(moment),
            AdminDeed::Log => self.show_log(moment),
        }
    }
}
