//! Scans that a store gives up: their quotas are incomplete.

ghost use Rattle.std.specs.Prelude.{◌≡◌, true};
ghost use Rattle.fsrm_base.specs.Keyed.{is_ascending};
ghost use Rattle.fsrm_model.specs.store.Lasting.{lasting};
ghost use Rattle.fsrm_model.specs.objects.Quota.{folder_of};
ghost use Rattle.fsrm_engine.specs.Machine.{IsWhole, machine_of};

use crate::parts::Parts;
use fsrm_parts::flag_all;

impl Parts {
    /// Gives all scans up: the quotas that were rebuilding are incomplete from then on. The acts that wait go on to
    /// wait.
    pub(crate) fn flag_unfinished(&mut self)
        requires ascending { is_ascending folder_of self.old.objects.quotas ≡ true }
        ensures machine { machine_of self.new ≡ record (machine_of self.old) { rows = lasting (machine_of self.old).rows } }
        ensures whole { IsWhole self.old → IsWhole self.new }
    {
        flag_all(&mut self.objects);
        self.scans.clear();
    }
}
