//! Folders that are counted from now on, or no longer.

ghost use Rattle.std.specs.Prelude.{◌≡◌, ◌<◌, true, false, length};
ghost use Rattle.fsrm_base.specs.Keyed.{has_row};
ghost use Rattle.fsrm_model.specs.values.Limits.{most_quotas};
ghost use Rattle.fsrm_model.specs.nodes.Tree.{usage};
ghost use Rattle.quota_usage.specs.Counters.{counted, with_counter, without_counter};

use crate::charging::end_count;
use quota_usage::Usage;

/// Has a folder counted, from nothing if it wasn't, or counted no longer.
#[inline]
pub fn recount(usage: &mut Usage, folder: u32, counting: bool)
    requires room { counting ≡ true → has_row counted folder usage.old ≡ false → length usage.old < most_quotas }
    ensures ended { counting ≡ false → usage.new ≡ without_counter usage.old folder }
    ensures begun { counting ≡ true → has_row counted folder usage.old ≡ false → usage.new ≡ with_counter usage.old folder 0 }
    ensures held { counting ≡ true → has_row counted folder usage.old ≡ true → usage.new ≡ usage.old }
{
    if !counting {
        end_count(usage, folder);
    } else if usage.used(folder).is_none() {
        usage.begin(folder, 0);
    }
}
