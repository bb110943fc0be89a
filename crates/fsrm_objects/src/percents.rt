//! Where the threshold of a percentage stands.

ghost use Rattle.std.specs.Prelude.{◌≡◌, true, IfErr, IfOk};
ghost use Rattle.fsrm_base.specs.Keyed.{is_ascending};
ghost use Rattle.fsrm_base.specs.Places.{IsAt, IsGap};
ghost use Rattle.fsrm_model.specs.objects.Thresholds.{percent_of};

use fsrm_base::places::{Key, search};
use fsrm_model::Threshold;

// A threshold's number is its percentage.
struct ByPercent;

impl Key for ByPercent {
    ghost use Rattle.fsrm_model.specs.objects.Thresholds.{percent_of};

    type Row = Threshold;

    ghost key = { percent_of };

    fn number(row: &Threshold) -> u32 {
        u32::from(row.percent)
    }
}

/// The place of the threshold of a percentage, or as an `Err` the place where one is to stand.
pub fn threshold_place(thresholds: &[Threshold], percent: u16) -> Result<usize, usize>
    requires { is_ascending percent_of thresholds.now ≡ true }
    ensures found { IfOk result (IsAt percent_of percent thresholds.now) }
    ensures free { IfErr result (IsGap percent_of percent thresholds.now) }
{
    search::<ByPercent>(thresholds, u32::from(percent))
}
