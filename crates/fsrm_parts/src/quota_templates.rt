//! Templates that commands make or change.

ghost use Rattle.std.specs.Prelude.{◌≡◌, true, IfOk};
ghost use Rattle.fsrm_base.specs.Keyed.{is_ascending};
ghost use Rattle.fsrm_model.specs.commands.TemplateWork.{retemplated};
ghost use Rattle.fsrm_model.specs.objects.Thresholds.{percent_of};

use crate::threshold_lists::changed_thresholds;
use fsrm_model::{Duplicate, List, NoMemory, TemplateChange, TemplateRow, Text, Threshold};
use std::alloc::Global;

/// A template whose number is to come.
pub fn new_template(
    alloc: Global,
    name: &Text,
    limit: u64,
    enforce: bool,
    thresholds: List<Threshold>,
) -> Result<TemplateRow, NoMemory>
    ensures { IfOk result (λ row. row ≡ record { number = 0; name = name.now; limit = limit; enforce = enforce; thresholds = thresholds }) }
{
    Ok(TemplateRow {
        number: 0,
        name: name.copy(alloc)?,
        limit,
        enforce,
        thresholds,
    })
}

/// A template with another limit, or of another type, if these are given, and with changed thresholds.
pub fn retemplated(
    alloc: Global,
    template: &TemplateRow,
    change: &TemplateChange,
) -> Result<TemplateRow, NoMemory>
    requires { is_ascending percent_of template.now.thresholds ≡ true }
    ensures { IfOk result (λ row. row ≡ retemplated change.now template.now) }
{
    Ok(TemplateRow {
        number: template.number,
        name: template.name.copy(alloc)?,
        limit: change.limit.unwrap_or(template.limit),
        enforce: change.enforce.unwrap_or(template.enforce),
        thresholds: changed_thresholds(
            alloc,
            &change.removed,
            &change.thresholds,
            &template.thresholds,
        )?,
    })
}
