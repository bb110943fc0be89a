//! Rows of templates and auto-apply quotas: which names are excluded, and how long their texts are.

ghost use Rattle.std.specs.Prelude.{◌≡◌, ◌<◌, ◌^◌};
ghost use Rattle.fsrm_model.specs.objects.AutoApply.{excludes};
ghost use Rattle.fsrm_model.specs.values.Texts.{auto_bytes, template_bytes};

use fsrm_base::room::left_of_texts;
use fsrm_model::{AutoRow, TemplateRow};
use fsrm_objects::threshold_texts;
use name_rules::same_name;

/// Whether an auto-apply quota leaves out the folders of a name, in any spelling.
pub fn excludes(auto: &AutoRow, name: &str) -> bool
    ensures { result ≡ excludes auto.now name.now }
{
    auto.excluded
        .as_slice()
        .iter()
        .any(|excluded| same_name(excluded.as_str(), name))
}

/// The bytes of a template's texts, which fit 32 bits.
pub fn template_texts(template: &TemplateRow) -> u32
    requires { template_bytes template.now < 2 ^ 32 }
    ensures { result ≡ template_bytes template.now }
{
    template.name.as_str().len() as u32 + threshold_texts(&template.thresholds)
}

/// The bytes of the names that an auto-apply quota excludes, which fit 32 bits.
pub fn auto_texts(auto: &AutoRow) -> u32
    requires { auto_bytes auto.now < 2 ^ 32 }
    ensures { result ≡ auto_bytes auto.now }
{
    let room = u64::from(u32::MAX);
    let left = left_of_texts(&auto.excluded, room).unwrap();
    (room - left) as u32
}
