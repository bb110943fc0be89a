//! The tables, and the templates in them.

ghost use Rattle.std.specs.Prelude.{◌≡◌, ◌<◌, ◌==◌, IfOk, IfErr, IfSome, OnOk, OnErr, [], None, Some, true, false, length, option_map, slice_get};
ghost use Rattle.std.specs.List.{list_any};
ghost use Rattle.std.specs.Option.{option_copied};
ghost use Rattle.fsrm_base.specs.Keyed.{has_row, is_ascending};
ghost use Rattle.fsrm_model.specs.declared.row.TemplateRow.{TemplateRow};
ghost use Rattle.fsrm_model.specs.values.Limits.{most_templates};
ghost use Rattle.fsrm_model.specs.values.Name.{is_named};
ghost use Rattle.fsrm_model.specs.objects.Templates.{is_template, template_name, template_named, template_number, template_of};
ghost use Rattle.templates.specs.Faults.{IsFault, delete_fault, template_fault};
ghost use Rattle.templates.specs.Held.{numbered, texts_in, with_other, with_template, without_template};
ghost use Rattle.templates.specs.Kept.{AreHeld};

use crate::answer::TemplateFault;
use crate::kinds::{AutoQuotas, Named, Uses, WholeTemplates};
use crate::rows;
use fsrm_model::{NoMemory, TemplateRow};
use row_table::Table;
use std::alloc::Global;
use std::marker::Model;

/// The quota templates of a store (MS-FSRM, IFsrmQuotaTemplate), at most 1,024, and its auto-apply quotas
/// (IFsrmAutoApplyQuota), as many. Contracts see the rows of both: the templates ascend by number, which is below
/// 1,024, and no two of them have one name, in any spelling; the auto-apply quotas ascend by folder, each folder at
/// most once, and the template of each is there. `texts` has a clause that says so.
#[derive(Drop)]
pub struct Templates {
    pub(crate) templates: Table<WholeTemplates>,
    pub(crate) autos: Table<AutoQuotas>,
}

impl Model for Templates {
    ghost use Rattle.templates.specs.Held.{Held};
    ghost use Rattle.templates.specs.Kept.{AreTied};

    ghost Value = { Held };

    ghost view = { λ t. record { templates = t.templates.rows; autos = t.autos.rows } };

    ghost invariant = { λ t. AreTied (record { templates = t.templates.rows; autos = t.autos.rows }) };
}

impl Templates {
    /// Tables without rows. It takes no memory.
    pub fn new(alloc: Global) -> Templates
        ensures { result ≡ record { templates = []; autos = [] } }
    {
        Templates {
            templates: Table::new(alloc),
            autos: Table::new(alloc),
        }
    }

    /// Adds a template under the least number that is free, which is the answer. The row's own number isn't looked at.
    /// All else of it is as a template has it: an object's name, a limit, and thresholds whose actions never ran.
    ///
    /// `room` is how many bytes of texts may still come. The template is refused if its name is another one's, in any
    /// spelling (DuplicateName), else if there are 1,024 templates (TableFull), else if its texts are longer than
    /// `room` (TextsFull). NoMemory comes only if nothing else refuses it. An `Err` changes nothing, and the row is
    /// dropped.
    pub fn add(&mut self, row: TemplateRow, room: u32) -> Result<u32, TemplateFault>
        requires valid { is_template (record row { number = 0 }) ≡ true }
        ensures ok { OnOk result (self.new ≡ with_template self.old (numbered self.old.templates row)) }
        ensures number { IfOk result (λ number. number ≡ (numbered self.old.templates row).number) }
        ensures may { OnOk result (template_fault self.old row room ≡ None) }
        ensures refused { IfErr result (λ fault. IsFault fault (template_fault self.old row room)) }
        ensures err { OnErr result (self.new ≡ self.old) }
    {
        self.admit(&row, room)?;
        let number = self.templates.free_number();
        self.insert(TemplateRow { number, ..row })?;
        Ok(number)
    }

    /// Puts a stored template under its own number, which is below 1,024 and free. It is refused as `add` refuses it.
    /// An `Err` changes nothing, and the row is dropped.
    pub fn put(&mut self, row: TemplateRow, room: u32) -> Result<(), TemplateFault>
        requires valid { is_template row ≡ true }
        requires free { has_row template_number row.number self.old.templates ≡ false }
        ensures ok { OnOk result (self.new ≡ with_template self.old row) }
        ensures may { OnOk result (template_fault self.old row room ≡ None) }
        ensures refused { IfErr result (λ fault. IsFault fault (template_fault self.old row room)) }
        ensures err { OnErr result (self.new ≡ self.old) }
    {
        self.admit(&row, room)?;
        self.insert(row)?;
        Ok(())
    }

    // Whether a new template may be added, whose number isn't looked at.
    #[tactic(auto, using(crate::proofs::PartLaws::new_fits))]
    fn admit(&self, row: &TemplateRow, room: u32) -> Result<(), TemplateFault>
        requires { is_template (record row.now { number = 0 }) ≡ true }
        ensures few { OnOk result (length self.now.templates < most_templates) }
        ensures may { OnOk result (template_fault self.now row.now room ≡ None) }
        ensures refused { IfErr result (λ fault. template_fault self.now row.now room ≡ Some fault) }
    {
        if self.is_taken(row.name.as_str()) {
            return Err(TemplateFault::DuplicateName);
        }
        if self.templates.is_full() {
            return Err(TemplateFault::TableFull);
        }
        if rows::template_texts(row) > room {
            return Err(TemplateFault::TextsFull);
        }
        Ok(())
    }

    // Whether a template has this name, in any spelling.
    fn is_taken(&self, name: &str) -> bool
        ensures { result ≡ list_any (is_named template_name name.now) self.now.templates }
    {
        self.templates.find(&Named { name }).is_some()
    }

    // Puts a template that nothing refuses into its place.
    #[tactic(auto, using(crate::proofs::PartLaws::template_fits))]
    fn insert(&mut self, row: TemplateRow) -> Result<(), NoMemory>
        requires valid { is_template row ≡ true }
        requires free { has_row template_number row.number self.old.templates ≡ false }
        requires named { list_any (is_named template_name row.name) self.old.templates ≡ false }
        requires few { length self.old.templates < most_templates }
        ensures ok { OnOk result (self.new ≡ with_template self.old row) }
        ensures err { OnErr result (self.new ≡ self.old) }
    {
        self.templates.reserve(self.templates.len() + 1)?;
        self.templates.insert(row);
        Ok(())
    }

    // Puts this row in the place of the template of its number, which has its name. It takes no memory.
    #[tactic(auto, using(crate::proofs::HeldLaws::named_there, crate::proofs::PartLaws::template_fits))]
    pub(crate) fn replace(&mut self, mut row: TemplateRow)
        requires ascending { is_ascending template_number self.old.templates ≡ true }
        requires named { option_map template_name (template_of self.old.templates row.number) ≡ Some row.name }
        requires valid { is_template row ≡ true }
        ensures { self.new ≡ with_other self.old row }
    {
        self.templates.swap(&mut row);
    }

    /// Takes the template of a number away, which is there. It is refused, by InUse alone, if an auto-apply quota names
    /// it. Quotas that were derived from it don't prevent that; `Objects::clear_template` takes it from them. An `Err`
    /// changes nothing.
    pub fn delete(&mut self, number: u32) -> Result<(), TemplateFault>
        requires { has_row template_number number self.old.templates ≡ true }
        ensures ok { OnOk result (self.new ≡ without_template self.old number) }
        ensures may { OnOk result (delete_fault self.old number ≡ None) }
        ensures refused { IfErr result (λ fault. delete_fault self.old number ≡ Some fault) }
        ensures err { OnErr result (self.new ≡ self.old) }
    {
        if self.is_used(number) {
            return Err(TemplateFault::InUse);
        }
        self.templates.remove(number);
        Ok(())
    }

    // Whether an auto-apply quota names the template of a number.
    fn is_used(&self, number: u32) -> bool
        ensures { result ≡ list_any (λ auto. auto.template == number) self.now.autos }
    {
        self.autos.find(&Uses { template: number }).is_some()
    }

    // The template of a number, which is there.
    pub(crate) fn there(&self, number: u32) -> &TemplateRow
        requires { has_row template_number number self.now.templates ≡ true }
        ensures found { template_of self.now.templates number ≡ Some result.now }
        ensures valid { is_template result.now ≡ true }
        ensures ascending { is_ascending template_number self.now.templates ≡ true }
    {
        self.templates.get(number).unwrap()
    }

    /// The number of the template of a name, in any spelling.
    pub fn find(&self, name: &str) -> Option<u32>
        ensures found { result ≡ option_map template_number (template_named self.now.templates name.now) }
        ensures there { IfSome result (λ number. has_row template_number number self.now.templates ≡ true) }
    {
        let template = self.templates.find(&Named { name })?;
        Some(template.number)
    }

    /// The template of a number.
    pub fn template(&self, number: u32) -> Option<&TemplateRow>
        ensures { option_copied result ≡ template_of self.now.templates number }
    {
        self.templates.get(number)
    }

    /// The bytes of all texts: names of templates, texts of their actions, excluded names. `kept` says how the tables
    /// are held.
    pub fn texts(&self) -> u32
        ensures bytes { result ≡ texts_in self.now }
        ensures kept { AreHeld self.now result }
    {
        self.templates.texts() + self.autos.texts()
    }

    /// How many templates there are, at most 1,024.
    pub fn template_count(&self) -> u32
        ensures { result ≡ length self.now.templates }
    {
        self.templates.len()
    }

    /// The template at a place, from 0, in the order of the numbers.
    pub fn template_at(&self, place: u32) -> &TemplateRow
        requires { place < length self.now.templates }
        ensures { slice_get self.now.templates place ≡ Some result.now }
    {
        self.templates.at(place)
    }
}
