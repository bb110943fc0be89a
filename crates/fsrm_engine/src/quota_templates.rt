//! The commands on quota templates.

ghost use Rattle.std.specs.Prelude.{◌≡◌, true, IfOk, OnErr};
ghost use Rattle.std.specs.Option.{option_copied};
ghost use Rattle.fsrm_model.specs.declared.command.Deed.TheVariants.{Template};
ghost use Rattle.fsrm_model.specs.declared.command.TemplateDeed.TheVariants.{Add as TemplateAdd, Modify as TemplateModify, Delete as TemplateDelete, List as TemplateList};
ghost use Rattle.fsrm_model.specs.commands.Commands.{is_new_template, is_template_change};
ghost use Rattle.fsrm_model.specs.objects.Templates.{template_named};
ghost use Rattle.fsrm_model.specs.commands.TemplateWork.{retemplated};
ghost use Rattle.fsrm_model.specs.store.Valid.{IsValid};
ghost use Rattle.fsrm_model.specs.store.Valued.{is_deed};
ghost use Rattle.fsrm_engine.specs.Machine.{Does, IsReady, IsSound, rows_of};
ghost use Rattle.fsrm_engine.specs.Memory.{may_want_memory};

use crate::parts::Parts;
use fsrm_model::{
    Answer, Ask, List, NewTemplate, NoMemory, Refusal, TemplateChange, TemplateDeed, TemplateRow,
    Text,
};
use fsrm_objects::are_too_many;
use fsrm_parts::{
    changed_thresholds, listing, may_be_removed, new_template, refused, refused_by_templates,
    retemplated,
};
use std::alloc::Global;

impl Parts {
    /// The template of a name, in any spelling.
    pub(crate) fn template_named(&self, name: &Text) -> Option<&TemplateRow>
        requires { IsValid self.now.tree.size (rows_of self.now) }
        ensures { option_copied result ≡ template_named self.now.templates.templates name.now }
    {
        let number = self.templates.find(name.as_str())?;
        self.templates.template(number)
    }

    // Makes a template.
    fn template_add(
        &mut self,
        alloc: Global,
        template: &NewTemplate,
        moment: u64,
    ) -> Result<Answer, NoMemory>
        requires ready { IsReady self.old moment }
        requires valid { is_new_template template.now ≡ true }
        ensures ok { IfOk result (λ answer. Does self.old self.new moment (Template (TemplateAdd template.now)) answer) }
        ensures err { OnErr result (self.new ≡ self.old) }
        ensures sound { IsSound self.new }
    {
        if self.template_named(&template.name).is_some() {
            return Ok(refused(Refusal::DuplicateName));
        }
        let removed = List::new(alloc);
        let begun = List::new(alloc);
        let thresholds = changed_thresholds(alloc, &removed, &template.thresholds, &begun)?;
        if are_too_many(&thresholds) {
            return Ok(refused(Refusal::OutOfRange));
        }
        let row = new_template(
            alloc,
            &template.name,
            template.limit,
            template.enforce,
            thresholds,
        )?;
        let room = self.room();
        match self.templates.add(row, room) {
            Ok(_) => Ok(self.done(moment)),
            Err(fault) => refused_by_templates(fault),
        }
    }

    // Changes what is given of a template: its limit, its type, its thresholds. Then the quotas that were derived from
    // it take what it says, as far as the update reaches them.
    fn template_modify(
        &mut self,
        alloc: Global,
        change: &TemplateChange,
        moment: u64,
    ) -> Result<Answer, NoMemory>
        requires ready { IsReady self.old moment }
        requires valid { is_template_change change.now ≡ true }
        ensures ok { IfOk result (λ answer. Does self.old self.new moment (Template (TemplateModify change.now)) answer) }
        ensures err { OnErr result (self.new ≡ self.old) }
        ensures sound { IsSound self.new }
    {
        let Some(template) = self.template_named(&change.name) else {
            return Ok(refused(Refusal::NotFound));
        };
        if !may_be_removed(change.removed.as_slice(), template.thresholds.as_slice()) {
            return Ok(refused(Refusal::NotFound));
        }
        let row = retemplated(alloc, template, change)?;
        if are_too_many(&row.thresholds) {
            return Ok(refused(Refusal::OutOfRange));
        }
        let room = self.room();
        match self
            .templates
            .modify(alloc, &mut self.objects, row, change.update, room)
        {
            Ok(mut reached) => {
                self.settle_reached(&mut reached, moment);
                Ok(self.done(moment))
            }
            Err(fault) => refused_by_templates(fault),
        }
    }

    // Takes a template away, if no auto-apply quota names it. The quotas that were derived from it stay, without a
    // template.
    fn template_delete(&mut self, name: &Text, moment: u64) -> Answer
        requires ready { IsReady self.old moment }
        ensures ok { Does self.old self.new moment (Template (TemplateDelete name.now)) result }
        ensures sound { IsSound self.new }
    {
        let Some(template) = self.template_named(name) else {
            return refused(Refusal::NotFound);
        };
        let number = template.number;
        let Ok(()) = self.templates.delete(number) else {
            // Nothing else refuses it.
            return refused(Refusal::InUse);
        };
        self.objects.clear_template(number);
        self.done(moment)
    }

    // Lists all templates.
    fn list_templates(&self, moment: u64) -> Answer
        requires ready { IsReady self.now moment }
        ensures { Does self.now self.now moment (Template TemplateList) result }
    {
        listing(Ask::Templates)
    }

    /// Does a command on templates.
    pub(crate) fn on_templates(
        &mut self,
        alloc: Global,
        deed: &TemplateDeed,
        moment: u64,
    ) -> Result<Answer, NoMemory>
        requires ready { IsReady self.old moment }
        requires valid { is_deed (Template deed.now) ≡ true }
        ensures ok { IfOk result (λ answer. Does self.old self.new moment (Template deed.now) answer) }
        ensures memory { OnErr result (may_want_memory (rows_of self.old) (Template deed.now) ≡ true) }
        ensures err { OnErr result (self.new ≡ self.old) }
        ensures sound { IsSound self.new }
    {
        match deed {
            TemplateDeed::Add(template) => self.template_add(alloc, template, moment),
            TemplateDeed::Modify(change) => self.template_modify(alloc, change, moment),
            TemplateDeed::Delete { name } => Ok(self.template_delete(name, moment)),
            TemplateDeed::List => Ok(self.list_templates(moment)),
        }
    }
}
