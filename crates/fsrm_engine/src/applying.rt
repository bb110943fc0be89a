//! Quotas that folders get of the auto-apply quota of the folder that they stand in.

ghost use Rattle.std.specs.Prelude.{◌≡◌, [], ◌∷◌, true, fold, IfErr, OnOk, OnErr, Some, None};
ghost use Rattle.fsrm_base.specs.Keyed.{has_row};
ghost use Rattle.fsrm_model.specs.objects.AutoApply.{queue_with, quotas_with};
ghost use Rattle.fsrm_model.specs.values.Limits.{most_quotas};
ghost use Rattle.fsrm_model.specs.objects.Templates.{template_number};
ghost use Rattle.fsrm_model.specs.store.Valid.{IsValid};
ghost use Rattle.fsrm_model.specs.store.ValidScans.{IsQueue};
ghost use Rattle.fsrm_engine.specs.Applying.{AreComing, quotas_full};
ghost use Rattle.fsrm_engine.specs.Machine.{IsSound, Turned, rows_of};

use crate::parts::Parts;
use fsrm_model::limits::MOST_QUOTAS;
use fsrm_model::{NoMemory, QuotaRow, Refusal};
use fsrm_objects::threshold_texts;

impl Parts {
    /// Refuses so many quotas of a template if there would be more than 4,096 quotas, else if their texts are longer
    /// than `room`.
    pub(crate) fn may_derive(&self, template: u32, count: usize, room: u32) -> Result<(), Refusal>
        requires store { IsValid self.now.tree.size (rows_of self.now) }
        requires there { has_row template_number template self.now.templates.templates ≡ true }
        ensures may { OnOk result (quotas_full self.now template count room ≡ None) }
        ensures refused { IfErr result (λ refusal. quotas_full self.now template count room ≡ Some refusal) }
    {
        let all = count.saturating_add(self.objects.quota_count() as usize);
        if all > MOST_QUOTAS {
            return Err(Refusal::TableFull);
        }
        let template = self.templates.template(template).unwrap();
        let bytes = count as u64 * u64::from(threshold_texts(&template.thresholds));
        if bytes > u64::from(room) {
            return Err(Refusal::TextsFull);
        }
        Ok(())
    }

    /// Puts quotas on folders that have none, and those that are to be scanned into the queue, one after another. An
    /// `Err` changes nothing.
    pub(crate) fn receive(&mut self, rows: Vec<QuotaRow>) -> Result<(), NoMemory>
        requires sound { IsSound self.old }
        requires queue { IsQueue self.old.objects.quotas self.old.scans.queue }
        requires coming { AreComing self.old rows.items }
        ensures listed { OnOk result (Turned (record self.old { objects = record self.old.objects { room = self.new.objects.room } }) self.new (fold quotas_with self.old.objects.quotas rows.items) (fold queue_with self.old.scans.queue rows.items)) }
        ensures err { OnErr result (self.new ≡ self.old) }
        ensures sound { IsSound self.new }
    {
        if rows.is_empty() {
            return Ok(());
        }
        self.objects.make_room()?;
        self.receive_each(rows);
        Ok(())
    }

    // The same once there is memory for all quotas that there may be: then it can't fail.
    fn receive_each(&mut self, rows: Vec<QuotaRow>)
        requires sound { IsSound self.old }
        requires queue { IsQueue self.old.objects.quotas self.old.scans.queue }
        requires room { self.old.objects.room ≡ most_quotas }
        requires coming { AreComing self.old rows.items }
        ensures listed { Turned self.old self.new (fold quotas_with self.old.objects.quotas rows.items) (fold queue_with self.old.scans.queue rows.items) }
        ensures sound { IsSound self.new }
    {
        for row in rows {
            self.receive_one(row);
        }
    }

    // One of them. Nothing refuses it, and there is memory.
    fn receive_one(&mut self, row: QuotaRow)
        requires sound { IsSound self.old }
        requires queue { IsQueue self.old.objects.quotas self.old.scans.queue }
        requires room { self.old.objects.room ≡ most_quotas }
        requires coming { AreComing self.old (row ∷ []) }
        ensures listed { Turned self.old self.new (quotas_with self.old.objects.quotas row) (queue_with self.old.scans.queue row) }
        ensures sound { IsSound self.new }
    {
        self.enlist(row).unwrap();
    }
}
