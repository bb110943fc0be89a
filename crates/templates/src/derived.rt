//! Quotas that are derived from a template, and what its change makes of them.

ghost use Rattle.std.specs.Prelude.{◌≡◌, ◌+◌, IfOk, IfErr, OnOk, OnErr, None, Some, true, false, filter, map, nat_lt, option_map};
ghost use Rattle.std.specs.List.{list_all};
ghost use Rattle.fsrm_base.specs.Keyed.{has_row, is_ascending, row_of};
ghost use Rattle.fsrm_model.specs.declared.row.QuotaRow.{QuotaRow};
ghost use Rattle.fsrm_model.specs.declared.row.TemplateRow.{TemplateRow};
ghost use Rattle.fsrm_model.specs.objects.Quota.{folder_of};
ghost use Rattle.fsrm_model.specs.objects.Templates.{as_template, derived, is_reached, is_template, template_name, template_number, template_of, updated};
ghost use Rattle.fsrm_model.specs.objects.Thresholds.{are_too_many};
ghost use Rattle.fsrm_model.specs.values.Texts.{template_bytes};
ghost use Rattle.fsrm_objects.specs.Tables.{has_short_texts, quota_texts, with_other as with_quota_put};
ghost use Rattle.templates.specs.Faults.{IsFault, modify_fault, update_fault};
ghost use Rattle.templates.specs.Held.{reached_by, updated_by, with_other};
ghost use Rattle.templates.specs.Reached.{has_thresholds, keeps, stand_apart, were, whole};

use crate::answer::TemplateFault;
use crate::matching::{has_thresholds, is_reached};
use crate::reached::{Reached, Was};
use crate::rows::template_texts;
use crate::templates::Templates;
use fsrm_model::{Duplicate, List, NoMemory, QuotaRow, QuotaState, TemplateRow, Threshold, Update};
use fsrm_objects::{Objects, threshold_texts};
use std::alloc::Global;

impl Templates {
    /// The quota that the template of a number, which is there, gives a folder at a moment: in this state, with a peak
    /// of 0.
    pub fn derive(
        &self,
        alloc: Global,
        number: u32,
        folder: u32,
        state: QuotaState,
        moment: u64,
    ) -> Result<QuotaRow, NoMemory>
        requires { has_row template_number number self.now.templates ≡ true }
        ensures { IfOk result (λ row. (template : TemplateRow) → template_of self.now.templates number ≡ Some template → row ≡ derived template folder state moment) }
    {
        derived(alloc, self.there(number), folder, state, moment)
    }

    /// Puts this row in the place of the template of its number, which has its name, and gives the quotas that were
    /// derived from the template what it says now: its limit, its type and its thresholds, whose actions never ran. By
    /// `mode` it reaches none of them, those that match the template as it was, or all. All else of a quota stays. The
    /// answer is the quotas that it reached, as they were.
    ///
    /// `room` is how many bytes of texts may still come. The change is refused, by TextsFull alone, if the texts of all
    /// templates and quotas after it, less those before it, are longer than `room`; else NoMemory alone may come. An
    /// `Err` changes nothing, and the row is dropped.
    #[tactic(auto, using(crate::proofs::HeldLaws::named_there, crate::proofs::UpdateLaws::update_due))]
    pub fn modify(
        &mut self,
        alloc: Global,
        objects: &mut Objects,
        row: TemplateRow,
        mode: Update,
        room: u32,
    ) -> Result<Reached, TemplateFault>
        requires named { option_map template_name (template_of self.old.templates row.number) ≡ Some row.name }
        requires valid { is_template row ≡ true }
        ensures ok { OnOk result (self.new ≡ with_other self.old row) }
        ensures quotas { OnOk result (objects.new ≡ record objects.old { quotas = updated_by self.old row mode objects.old.quotas }) }
        ensures reached { IfOk result (λ reached. were reached ≡ reached_by self.old row mode objects.old.quotas) }
        ensures apart { IfOk result (λ reached. reached.thresholds ≡ row.thresholds) }
        ensures may { OnOk result (modify_fault self.old objects.old.quotas row mode room ≡ None) }
        ensures refused { IfErr result (λ fault. IsFault fault (modify_fault self.old objects.old.quotas row mode room)) }
        ensures err { OnErr result (self.new ≡ self.old) }
        ensures kept { OnErr result (objects.new ≡ objects.old) }
    {
        let old = self.there(row.number);
        let reached = update(alloc, objects, old, &row, mode, room)?;
        self.replace(row);
        Ok(reached)
    }
}

// The quota that a template gives a folder.
fn derived(
    alloc: Global,
    template: &TemplateRow,
    folder: u32,
    state: QuotaState,
    moment: u64,
) -> Result<QuotaRow, NoMemory>
    ensures { IfOk result (λ row. row ≡ derived template.now folder state moment) }
{
    Ok(QuotaRow {
        folder,
        limit: template.limit,
        enforce: template.enforce,
        state,
        thresholds: template.thresholds.copy(alloc)?,
        template: Some(template.number),
        peak: 0,
        peak_at: moment,
    })
}

// Gives the quotas that a template's change reaches what it says now (`new`). The answer is these quotas, as they were.
fn update(
    alloc: Global,
    objects: &mut Objects,
    old: &TemplateRow,
    new: &TemplateRow,
    mode: Update,
    room: u32,
) -> Result<Reached, TemplateFault>
    requires old { is_template old.now ≡ true }
    requires new { is_template new.now ≡ true }
    ensures ok { OnOk result (objects.new ≡ record objects.old { quotas = map (updated mode old.now new.now) objects.old.quotas }) }
    ensures reached { IfOk result (λ reached. were reached ≡ filter (is_reached mode old.now) objects.old.quotas) }
    ensures apart { IfOk result (λ reached. reached.thresholds ≡ new.now.thresholds) }
    ensures may { OnOk result (update_fault old.now new.now objects.old.quotas mode room ≡ None) }
    ensures refused { IfErr result (λ fault. IsFault fault (update_fault old.now new.now objects.old.quotas mode room)) }
    ensures err { OnErr result (objects.new ≡ objects.old) }
{
    let same = all_keep(objects, old, new, mode);
    if is_long_update(objects, old, new, mode, same, room) {
        return Err(TemplateFault::TextsFull);
    }
    let mut thresholds = new.thresholds.copy(alloc)?;
    let mut rows = updated_quotas(alloc, objects, old, new, mode, same)?;
    for place in 0..rows.len() {
        let was = rows.get_mut(place).unwrap();
        // That the texts of all of them fit was judged at once, before any was put (`is_long_update`).
        exchange(objects, was, &mut thresholds);
    }
    Ok(Reached { rows, thresholds })
}

// Has a quota and that of its folder change places. If its thresholds stand apart, so do those of the other one then,
// which are the same.
fn exchange(objects: &mut Objects, was: &mut Was, thresholds: &mut List<Threshold>)
    requires there { has_row folder_of was.old.row.folder objects.old.quotas ≡ true }
    requires short { are_too_many (whole thresholds.old was.old).thresholds ≡ false }
    requires texts { has_short_texts (whole thresholds.old was.old) ≡ true }
    requires alike { was.old.same ≡ true → (quota : QuotaRow) → row_of folder_of was.old.row.folder objects.old.quotas ≡ Some quota → quota.thresholds ≡ thresholds.old }
    ensures put { objects.new ≡ with_quota_put objects.old (whole thresholds.old was.old) }
    ensures replaced { row_of folder_of was.old.row.folder objects.old.quotas ≡ Some (whole thresholds.old was.new) }
    ensures same { was.new.same ≡ was.old.same }
    ensures stay { thresholds.new ≡ thresholds.old }
{
    was.trade(thresholds);
    objects.put_quota(&mut was.row);
    was.trade(thresholds);
}

// Whether each quota keeps its thresholds: the change doesn't reach it, or it has those of the template already. Mostly
// all do, and then their texts need not be counted.
fn all_keep(objects: &Objects, old: &TemplateRow, new: &TemplateRow, mode: Update) -> bool
    ensures { result ≡ list_all (keeps mode old.now new.now) objects.now.quotas }
{
    for place in 0..objects.quota_count() {
        if !keeps(mode, old, new, objects.quota_at(place)) {
            return false;
        }
    }
    true
}

// Whether a quota keeps its thresholds.
fn keeps(mode: Update, old: &TemplateRow, new: &TemplateRow, quota: &QuotaRow) -> bool
    ensures { result ≡ keeps mode old.now new.now quota.now }
{
    !is_reached(mode, old, quota) || has_thresholds(new, quota)
}

// Whether the texts of a template and of all quotas after its change, less those before it, are longer than the room. If
// `same` is set all quotas keep their thresholds.
#[tactic(auto, using(crate::proofs::UpdateLaws::fitting))]
fn is_long_update(
    objects: &Objects,
    old: &TemplateRow,
    new: &TemplateRow,
    mode: Update,
    same: bool,
    room: u32,
) -> bool
    requires old { is_template old.now ≡ true }
    requires new { is_template new.now ≡ true }
    requires same { same ≡ true → list_all (keeps mode old.now new.now) objects.now.quotas ≡ true }
    ensures { result ≡ nat_lt (room + (template_bytes old.now + quota_texts objects.now.quotas)) (template_bytes new.now + quota_texts (map (updated mode old.now new.now) objects.now.quotas)) }
{
    let mut before = u64::from(room) + u64::from(template_texts(old));
    let mut after = u64::from(template_texts(new));
    if same {
        return before < after;
    }
    let each = u64::from(threshold_texts(&new.thresholds));
    for place in 0..objects.quota_count() {
        let quota = objects.quota_at(place);
        if is_reached(mode, old, quota) {
            before += u64::from(threshold_texts(&quota.thresholds));
            after += each;
        }
    }
    before < after
}

// What a template's change makes of the quotas that it reaches, in the order of their folders. If `same` is set all
// quotas keep their thresholds.
fn updated_quotas(
    alloc: Global,
    objects: &Objects,
    old: &TemplateRow,
    new: &TemplateRow,
    mode: Update,
    same: bool,
) -> Result<List<Was>, NoMemory>
    requires { same ≡ true → list_all (keeps mode old.now new.now) objects.now.quotas ≡ true }
    ensures made { IfOk result (λ rows. map (whole new.now.thresholds) rows ≡ map (as_template new.now) (filter (is_reached mode old.now) objects.now.quotas)) }
    ensures alike { IfOk result (λ rows. map stand_apart rows ≡ map (has_thresholds new.now) (filter (is_reached mode old.now) objects.now.quotas)) }
    ensures ascending { is_ascending folder_of objects.now.quotas ≡ true }
{
    let mut rows = List::new(alloc);
    for place in 0..objects.quota_count() {
        let quota = objects.quota_at(place);
        if is_reached(mode, old, quota) {
            let apart = stands_apart(new, quota, same);
            rows.push(as_template(alloc, new, quota, apart)?)?;
        }
    }
    Ok(rows)
}

// Whether a quota has the thresholds of a template. If `same` is set it is known to.
fn stands_apart(template: &TemplateRow, quota: &QuotaRow, same: bool) -> bool
    requires { same ≡ true → has_thresholds template.now quota.now ≡ true }
    ensures { result ≡ has_thresholds template.now quota.now }
{
    same || has_thresholds(template, quota)
}

// A quota with the limit, the type and the thresholds of a template, which may stand apart.
fn as_template(
    alloc: Global,
    template: &TemplateRow,
    quota: &QuotaRow,
    apart: bool,
) -> Result<Was, NoMemory>
    ensures row { IfOk result (λ was. whole template.now.thresholds was ≡ as_template template.now quota.now) }
    ensures apart { IfOk result (λ was. was.same ≡ apart) }
{
    Ok(Was {
        row: QuotaRow {
            folder: quota.folder,
            limit: template.limit,
            enforce: template.enforce,
            state: quota.state,
            thresholds: own_thresholds(alloc, template, apart)?,
            template: quota.template,
            peak: quota.peak,
            peak_at: quota.peak_at,
        },
        same: apart,
    })
}

// The thresholds of a template, unless they stand apart.
fn own_thresholds(
    alloc: Global,
    template: &TemplateRow,
    apart: bool,
) -> Result<List<Threshold>, NoMemory>
    ensures { IfOk result (λ thresholds. apart ≡ false → thresholds ≡ template.now.thresholds) }
{
    if apart {
        return Ok(List::new(alloc));
    }
    template.thresholds.copy(alloc)
}
