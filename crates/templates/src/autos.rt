//! The auto-apply quotas.

ghost use Rattle.std.specs.Prelude.{◌≡◌, ◌<◌, IfErr, IfSome, OnOk, OnErr, None, Some, true, false, length, slice_get};
ghost use Rattle.std.specs.Option.{option_copied};
ghost use Rattle.fsrm_base.specs.Keyed.{has_row, row_of};
ghost use Rattle.fsrm_model.specs.objects.AutoApply.{auto_folder, is_auto, template_for};
ghost use Rattle.fsrm_model.specs.values.Limits.{most_autos};
ghost use Rattle.fsrm_model.specs.objects.Templates.{template_number};
ghost use Rattle.templates.specs.Faults.{IsFault, auto_fault};
ghost use Rattle.templates.specs.Held.{with_auto, without_auto};

use crate::answer::TemplateFault;
use crate::rows;
use crate::templates::Templates;
use fsrm_model::{AutoRow, NoMemory};

impl Templates {
    /// Adds an auto-apply quota, whose template is there. It excludes at most 32 names.
    ///
    /// `room` is how many bytes of texts may still come. The auto-apply quota is refused if its folder has one
    /// (AlreadyExists), else if there are 1,024 of them (TableFull), else if the names that it excludes are longer than
    /// `room` (TextsFull). NoMemory comes only if nothing else refuses it. An `Err` changes nothing, and the row is
    /// dropped.
    pub fn add_auto(&mut self, row: AutoRow, room: u32) -> Result<(), TemplateFault>
        requires there { has_row template_number row.template self.old.templates ≡ true }
        requires valid { is_auto row ≡ true }
        ensures ok { OnOk result (self.new ≡ with_auto self.old row) }
        ensures may { OnOk result (auto_fault self.old row room ≡ None) }
        ensures refused { IfErr result (λ fault. IsFault fault (auto_fault self.old row room)) }
        ensures err { OnErr result (self.new ≡ self.old) }
    {
        self.admit_auto(&row, room)?;
        self.insert_auto(row)?;
        Ok(())
    }

    // Whether a new auto-apply quota may be added.
    #[tactic(auto, using(crate::proofs::PartLaws::auto_fits))]
    fn admit_auto(&self, row: &AutoRow, room: u32) -> Result<(), TemplateFault>
        requires { is_auto row.now ≡ true }
        ensures may { OnOk result (auto_fault self.now row.now room ≡ None) }
        ensures refused { IfErr result (λ fault. auto_fault self.now row.now room ≡ Some fault) }
    {
        if self.autos.has(row.folder) {
            return Err(TemplateFault::AlreadyExists);
        }
        if self.autos.is_full() {
            return Err(TemplateFault::TableFull);
        }
        if rows::auto_texts(row) > room {
            return Err(TemplateFault::TextsFull);
        }
        Ok(())
    }

    // Puts an auto-apply quota that nothing refuses into its place.
    #[tactic(auto, using(crate::proofs::PartLaws::auto_fits))]
    fn insert_auto(&mut self, row: AutoRow) -> Result<(), NoMemory>
        requires there { has_row template_number row.template self.old.templates ≡ true }
        requires valid { is_auto row ≡ true }
        requires free { has_row auto_folder row.folder self.old.autos ≡ false }
        requires few { length self.old.autos < most_autos }
        ensures ok { OnOk result (self.new ≡ with_auto self.old row) }
        ensures err { OnErr result (self.new ≡ self.old) }
    {
        self.autos.reserve(self.autos.len() + 1)?;
        self.autos.insert(row);
        Ok(())
    }

    /// Takes a folder's auto-apply quota away, which is there. The quotas that it gave stay.
    pub fn drop_auto(&mut self, folder: u32)
        requires { has_row auto_folder folder self.old.autos ≡ true }
        ensures { self.new ≡ without_auto self.old folder }
    {
        self.autos.remove(folder);
    }

    /// A folder's auto-apply quota, whose template is there.
    pub fn auto(&self, folder: u32) -> Option<&AutoRow>
        ensures found { option_copied result ≡ row_of auto_folder folder self.now.autos }
        ensures there { IfSome (row_of auto_folder folder self.now.autos) (λ auto. has_row template_number auto.template self.now.templates ≡ true) }
    {
        self.autos.get(folder)
    }

    /// The number of the template of which a folder of this name in this folder gets a quota. None if this folder has
    /// no auto-apply quota, or if that excludes the name. It takes no memory.
    pub fn template_for(&self, folder: u32, name: &str) -> Option<u32>
        ensures found { result ≡ template_for self.now.autos folder name.now }
        ensures there { IfSome result (λ number. has_row template_number number self.now.templates ≡ true) }
    {
        let auto = self.auto(folder)?;
        if rows::excludes(auto, name) {
            return None;
        }
        Some(auto.template)
    }

    /// How many auto-apply quotas there are, at most 1,024.
    pub fn auto_count(&self) -> u32
        ensures { result ≡ length self.now.autos }
    {
        self.autos.len()
    }

    /// The auto-apply quota at a place, from 0, in the order of the folders' numbers.
    pub fn auto_at(&self, place: u32) -> &AutoRow
        requires { place < length self.now.autos }
        ensures { slice_get self.now.autos place ≡ Some result.now }
    {
        self.autos.at(place)
    }
}
