//! The change to the other half, with an image of an engine's rows.

ghost use Rattle.std.specs.Prelude.{◌≡◌, ◌+◌, ◌*◌, ◌≤◌, ℕ, List, [], true, length, Err, IfOk, OnErr, OnOk};
ghost use Rattle.std.specs.List.{list_all};
ghost use Rattle.fsrm_model.specs.declared.row.Rows.{Rows};
ghost use Rattle.fsrm_model.specs.store.Capacities.{is_capacity};
ghost use Rattle.fsrm_model.specs.store.Lasting.{lasting};
ghost use Rattle.fsrm_model.specs.store.Valid.{IsValid};
ghost use Rattle.fsrm_outside.specs.Causes.{HasCause};
ghost use Rattle.fsrm_outside.specs.Moments.{EachImage};
ghost use Rattle.fsrm_outside.specs.Parts.{other};
ghost use Rattle.fsrm_journal.specs.Halves.{IsNext};
ghost use Rattle.fsrm_journal.specs.Legal.{IsLegal};
ghost use Rattle.fsrm_journal.specs.Opened.{HoldsOn};
ghost use Rattle.fsrm_journal.specs.Stores.{Stands};
ghost use Rattle.fsrm_journal.specs.declared.fault.JournalFault.TheVariants.{DiskFault};
ghost use Rattle.fsrm_journal.specs.declared.heads.Head.{Head};
ghost use Rattle.image_codec.specs.Pieces.{piece_meets, pieces};
ghost use Rattle.image_codec.specs.PiecesLeft.{piece_fits};
ghost use Rattle.fsrm_store.specs.Keeps.{HoldsState, Keeps};
ghost use Rattle.fsrm_store.specs.NewHalf.{HasImage, IsReady};

use crate::image::{image_len, put_image};
use fsrm_engine::Engine;
use fsrm_journal::{Head, Journal, JournalFault};
use fsrm_model::{Capacity, Ledger, Steps};
use fsrm_outside::Disk;

// The size of an engine's store. Its rows are valid, and each of them can be written.
#[tactic(auto, using(crate::proofs::ImageLaws::fits_of))]
fn size_of(engine: &Engine) -> Capacity
    ensures size { result ≡ engine.now.size }
    ensures legal { is_capacity result ≡ true }
    ensures valid { IsValid engine.now.size engine.now.rows }
    ensures fits { list_all piece_fits (pieces engine.now.rows) ≡ true }
    ensures meets { list_all piece_meets (pieces engine.now.rows) ≡ true }
{
    // The objects are lent of valid rows alone.
    let _objects = engine.objects();
    engine.tree().capacity()
}

// The head of the half that is to rule next, with an image of so many bytes.
#[tactic(auto, using(crate::proofs::ImageLaws::legal_head))]
fn next_head(journal: &Journal, size: Capacity, image: u64) -> Head
    requires { is_capacity size ≡ true }
    ensures legal { IsLegal result }
    ensures next { IsNext journal.now.generation result.generation }
    ensures size { result.size ≡ size }
    ensures image { result.image ≡ image }
    ensures version { result.version ≡ 2 }
{
    Head {
        generation: journal.next_generation(),
        version: 2,
        size,
        image,
    }
}

/// Gives the other half an image of an engine's rows, and has it rule. Answers how many bytes the image has.
pub fn change_half<D: Disk, L: Ledger>(
    journal: &mut Journal,
    disk: &mut D,
    engine: &Engine,
    buffer: &mut [u8],
    steps: &mut Steps<L>,
) -> Result<u64, JournalFault>
    requires room { 327680 ≤ length buffer.old }
    requires ready { IsReady D.reads journal.old disk.old }
    ensures leaves { (kept : Rows) (was : Head) (image : List ℕ) (bodies : List (List ℕ)) → Stands D.reads D.disk_clock D.images was image bodies journal.old disk.old
        → Keeps kept was image bodies [] engine.now.rows → was.size ≡ engine.now.size
        → EachImage D.disk_clock D.images (HoldsState engine.now.size (lasting engine.now.rows)) disk.old disk.new }
    ensures store { (kept : Rows) (was : Head) (image : List ℕ) (bodies : List (List ℕ)) → Stands D.reads D.disk_clock D.images was image bodies journal.old disk.old
        → Keeps kept was image bodies [] engine.now.rows → was.size ≡ engine.now.size
        → IfOk result (λ n. HasImage D.reads D.disk_clock D.images engine.now.size engine.now.rows n journal.new disk.new) }
    ensures held { HoldsOn journal.old journal.new }
    ensures turned { OnOk result (journal.new.ruling ≡ other journal.old.ruling) }
    ensures empty { OnOk result (journal.new.end ≡ journal.new.image_end) }
    ensures ready { OnOk result (IsReady D.reads journal.new disk.new) }
    ensures looks { steps.new ≤ steps.old + 2 * length engine.now.rows.nodes }
    ensures by { D.by_disk disk.old disk.new }
    ensures only { OnErr result (result ≡ Err DiskFault) }
    ensures cause { HasCause (D.disk_faults disk.old) (D.disk_faults disk.new) result }
{
    let size = size_of(engine);
    let image = image_len(engine, steps);
    let head = next_head(journal, size, image);
    journal.begin_half(disk, &head)?;
    put_image(journal, disk, engine, buffer, steps)?;
    journal.switch(disk)?;
    Ok(image)
}
