//! Moves: what moves is taken from the quotas on the old way up and given to those on the new one. A folder may get a
//! quota at its new place.

ghost use Rattle.std.specs.Prelude.{◌≡◌, ℕ, ◌+◌, ◌*◌, ◌≤◌, true, length, IfErr, IfOk, OnErr, Some};
ghost use Rattle.fsrm_model.specs.declared.command.Deed.TheVariants.{File};
ghost use Rattle.fsrm_model.specs.declared.command.FileOp.TheVariants.{Move};
ghost use Rattle.fsrm_model.specs.commands.Check.{first};
ghost use Rattle.fsrm_model.specs.commands.Cost.{deed_cost};
ghost use Rattle.fsrm_model.specs.commands.FileWork.{file_effect, move_checks};
ghost use Rattle.fsrm_model.specs.texts.Text.{is_bare};
ghost use Rattle.fsrm_model.specs.nodes.Tree.{under};
ghost use Rattle.fsrm_model.specs.store.Valid.{IsVolume};
ghost use Rattle.fsrm_engine.specs.Machine.{Does, IsReady, IsSound, rows_of};
ghost use Rattle.fsrm_engine.specs.Memory.{may_want_memory};
ghost use Rattle.fsrm_engine.specs.Moves.{IsMove, MayMove, change_of};

use crate::parts::Parts;
use file_screens::Blocked;
use fsrm_model::{Answer, Ledger, NoMemory, Path, Refusal, Steps};
use fsrm_parts::{
    Moving, arrange_for_move, blocking, moved_bytes, moved_source, place_at, refusal_of, refused,
};
use quota_usage::Change;
use std::alloc::Global;
use volume_tree::ReadyMove;

impl Parts {
    // What is to move, and the move that the tree has ready. Or why it can't be made.
    fn ready_move<'a, L: Ledger>(
        &self,
        from: &Path,
        to: &'a Path,
        steps: &mut Steps<L>,
    ) -> Result<(Moving<'a>, ReadyMove<'a>), Refusal>
        requires { IsVolume self.now.tree.size self.now.tree.nodes }
        ensures ok { IfOk result (λ found. IsMove self.now.tree from.now to.now found.0) }
        ensures ready { IfOk result (λ found. found.1 ≡ record { node = found.0.node; folder = found.0.place.folder; name = found.0.place.name.now }) }
        ensures err { IfErr result (λ refusal. (moment : ℕ) → first (move_checks self.now.tree.size (rows_of self.now) from.now to.now (file_effect (rows_of self.now) (Move from.now to.now) moment)) ≡ Some refusal) }
        ensures bare { IfErr result (λ refusal. is_bare refusal ≡ true) }
        ensures looks { steps.new ≤ steps.old + (22 * length from.now + 23 * length to.now + 27) }
    {
        let Some(node) = self.tree.resolve(from, steps) else {
            return Err(Refusal::PathNotFound);
        };
        if node == 0 {
            return Err(Refusal::InvalidMove);
        }
        let place = match place_at(&self.tree, to, steps) {
            Ok(place) => place,
            Err(refusal) => return Err(refusal),
        };
        let ready = match self.tree.ready_move(node, place.folder, place.name, steps) {
            Ok(ready) => ready,
            Err(fault) => return Err(refusal_of(fault)),
        };
        let view = self.tree.node(node, steps);
        let moving = Moving {
            node,
            parent: view.parent,
            owner: view.owner,
            folder: view.folder,
            place,
        };
        Ok((moving, ready))
    }

    /// Moves a file, or a folder with all that is in it, if no screen blocks the file's new name and no quota refuses
    /// it. A folder gets a quota if its new place gives it one. Memory can run out only for a folder.
    pub(crate) fn move_path<L: Ledger>(
        &mut self,
        alloc: Global,
        from: &Path,
        to: &Path,
        moment: u64,
        steps: &mut Steps<L>,
    ) -> Result<Answer, NoMemory>
        requires ready { IsReady self.old moment }
        ensures ok { IfOk result (λ answer. Does self.old self.new moment (File (Move from.now to.now)) answer) }
        ensures memory { OnErr result (may_want_memory (rows_of self.old) (File (Move from.now to.now)) ≡ true) }
        ensures err { OnErr result (self.new ≡ self.old) }
        ensures sound { IsSound self.new }
        ensures looks { steps.new ≤ steps.old + deed_cost (rows_of self.old) (File (Move from.now to.now)) }
    {
        let (moving, ready) = match self.ready_move(from, to, steps) {
            Ok(found) => found,
            Err(refusal) => return Ok(refused(refusal)),
        };
        arrange_for_move(&mut self.tree, &moving);
        self.move_ready(alloc, from, to, &moving, ready, moment, steps)
    }

    // The same of a move that the tree has ready. What made it ready is counted.
    fn move_ready<L: Ledger>(
        &mut self,
        alloc: Global,
        from: &Path,
        to: &Path,
        moving: &Moving<'_>,
        ready: ReadyMove<'_>,
        moment: u64,
        steps: &mut Steps<L>,
    ) -> Result<Answer, NoMemory>
        requires ready { IsReady self.old moment }
        requires moves { IsMove self.old.tree from.now to.now moving.now }
        requires ready_move { ready ≡ record { node = moving.now.node; folder = moving.now.place.folder; name = moving.now.place.name.now } }
        ensures ok { IfOk result (λ answer. Does self.old self.new moment (File (Move from.now to.now)) answer) }
        ensures memory { OnErr result (may_want_memory (rows_of self.old) (File (Move from.now to.now)) ≡ true) }
        ensures err { OnErr result (self.new ≡ self.old) }
        ensures sound { IsSound self.new }
        ensures looks { steps.new + (22 * length from.now + 23 * length to.now + 27) ≤ steps.old + deed_cost (rows_of self.old) (File (Move from.now to.now)) }
    {
        let source = moved_source(&self.templates, &self.objects, moving);
        if let Err(refusal) = self.may_come(source) {
            return Ok(refused(refusal));
        }
        let place = moving.place;
        let judged = self.judge_moved(moving.folder, place.folder, place.name, steps);
        if let Some(active) = blocking(judged) {
            return Ok(self.block(active, moving.owner, place.folder, place.name, moment));
        }
        let bytes = moved_bytes(&self.tree, &self.objects, alloc, moving, source, steps)?;
        let change = Change {
            from: Some(moving.parent),
            to: Some(place.folder),
            minus: bytes,
            plus: bytes,
        };
        if let Err(exceeded) = self.admit(&change, steps) {
            return Ok(self.refuse(exceeded, moment));
        }
        self.make_move(
            alloc, from, to, moving, ready, source, judged, &change, moment, steps,
        )
    }

    // Makes a move that nothing refuses. The paths stand here for the clauses alone.
    fn make_move<L: Ledger>(
        &mut self,
        alloc: Global,
        from: &Path,
        to: &Path,
        moving: &Moving<'_>,
        ready: ReadyMove<'_>,
        source: Option<u32>,
        judged: Option<Blocked>,
        change: &Change,
        moment: u64,
        steps: &mut Steps<L>,
    ) -> Result<Answer, NoMemory>
        requires ready { IsReady self.old moment }
        requires may { MayMove self.old from.now to.now moving.now source judged change.now.minus }
        requires change { change.now ≡ change_of moving.now change.now.minus }
        requires ready_move { ready ≡ record { node = moving.now.node; folder = moving.now.place.folder; name = moving.now.place.name.now } }
        ensures ok { IfOk result (λ answer. Does self.old self.new moment (File (Move from.now to.now)) answer) }
        ensures memory { OnErr result (moving.now.folder ≡ true) }
        ensures err { OnErr result (self.new ≡ self.old) }
        ensures sound { IsSound self.new }
        ensures looks { steps.new ≤ steps.old + (4 * length (under self.old.tree.nodes moving.now.node) + 5 * (length from.now + length to.now) + 46) }
    {
        self.receive_moved(alloc, source, moving.node, moment, steps)?;
        self.scans
            .follow_move(&self.tree, moving.node, moving.place.folder, steps);
        self.tree.make_move(ready, steps);
        Ok(self.end_named(judged, moving.owner, moving.place, change, moment, steps))
    }
}
