//! The pieces of the image of an engine's rows.

ghost use Rattle.std.specs.Prelude.{◌≡◌, ◌≢◌, ◌+◌, ◌<◌, ◌^◌, None, Some, [], ◌∷◌, length, map, option_map, slice_get, true, IfSome, MatchOption};
ghost use Rattle.fsrm_base.specs.Keyed.{has_row, row_of};
ghost use Rattle.fsrm_model.specs.nodes.Tree.{number as key};
ghost use Rattle.fsrm_model.specs.store.Valid.{IsVolume};
ghost use Rattle.image_codec.specs.Pieces.{AuditPiece, NodePiece, StartPiece, lent, pieces};
ghost use Rattle.image_codec.specs.PiecesLeft.{row_count, row_pieces};
ghost use Rattle.image_codec.specs.declared.section.Section.TheVariants.{Nodes};
ghost use Rattle.fsrm_store.specs.EnginePieces.{engine_pieces_left, nodes_from, nodes_left, rows_left};

use fsrm_engine::Engine;
use fsrm_model::{Ledger, Steps};
use image_codec::{RowRef, Section};
use volume_tree::Tree;

/// The pieces of the image of an engine's rows from one on.
#[derive(Clone, Copy)]
pub struct EnginePieces<'e> {
    engine: &'e Engine,
    section: Section,
    // How many rows of the section were given; of the nodes, from which number on the next one is looked for.
    next: u32,
}

impl<'e> EnginePieces<'e> {
    /// All pieces of an engine's rows.
    pub fn new(engine: &'e Engine) -> EnginePieces<'e>
        ensures all { engine_pieces_left result ≡ pieces engine.now.rows }
        ensures engine { result.engine.now ≡ engine.now }
        ensures looks { nodes_left result ≡ length engine.now.rows.nodes }
    {
        EnginePieces {
            engine,
            section: Section::Start,
            next: 0,
        }
    }

    /// The next piece, or None at the end. It takes a look for a node, and none for another piece.
    #[tactic(auto, using(crate::proofs::EnginePieceLaws::row_first, crate::proofs::EnginePieceLaws::count_first, crate::proofs::EnginePieceLaws::all_given, crate::proofs::EnginePieceLaws::section_to_come))]
    pub fn next<L: Ledger>(&mut self, steps: &mut Steps<L>) -> Option<RowRef<'e>>
        ensures piece { MatchOption result ((engine_pieces_left self.old ≡ []) × (engine_pieces_left self.new ≡ [])) (λ piece. engine_pieces_left self.old ≡ lent piece ∷ engine_pieces_left self.new) }
        ensures engine { self.new.engine.now ≡ self.old.engine.now }
        ensures looks { steps.new + nodes_left self.new ≡ steps.old + nodes_left self.old }
    {
        if let Some(row) = self.next_row(steps) {
            return Some(row);
        }
        let Some(section) = self.section.next() else {
            return None;
        };
        self.section = section;
        self.next = 0;
        Some(RowRef::Count(count_of(self.engine, section)))
    }

    // The next row of the section.
    fn next_row<L: Ledger>(&mut self, steps: &mut Steps<L>) -> Option<RowRef<'e>>
        ensures row { MatchOption result ((rows_left self.old ≡ []) × (self.new ≡ self.old)) (λ row. rows_left self.old ≡ lent row ∷ rows_left self.new) }
        ensures section { self.new.section ≡ self.old.section }
        ensures engine { self.new.engine.now ≡ self.old.engine.now }
        ensures looks { steps.new + nodes_left self.new ≡ steps.old + nodes_left self.old }
    {
        match self.section {
            Section::Nodes => self.next_node(steps),
            _ => self.next_other(),
        }
    }

    #[tactic(auto, using(crate::proofs::EnginePieceLaws::node_none))]
    fn next_node<L: Ledger>(&mut self, steps: &mut Steps<L>) -> Option<RowRef<'e>>
        requires { self.old.section ≡ Nodes }
        ensures row { MatchOption result ((rows_left self.old ≡ []) × (self.new ≡ self.old)) (λ row. rows_left self.old ≡ lent row ∷ rows_left self.new) }
        ensures section { self.new.section ≡ self.old.section }
        ensures engine { self.new.engine.now ≡ self.old.engine.now }
        ensures looks { steps.new + nodes_left self.new ≡ steps.old + nodes_left self.old }
    {
        let tree = self.engine.tree();
        let Some(number) = next_live(tree, self.next) else {
            return None;
        };
        self.next = number + 1;
        Some(node_at(tree, number, steps))
    }

    fn next_other(&mut self) -> Option<RowRef<'e>>
        requires { self.old.section ≢ Nodes }
        ensures row { MatchOption result ((rows_left self.old ≡ []) × (self.new ≡ self.old)) (λ row. rows_left self.old ≡ lent row ∷ rows_left self.new) }
        ensures section { self.new.section ≡ self.old.section }
        ensures engine { self.new.engine.now ≡ self.old.engine.now }
        ensures looks { nodes_left self.new ≡ nodes_left self.old }
    {
        let place = self.next;
        if place >= count_of(self.engine, self.section) {
            return None;
        }
        self.next += 1;
        Some(row_at(self.engine, self.section, place))
    }
}

// The first node from a number on, if there is one.
fn next_live(tree: &Tree, from: u32) -> Option<u32>
    requires { IsVolume tree.now.size tree.now.nodes }
    ensures none { result ≡ None → nodes_from from tree.now.nodes ≡ [] }
    ensures there { IfSome result (λ n. has_row key n tree.now.nodes ≡ true) }
    ensures first { IfSome result (λ n. nodes_from from tree.now.nodes ≡ nodes_from n tree.now.nodes) }
    ensures fits { IfSome result (λ n. n + 1 < 2 ^ 32) }
{
    for number in from..tree.capacity().nodes {
        if tree.live(number) {
            return Some(number);
        }
    }
    None
}

fn node_at<'e, L: Ledger>(tree: &'e Tree, number: u32, steps: &mut Steps<L>) -> RowRef<'e>
    requires { has_row key number tree.now.nodes ≡ true }
    ensures row { option_map NodePiece (row_of key number tree.now.nodes) ≡ Some (lent result) }
    ensures count { steps.new ≡ steps.old + 1 }
{
    let node = tree.node(number, steps);
    RowRef::Node {
        number,
        parent: node.parent,
        name: node.name,
        folder: node.folder,
        length: node.length,
        owner: node.owner,
        created: node.created,
        modified: node.modified,
        accessed: node.accessed,
    }
}

// The row at a place of a section, but for that of the nodes.
fn row_at(engine: &Engine, section: Section, place: u32) -> RowRef<'_>
    requires place { place < row_count section engine.now.rows }
    requires other { section ≢ Nodes }
    ensures { slice_get (row_pieces section engine.now.rows) place ≡ Some (lent result) }
{
    let objects = engine.objects();
    match section {
        // The nodes come one after the other.
        Section::Start | Section::Nodes => start(engine),
        Section::Quotas => RowRef::Quota(objects.quota_at(place)),
        Section::Templates => RowRef::Template(engine.templates().template_at(place)),
        Section::Autos => RowRef::Auto(engine.templates().auto_at(place)),
        Section::Groups => RowRef::Group(engine.groups().at(place)),
        Section::Screens => RowRef::Screen(objects.screen_at(place)),
        Section::Excepts => RowRef::Except(objects.except_at(place)),
        Section::Jobs => RowRef::Job(objects.job_at(place)),
        Section::Acts => RowRef::Act(engine.marks().log_at(place)),
        Section::Audits => audit_at(engine, place),
    }
}

fn start(engine: &Engine) -> RowRef<'_>
    ensures { lent result ≡ StartPiece engine.now.rows.last_moment engine.now.rows.run_limit }
{
    let settings = engine.settings();
    RowRef::Start {
        last_moment: settings.last_moment,
        run_limit: settings.run_limit,
    }
}

fn audit_at(engine: &Engine, place: u32) -> RowRef<'_>
    requires { place < length engine.now.rows.audits }
    ensures { slice_get (map AuditPiece engine.now.rows.audits) place ≡ Some (lent result) }
{
    let entry = engine.audit().at(place);
    RowRef::Audit {
        moment: entry.moment,
        active: entry.active,
        owner: entry.owner,
        folder: entry.folder,
        screen: entry.screen,
        name: entry.name,
    }
}

// How many rows a section has.
fn count_of(engine: &Engine, section: Section) -> u32
    ensures { result ≡ row_count section engine.now.rows }
{
    let objects = engine.objects();
    match section {
        Section::Start => 1,
        Section::Nodes => engine.tree().count(),
        Section::Quotas => objects.quota_count(),
        Section::Templates => engine.templates().template_count(),
        Section::Autos => engine.templates().auto_count(),
        Section::Groups => engine.groups().count(),
        Section::Screens => objects.screen_count(),
        Section::Excepts => objects.except_count(),
        Section::Jobs => objects.job_count(),
        Section::Acts => engine.marks().log_len(),
        Section::Audits => engine.audit().len(),
    }
}
