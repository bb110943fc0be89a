//! The queue of scans.

ghost use Rattle.std.specs.Prelude.{◌≡◌, ◌<◌, ◌++◌, ◌==◌, ℕ, IfOk, Some, None, true, false, is_some, length, [], ◌∷◌};
ghost use Rattle.fsrm_model.specs.store.Capacities.{is_cluster};
ghost use Rattle.fsrm_base.specs.Numbers.{is_in, without_number};
ghost use Rattle.fsrm_model.specs.values.Limits.{most_quotas};
ghost use Rattle.fsrm_model.specs.objects.QuotaStates.{head as first};
ghost use Rattle.fsrm_model.specs.nodes.Tree.{is_folder};
ghost use Rattle.rescan.specs.Frontiers.{idle};
ghost use Rattle.rescan.specs.Beginnings.{Begins};
ghost use Rattle.rescan.specs.Courses.{Scanning, Turns};
ghost use Rattle.volume_tree.specs.Volume.{Volume};

use crate::frontier::Frontier;
use fsrm_model::NoMemory;
use fsrm_model::limits::MOST_QUOTAS;
use std::alloc::Global;
use std::marker::Model;

/// The folders whose scans wait, and the frontier of the active scan, whose folder is at the head.
/// Contracts see both.
#[derive(Drop)]
pub struct Scans {
    pub(crate) queue: Vec<u32>,
    pub(crate) frontier: Frontier,
}

impl Model for Scans {
    ghost use Rattle.rescan.specs.Courses.{Course};
    ghost use Rattle.rescan.specs.KeptQueue.{IsKeptScans};

    ghost Value = { Course };

    ghost view = { λ s. record { queue = s.queue.items; front = s.frontier } };

    ghost invariant = { λ s. IsKeptScans s.queue s.frontier };
}

impl Scans {
    /// An empty queue with memory for 4,096 folders, for scans of volumes of so many nodes at most, with clusters of
    /// so many bytes.
    pub fn reserve(alloc: Global, nodes: u32, cluster: u32) -> Result<Scans, NoMemory>
        requires { is_cluster cluster ≡ true }
        ensures { IfOk result (λ scans. scans ≡ record { queue = []; front = idle (record { nodes = nodes; cluster = cluster }) }) }
    {
        let queue = Vec::with_capacity(alloc, MOST_QUOTAS)?;
        let frontier = Frontier::reserve(alloc, nodes, cluster)?;
        Ok(Scans { queue, frontier })
    }

    /// How many scans wait, the active one among them.
    pub fn count(&self) -> usize
        ensures { result ≡ length self.now.queue }
    {
        self.queue.len()
    }

    /// The folder of the active scan.
    pub fn head(&self) -> Option<u32>
        ensures { result ≡ first self.now.queue }
    {
        self.queue.first().copied()
    }

    /// Whether a folder's scan waits, or is the active one.
    pub fn contains(&self, folder: u32) -> bool
        ensures { result ≡ is_in self.now.queue folder }
    {
        self.queue.contains(&folder)
    }

    /// Puts a folder to the end of the queue. If it is the only one its scan begins. It takes no memory.
    pub fn push(&mut self, folder: u32)
        requires room { folder < self.old.front.room.nodes }
        requires absent { is_in self.old.queue folder ≡ false }
        requires few { length self.old.queue < most_quotas }
        ensures queue { self.new.queue ≡ self.old.queue ++ folder ∷ [] }
        ensures turns { (v : Volume) → Scanning v self.old → is_folder v.nodes folder ≡ true → Turns self.old self.new v }
    {
        let scanning = self.is_scanning();
        self.queue.push(folder).unwrap();
        if !scanning {
            begin(Some(folder), &mut self.frontier);
        }
    }

    /// Takes a folder out of the queue, if it is there. If it was at the head its scan is given up,
    /// and the next one begins.
    pub fn leave(&mut self, folder: u32)
        ensures queue { self.new.queue ≡ without_number folder self.old.queue }
        ensures turns { (v : Volume) → Scanning v self.old → Turns self.old self.new v }
    {
        let active = self.head() == Some(folder);
        self.queue.retain(|&queued| queued != folder);
        if active {
            self.frontier.drop_scan();
            begin(self.queue.first().copied(), &mut self.frontier);
        }
    }

    /// Gives all scans up.
    pub fn clear(&mut self)
        ensures { self.new ≡ record { queue = []; front = idle self.old.front.room } }
    {
        self.queue.clear();
        self.frontier.drop_scan();
    }

    // Whether a scan is active. Without one nothing is unvisited.
    pub(crate) fn is_scanning(&self) -> bool
        ensures active { result ≡ is_some (first self.now.queue) }
        ensures idle { result ≡ false → self.now.front.tops ≡ [] }
    {
        !self.queue.is_empty()
    }
}

// Begins the scan of the folder at the head of a queue, if there is one. None is active before.
pub(crate) fn begin(head: Option<u32>, frontier: &mut Frontier)
    requires idle { frontier.old.folder ≡ None }
    requires empty { frontier.old.tops ≡ [] }
    requires room { (folder : ℕ) → head ≡ Some folder → folder < frontier.old.room.nodes }
    ensures { Begins frontier.old.room head frontier.new }
{
    if let Some(folder) = head {
        frontier.start(folder);
    }
}
