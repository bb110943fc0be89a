//! The frontier of a scan.

ghost use Rattle.std.specs.Prelude.{◌≡◌, ◌<◌, ◌==◌, IfOk, None, Some, true, length, [], ◌∷◌};
ghost use Rattle.fsrm_model.specs.store.Capacities.{is_cluster};
ghost use Rattle.fsrm_model.specs.objects.Scan.{folders_under};
ghost use Rattle.fsrm_model.specs.nodes.Tree.{is_folder, usage};
ghost use Rattle.fsrm_model.specs.store.Valid.{IsVolume};
ghost use Rattle.rescan.specs.Frontiers.{Stands, Follows, Suits, idle, scanned, unvisited as unvisited_of};
ghost use Rattle.volume_tree.specs.Volume.{Volume};

use fsrm_model::NoMemory;
use number_set::NumberSet;
use std::alloc::Global;
use std::marker::Model;
use volume_tree::Finger;

/// The folders that the active scan has still to visit, and the bytes that it has counted. Of the
/// unvisited folders it holds those whose parent is visited; what is below them is unvisited too.
///
/// Contracts see for which volumes it is, the folder that is scanned, these topmost folders, and the
/// sum.
#[derive(Drop)]
pub struct Frontier {
    pub(crate) folder: Option<u32>,
    pub(crate) tops: NumberSet,
    pub(crate) sum: u64,
    // The nodes that a walk through a folder has still to pass; empty between two calls.
    pub(crate) waiting: NumberSet,
    // Folders are visited in the order of their numbers, so the next one's children are near.
    pub(crate) finger: Finger,
    // The bytes of a cluster.
    pub(crate) cluster: u32,
}

impl Model for Frontier {
    ghost use Rattle.rescan.specs.Frontiers.{Front};
    ghost use Rattle.rescan.specs.Kept.{IsKept};

    ghost Value = { Front };

    ghost view = { λ f. record { room = record { nodes = f.tops.bound; cluster = f.cluster }; folder = f.folder; tops = f.tops.members; sum = f.sum } };

    ghost invariant = { λ f. IsKept f.folder f.tops f.sum f.waiting f.cluster };
}

impl Frontier {
    /// A frontier for scans of volumes of so many nodes at most, with clusters of so many bytes, and no
    /// scan.
    pub fn reserve(alloc: Global, nodes: u32, cluster: u32) -> Result<Frontier, NoMemory>
        requires { is_cluster cluster ≡ true }
        ensures { IfOk result (λ frontier. frontier ≡ idle (record { nodes = nodes; cluster = cluster })) }
    {
        let tops = NumberSet::reserve(alloc, nodes)?;
        let waiting = NumberSet::reserve(alloc, nodes)?;
        Ok(Frontier {
            folder: None,
            tops,
            sum: 0,
            waiting,
            finger: Finger::default(),
            cluster,
        })
    }

    /// Begins the scan of a folder, with all folders at and below it unvisited. None may be active.
    pub fn start(&mut self, folder: u32)
        requires idle { self.old.folder ≡ None }
        requires room { folder < self.old.room.nodes }
        ensures begun { self.new ≡ record { room = self.old.room; folder = Some folder; tops = folder ∷ []; sum = 0 } }
        ensures follows { (v : Volume) → IsVolume v.size v.nodes → Suits v.size self.old.room → is_folder v.nodes folder ≡ true → Follows self.new self.new v (folders_under v.nodes folder) }
    {
        // Nothing is counted if no scan was active.
        self.tops.insert(folder);
        self.folder = Some(folder);
    }

    /// The bytes that are counted so far.
    pub fn counted(&self) -> u64
        ensures { result ≡ self.now.sum }
    {
        self.sum
    }

    /// The folder of the active scan.
    pub fn folder(&self) -> Option<u32>
        ensures { result ≡ self.now.folder }
    {
        self.folder
    }

    /// Whether no folder is unvisited.
    pub fn done(&self) -> bool
        ensures tops { result ≡ (length self.now.tops == 0) }
        ensures done { (v : Volume) → Stands v self.now → result ≡ (length (unvisited_of v.nodes self.now) == 0) }
    {
        self.tops.is_empty()
    }

    /// Ends a scan that is done, and gives the bytes that the files at and below its folder take.
    pub fn finish(&mut self) -> u64
        requires { length self.old.tops ≡ 0 }
        ensures sum { result ≡ self.old.sum }
        ensures fresh { (v : Volume) → Stands v self.old → result ≡ usage v.size v.nodes (scanned self.old) }
        ensures idle { self.new ≡ idle self.old.room }
    {
        let sum = self.sum;
        self.drop_scan();
        sum
    }

    /// Gives the active scan up.
    pub fn drop_scan(&mut self)
        ensures { self.new ≡ idle self.old.room }
    {
        self.tops.clear();
        self.folder = None;
        self.sum = 0;
    }
}
