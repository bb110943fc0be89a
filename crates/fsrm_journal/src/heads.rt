//! Heads of halves, and which half rules.

ghost use Rattle.std.specs.Prelude.{◌≡◌, ◌≢◌, ◌≤◌, length, drop, IsTrue, Err};
ghost use Rattle.byteorder.specs.Endian.{little_number};
ghost use Rattle.fsrm_model.specs.store.Capacities.{is_cluster as is_cluster_size};
ghost use Rattle.fsrm_journal.specs.HeadSays.{head_says};
ghost use Rattle.fsrm_journal.specs.declared.fault.JournalFault.TheVariants.{AlreadyStore};
ghost use Rattle.fsrm_journal.specs.Heads.{head_fault, half_fault, has_zeros, has_magic, has_generation, has_version, has_nodes, has_names, has_cluster, has_image, is_cluster, is_open, is_version, judged, ruling, generation_at};

use crate::fault::JournalFault;
use byteorder::{ByteOrder, LittleEndian};
use fsrm_model::Capacity;
use fsrm_model::limits::{MOST_NAMES, MOST_NODES};
use fsrm_outside::Part;

// `FSRMHALF`, as a number.
pub const MAGIC: u64 = 0x464c_4148_4d52_5346;

const CLUSTER_SIZES: [u32; 8] = [512, 1_024, 2_048, 4_096, 8_192, 16_384, 32_768, 65_536];

/// What stands before the image of a half.
#[derive(Clone, Copy, Debug, PartialEq, Eq)]
pub struct Head {
    /// At least 1. The half with the greater one rules.
    pub generation: u64,
    /// 1 or 2.
    pub version: u32,
    pub size: Capacity,
    /// How many bytes the image has.
    pub image: u64,
}

/// What a whole head says.
pub fn head_says(head: &[u8]) -> Head
    requires { 48 ≤ length head.now }
    ensures { result ≡ head_says head.now }
{
    Head {
        generation: generation_at(head),
        version: LittleEndian::read_u32(&head[24..]),
        size: Capacity {
            nodes: LittleEndian::read_u32(&head[28..]),
            names: LittleEndian::read_u32(&head[32..]),
            cluster: LittleEndian::read_u32(&head[36..]),
        },
        image: LittleEndian::read_u64(&head[40..]),
    }
}

/// Whether its gate is open.
pub fn is_open(head: &[u8]) -> bool
    ensures { result ≡ is_open head.now }
{
    !head.is_empty() && head[0] == 1
}

fn is_version(version: u32) -> bool
    ensures { result ≡ is_version version }
{
    version == 1 || version == 2
}

fn is_cluster(version: u32, cluster: u32) -> bool
    ensures { result ≡ is_cluster version cluster }
{
    cluster == 4_096 || version == 2 && is_cluster_size(cluster)
}

fn is_cluster_size(bytes: u32) -> bool
    ensures { result ≡ is_cluster_size bytes }
{
    CLUSTER_SIZES.contains(&bytes)
}

#[tactic(auto, unfolding(crate::specs::Heads::has_zeros))]
fn has_zeros(head: &[u8]) -> bool
    ensures { result ≡ has_zeros head.now }
{
    head.len() >= 8 && LittleEndian::read_uint(&head[1..], 7) == 0
}

#[tactic(auto, unfolding(crate::specs::Heads::has_magic))]
fn has_magic(head: &[u8]) -> bool
    ensures { result ≡ has_magic head.now }
{
    head.len() >= 16 && LittleEndian::read_u64(&head[8..]) == MAGIC
}

fn generation_at(head: &[u8]) -> u64
    requires { 24 ≤ length head.now }
    ensures { result ≡ generation_at head.now }
{
    LittleEndian::read_u64(&head[16..])
}

#[tactic(auto, unfolding(crate::specs::Heads::has_generation))]
fn has_generation(head: &[u8]) -> bool
    ensures { result ≡ has_generation head.now }
{
    head.len() >= 24 && generation_at(head) >= 1
}

#[tactic(auto, unfolding(crate::specs::Heads::has_version))]
fn has_version(head: &[u8]) -> bool
    ensures { result ≡ has_version head.now }
{
    head.len() >= 28 && is_version(LittleEndian::read_u32(&head[24..]))
}

#[tactic(auto, unfolding(crate::specs::Heads::has_nodes))]
fn has_nodes(head: &[u8]) -> bool
    ensures { result ≡ has_nodes head.now }
{
    if head.len() < 32 {
        return false;
    }
    let nodes = LittleEndian::read_u32(&head[28..]);
    2 <= nodes && nodes <= MOST_NODES
}

#[tactic(auto, unfolding(crate::specs::Heads::has_names))]
fn has_names(head: &[u8]) -> bool
    ensures { result ≡ has_names head.now }
{
    if head.len() < 36 {
        return false;
    }
    let names = LittleEndian::read_u32(&head[32..]);
    256 <= names && names <= MOST_NAMES
}

#[tactic(auto, unfolding(crate::specs::Heads::has_cluster))]
fn has_cluster(head: &[u8]) -> bool
    ensures { result ≡ has_cluster head.now }
{
    head.len() >= 40
        && is_cluster(
            LittleEndian::read_u32(&head[24..]),
            LittleEndian::read_u32(&head[36..]),
        )
}

#[tactic(auto, unfolding(crate::specs::Heads::has_image))]
fn has_image(head: &[u8]) -> bool
    ensures { result ≡ has_image head.now }
{
    head.len() >= 48
}

// The place of the first field that is missing, cut or not legal.
#[tactic(auto, using(crate::proofs::HeadLaws::chosen))]
fn head_fault(head: &[u8]) -> Option<u64>
    ensures { result ≡ head_fault head.now }
{
    if !has_zeros(head) {
        return Some(1);
    }
    if !has_magic(head) {
        return Some(8);
    }
    if !has_generation(head) {
        return Some(16);
    }
    if !has_version(head) {
        return Some(24);
    }
    if !has_nodes(head) {
        return Some(28);
    }
    if !has_names(head) {
        return Some(32);
    }
    if !has_cluster(head) {
        return Some(36);
    }
    if !has_image(head) {
        return Some(40);
    }
    None
}

fn half_fault(head: &[u8]) -> Option<u64>
    ensures { result ≡ half_fault head.now }
{
    if head.is_empty() {
        return Some(0);
    }
    if is_open(head) {
        return head_fault(head);
    }
    None
}

fn ruling(zero: &[u8], one: &[u8]) -> Result<Part, JournalFault>
    requires zero { IsTrue (is_open zero.now) → 24 ≤ length zero.now }
    requires one { IsTrue (is_open one.now) → 24 ≤ length one.now }
    ensures ruling { result ≡ ruling zero.now one.now }
    ensures only { result ≢ Err AlreadyStore }
{
    if !is_open(one) {
        return Ok(Part::Zero);
    }
    if !is_open(zero) {
        return Ok(Part::One);
    }
    let (first, second) = (generation_at(zero), generation_at(one));
    if first == second {
        return Err(JournalFault::Damaged {
            part: Part::One,
            place: 16,
        });
    }
    if first < second {
        return Ok(Part::One);
    }
    Ok(Part::Zero)
}

/// Which half rules by the heads of both, or why none does.
pub fn judged(zero: &[u8], one: &[u8]) -> Result<Part, JournalFault>
    ensures judged { result ≡ judged zero.now one.now }
    ensures only { result ≢ Err AlreadyStore }
{
    if !is_open(zero) && !is_open(one) {
        return Err(JournalFault::NoStore);
    }
    if let Some(place) = half_fault(zero) {
        return Err(JournalFault::Damaged {
            part: Part::Zero,
            place,
        });
    }
    if let Some(place) = half_fault(one) {
        return Err(JournalFault::Damaged {
            part: Part::One,
            place,
        });
    }
    ruling(zero, one)
}
