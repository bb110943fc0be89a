//! Keys, and where their texts are.

ghost use Rattle.std.specs.Prelude.{◌≡◌, ◌≢◌, ℕ, ◌+◌, ◌<◌, ◌≤◌, [], length, slice_index};
ghost use Rattle.std.specs.List.{AllPairs, count_by, sum_by};
ghost use Rattle.std.specs.Vec.{vec_capacity};
ghost use Rattle.name_region.specs.Keys.{IsIndexed, KeepsTexts};
ghost use Rattle.name_region.specs.Kept.{TakesKey};
ghost use Rattle.name_region.specs.Log.{Stored, is_kept, stored_at, text_len, used_len};

use crate::log::Log;

// Released texts that take no more bytes than this may stay, whatever the others take.
const FEW_BYTES: u32 = 1 << 20;

/// A key without a text: one that was given back, or if there is none, the next that was never handed out.
pub fn take_key(free: &mut Vec<u32>, places: &mut Vec<u32>) -> u32
    requires small { length places.old.items < 4294967296 }
    requires room { free.old.items ≡ [] → length places.old.items < vec_capacity places.old }
    ensures free_capacity { vec_capacity free.new ≡ vec_capacity free.old }
    ensures places_capacity { vec_capacity places.old ≤ vec_capacity places.new }
    ensures taken { TakesKey free.old.items free.new.items places.old.items places.new.items result }
{
    match free.pop() {
        Some(key) => key,
        None => {
            let key = places.len() as u32;
            let _ = places.push(0);
            key
        }
    }
}

// Notes for each key where its text is.
fn note_places(places: &mut Vec<u32>, log: &Log)
    requires within { (i : ℕ) → i < length log.now.stored → (stored_at log.now.stored i).key < length places.old.items }
    requires apart { AllPairs (λ (s t : Stored). s.key ≢ t.key) log.now.stored }
    ensures capacity { vec_capacity places.new ≡ vec_capacity places.old }
    ensures count { length places.new.items ≡ length places.old.items }
    ensures noted { (i : ℕ) → i < length log.now.stored → slice_index places.new.items (stored_at log.now.stored i).key ≡ i }
{
    for index in 0..log.len() {
        places[log.key(index) as usize] = index;
    }
}

/// Makes room in the log for a text of so many bytes. If it has none, or if released texts take more bytes than all
/// others and more than 1 MiB, the texts are gathered.
pub fn make_room(log: &mut Log, places: &mut Vec<u32>, used: u32, bytes: usize)
    requires indexed { IsIndexed log.old.stored places.old.items }
    requires room { sum_by used_len log.old.stored + bytes ≤ log.old.room }
    requires most { count_by is_kept log.old.stored < log.old.most }
    ensures texts { KeepsTexts log.old log.new }
    ensures indexed { IsIndexed log.new.stored places.new.items }
    ensures count { length places.new.items ≡ length places.old.items }
    ensures capacity { vec_capacity places.new ≡ vec_capacity places.old }
    ensures room { sum_by text_len log.new.stored + bytes ≤ log.new.room }
    ensures most { length log.new.stored < log.new.most }
{
    let released = log.size().saturating_sub(used);
    if log.has_room(bytes) && released <= used.max(FEW_BYTES) {
        return;
    }
    log.gather();
    note_places(places, log);
}
