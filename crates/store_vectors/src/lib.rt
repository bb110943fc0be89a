//! What no clause says of the crates that keep a store: that each public call succeeds with ample memory, that the bytes
//! are those of the formats (`docs/FORMATS.md`), that damage is told at its place, and that a journal, a store or a run
//! which is stopped, or of which a call fails, is found as it has to be. The expected values were worked out by hand. The
//! tests of all other crates stand in `vectors`, which says how a test is kept short to prove.
#![tactic(auto)]

#[cfg(test)]
mod checkpoints;
#[cfg(test)]
mod codec_entries;
#[cfg(test)]
mod crashes;
#[cfg(test)]
mod damage;
#[cfg(test)]
mod faults;
#[cfg(test)]
mod fields;
#[cfg(test)]
mod halves;
#[cfg(test)]
mod images;
#[cfg(test)]
mod journals;
#[cfg(test)]
mod migration;
#[cfg(test)]
mod opening;
#[cfg(test)]
mod own_commands;
#[cfg(test)]
mod run_faults;
#[cfg(test)]
mod run_stops;
#[cfg(test)]
mod runs;
#[cfg(test)]
mod scan;
#[cfg(test)]
mod stops;
#[cfg(test)]
mod stores;
#[cfg(test)]
mod syncs;
#[cfg(test)]
mod taking;
