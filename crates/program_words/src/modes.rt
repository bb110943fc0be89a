//! What the program is asked to do.

use fsrm_model::{Capacity, Path};
use name_patterns::Pattern;

/// What the program is asked to do.
#[derive(Drop)]
pub enum Mode {
    /// Make a store of this size, which is that of a legal store.
    Init {
        size: Capacity,
    },
    /// Read a script, and write the replies. Up to `group` records, 1 to 1,024, are made stable at once.
    Replay {
        group: u32,
    },
    /// Write the list of the quotas.
    Show,
    /// Write the latest notice of each action that ran at a moment or later. The moment is in seconds since the beginning
    /// of 1970, 0 to 4,102,444,799.
    Outbox {
        since: u64,
    },
    /// Run so many commands, 1 to 1,000,000, that are made from a seed.
    Work {
        seed: u64,
        count: u32,
    },
    /// Move the files of the folder `from` that match a pattern, and weren't changed for so many days at a moment, into the
    /// folder `to`: 0 to 36,500 days; the moment is in seconds since the beginning of 1970, 0 to 4,102,444,799.
    Expire {
        from: Path,
        to: Path,
        days: u32,
        pattern: Pattern,
        moment: u64,
    },
    /// Run the report jobs that are due at a moment, in seconds since the beginning of 1970, 0 to 4,102,444,799.
    Tick {
        moment: u64,
    },
}
