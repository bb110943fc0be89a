//! Which files expire.

ghost use Rattle.std.specs.Prelude.{◌≡◌, ◌+◌, ◌*◌, nat_le};
ghost use Rattle.node_table.specs.Views.{seen};
ghost use Rattle.file_jobs.specs.Expired.{is_old};

use name_patterns::Pattern;
use volume_tree::NodeView;

// Seconds.
const DAY: u64 = 86_400;

/// Files of names that a pattern matches, which weren't changed for so many days before a moment.
#[derive(Drop)]
pub struct Expiry {
    pub days: u32,
    pub pattern: Pattern,
    /// In seconds since 1970-01-01 00:00:00 UTC.
    pub moment: u64,
}

impl Expiry {
    // Whether a file that was changed last at a moment is old.
    fn is_aged(&self, modified: u64) -> bool
        ensures { result ≡ nat_le (modified + 86400 * self.now.days) self.now.moment }
    {
        match self.moment.checked_sub(DAY * u64::from(self.days)) {
            Some(latest) => modified <= latest,
            None => false,
        }
    }

    /// Whether a node is such a file.
    pub fn is_old(&self, node: &NodeView<'_>) -> bool
        ensures { result ≡ is_old self.now (seen node.now) }
    {
        !node.folder && self.is_aged(node.modified) && self.pattern.matches(node.name)
    }
}
