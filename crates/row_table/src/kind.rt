//! What the rows of a table are.

ghost use Rattle.std.specs.Prelude.{◌≡◌, ℕ, ◌≤◌, ◌<◌, ◌*◌, ◌^◌, Bool};

use fsrm_base::places::Key;

/// Rows of one kind: how they are numbered, what their texts take, and how many of them there may be.
pub trait Kind: Key<Row: Drop> {
    // The bytes of the texts of a row, and how many these are at most.
    ghost bytes: { Self.Row → ℕ };

    ghost most_bytes: { ℕ };

    ghost MOST: { ℕ };

    /// How many rows there may be.
    const MOST: u32;

    /// The bytes of the texts of a row, which are no longer than they may be.
    fn texts(row: &Self::Row) -> u32
        requires { bytes row.now ≤ most_bytes }
        ensures { result ≡ bytes row.now };

    // Slots fit a u16, and 65,535 is left to stand for no slot.
    ghost few: { MOST < 2 ^ 16 };

    // The bytes of all texts fit a u32.
    ghost fits: { MOST * most_bytes < 2 ^ 32 };
}

/// A change of a row where it stands, which may tell something of it.
pub trait Edit<R> {
    /// What it tells.
    type Told: Drop;

    // Which rows it may change, what it makes of one, and what it tells of the row as it was. In a `Table` the row's
    // number and the bytes of its texts have to stay.
    ghost may: { Self → R → Type 0 };

    ghost edited: { Self → R → R };

    ghost told: { Self → R → Self.Told };

    /// Changes a row.
    fn edit(&self, row: &mut R) -> Self::Told
        requires { may self.now row.old }
        ensures edited { row.new ≡ edited self.now row.old }
        ensures told { result ≡ told self.now row.old };
}

/// A test of a row.
pub trait Test<R> {
    // Which rows pass it.
    ghost passes: { Self → R → Bool };

    /// Whether a row passes.
    fn test(&self, row: &R) -> bool
        ensures { result ≡ passes self.now row.now };
}
