//! Where in ascending rows a number stands, or is to stand, and which one is free.

ghost use Rattle.std.specs.Prelude.{◌≡◌, ◌<◌, ◌^◌, ℕ, true, false, length, IfOk, IfErr};
ghost use Rattle.fsrm_base.specs.Keyed.{has_row, is_ascending, least_free};
ghost use Rattle.fsrm_base.specs.Places.{IsAt, IsGap};

/// How rows are numbered.
pub trait Key {
    /// What has a number.
    type Row;

    ghost key: { Self.Row → ℕ };

    /// The number of a row.
    fn number(row: &Self::Row) -> u32
        ensures { result ≡ key row.now };
}

/// The place of the row of a number, or as an `Err` the place where one is to stand.
pub fn search<K: Key>(rows: &[K::Row], number: u32) -> Result<usize, usize>
    requires { is_ascending K.key rows.now ≡ true }
    ensures found { IfOk result (IsAt K.key number rows.now) }
    ensures free { IfErr result (IsGap K.key number rows.now) }
{
    rows.binary_search_by_key(&number, |row| K::number(row))
}

/// The place where the row of a number that none has is to stand.
pub fn gap<K: Key>(rows: &[K::Row], number: u32) -> usize
    requires ascending { is_ascending K.key rows.now ≡ true }
    requires absent { has_row K.key number rows.now ≡ false }
    ensures { IsGap K.key number rows.now result }
{
    match search::<K>(rows, number) {
        Ok(place) | Err(place) => place,
    }
}

/// The least number that none of the ascending rows has.
pub fn free_number<K: Key>(rows: &[K::Row]) -> u32
    requires { length rows.now < 2 ^ 32 }
    ensures { result ≡ least_free K.key rows.now }
{
    let mut number = 0;
    for row in rows {
        if K::number(row) != number {
            return number;
        }
        number += 1;
    }
    number
}
