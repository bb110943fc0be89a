//! Values that the tests are made of: the one place to mend if a public type gets a field.

ghost use Rattle.std.specs.Prelude.{◌≡◌, [], ◌∷◌, true, IfOk, codes};
ghost use Rattle.fsrm_objects.specs.Tables.{has_short_texts};

use fsrm_model::{Capacity, List, NodeRow, Path, QuotaRow, QuotaState, Rows, Text};
use std::alloc::Global;
use std::test::Fail;

/// A small volume.
pub const SMALL: Capacity = Capacity {
    nodes: 9,
    names: 256,
    cluster: 4_096,
};

/// A volume with room for three nodes.
pub const TINY: Capacity = Capacity {
    nodes: 3,
    names: 256,
    cluster: 4_096,
};

/// The path of the root.
pub fn root(alloc: Global) -> Path
    ensures { result ≡ [] }
{
    Path::from_joined(String::new(alloc), 0)
}

/// A folder's complete quota of this limit, without thresholds.
pub fn quota(alloc: Global, folder: u32, limit: u64) -> QuotaRow
    ensures folder { result.folder ≡ folder }
    ensures texts { has_short_texts result ≡ true }
{
    QuotaRow {
        folder,
        limit,
        enforce: true,
        state: QuotaState::Complete,
        thresholds: List::new(alloc),
        template: None,
        peak: 0,
        peak_at: 0,
    }
}

/// A folder.
pub fn folder(alloc: Global, number: u32, parent: u32, name: &str) -> Result<NodeRow, Fail>
    ensures { IfOk result (λ row. row.name ≡ name.now) }
{
    Ok(NodeRow {
        number,
        parent,
        name: Text::from_str(alloc, name)?,
        folder: true,
        length: 0,
        owner: 1,
        created: 0,
        modified: 0,
        accessed: 0,
    })
}

/// A list of one item.
pub fn one<T: Drop>(alloc: Global, item: T) -> Result<List<T>, Fail>
    ensures { IfOk result (λ list. list ≡ item ∷ []) }
{
    let mut list = List::new(alloc);
    list.push(item)?;
    Ok(list)
}

/// The rows of a new store.
pub fn new_rows(alloc: Global) -> Result<Rows, Fail> {
    let root = folder(alloc, 0, 0, "")?;
    Ok(Rows {
        nodes: one(alloc, root)?,
        quotas: List::new(alloc),
        templates: List::new(alloc),
        autos: List::new(alloc),
        groups: List::new(alloc),
        screens: List::new(alloc),
        excepts: List::new(alloc),
        jobs: List::new(alloc),
        acts: List::new(alloc),
        audits: List::new(alloc),
        queue: List::new(alloc),
        unvisited: List::new(alloc),
        run_limit: 60,
        last_moment: 0,
    })
}

/// The text `text`.
pub fn text(alloc: Global) -> Result<Text, Fail>
    ensures { IfOk result (λ text. text ≡ codes "text") }
{
    Ok(Text::from_str(alloc, "text")?)
}
