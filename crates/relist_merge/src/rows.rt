// The rows of a view, the fresh ones first.
ghost use Rattle.std.specs.Prelude.{◌≤◌};
ghost use Rattle.indexmap.specs.IndexMap.{spare, index_map_len};

mod calls;
mod pairs;

use crate::reading::Reading;
use indexmap::IndexMap;
use mesh_base::Bytes;

/// A pair's value, and what the pair says.
#[derive(Drop)]
pub(crate) struct Row {
    pub(crate) value: Bytes,
    pub(crate) reading: Reading,
}

/// Rows by key. The first `fresh` rows were listed or put since the last list began, the others
/// before it.
#[derive(Drop)]
pub(crate) struct Rows {
    map: IndexMap<Bytes, Row>,
    fresh: usize,
    /// For so many more rows there is memory.
    room: usize,
    ghost reserved: { room ≤ spare map },
    ghost within: { fresh ≤ index_map_len map },
}
