ghost use Rattle.std.specs.Prelude.{◌≤◌, nat_eq};
ghost use Rattle.std.specs.Cmp.Lexicographic.{pointwise};
ghost use Rattle.std.proofs.Props.{props};
ghost use Rattle.indexmap.specs.IndexMap.{spare, IsUnique};
ghost use Rattle.shared_tables.specs.Fitting.{AreFit};

use crate::change::Reading;
use indexmap::IndexMap;
use mesh_base::Bytes;
use mesh_text::ClusterName;
use record_check::Fault;
use record_values::ClusterConfig;

/// What the tables were told of a source.
#[derive(Drop)]
pub(crate) struct Source {
    pub name: ClusterName,
    pub config: Option<Result<ClusterConfig, Fault>>,
    /// The readings of its pairs by the bytes of their keys.
    pub rows: IndexMap<Bytes, Reading>,
    /// How many rows may be put without taking memory.
    pub room: usize,
    ghost reserved: { room ≤ spare rows },
    ghost unique: { IsUnique (pointwise nat_eq) rows } by { Prim.hlevel props },
    ghost fit: { AreFit rows } by { Prim.hlevel props },
}
