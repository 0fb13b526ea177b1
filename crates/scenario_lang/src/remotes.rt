ghost use Rattle.std.specs.Prelude.{◌≡◌, ◌++◌, ◌∷◌, [], ℕ, List, IfOk, None, position};
ghost use Rattle.mesh_base.specs.Order.{same_bytes};
ghost use Rattle.scenario_lang.specs.Clusters.{names_of};

use crate::scenario::Remote;
use mesh_base::{Items, Memory};
use mesh_text::ClusterName;
use std::alloc::Global;
use std::collections::BTreeMap;
use std::marker::Model;

/// The remotes in the order of their lines, which are found by their names.
#[derive(Debug, Drop)]
pub(crate) struct Remotes {
    items: Items<Remote>,
    /// The place of each name.
    places: BTreeMap<ClusterName, usize>,
}

impl Model for Remotes {
    ghost use Rattle.std.specs.Prelude.{◌≡◌, ℕ, List, position};
    ghost use Rattle.std.specs.Ordering.{nat_cmp};
    ghost use Rattle.std.specs.Cmp.Lexicographic.{slice_cmp};
    ghost use Rattle.std.specs.BTreeMap.{get};
    ghost use Rattle.mesh_base.specs.Order.{same_bytes};
    ghost use Rattle.scenario_lang.specs.declared.scenario.Remote.{Remote};
    ghost use Rattle.scenario_lang.specs.Clusters.{names_of};

    ghost Value = { List Remote };

    ghost view = { λ r. r.items };

    ghost invariant = { λ r. (name : List ℕ) → get (slice_cmp nat_cmp) r.places name ≡ position (same_bytes name) (names_of r.items) };
}

impl Remotes {
    pub fn new(alloc: Global) -> Remotes
        ensures { result ≡ [] }
    {
        Remotes {
            items: Items::new(alloc),
            places: BTreeMap::new(alloc),
        }
    }

    /// The place of the remote with this name.
    pub fn place(&self, name: &ClusterName) -> Option<usize>
        ensures { result ≡ position (same_bytes name.now) (names_of self.now) }
    {
        self.places.get(name).copied()
    }

    /// The remotes with one more, whose name is new.
    pub fn with(self, remote: Remote) -> Result<Remotes, Memory>
        requires { position (same_bytes remote.name) (names_of self) ≡ None }
        ensures { IfOk result (λ r. r ≡ self ++ remote ∷ []) }
    {
        let Remotes {
            mut items,
            mut places,
        } = self;
        places.insert(remote.name.clone()?, items.len())?;
        items.push(remote)?;
        Ok(Remotes { items, places })
    }

    pub fn as_slice(&self) -> &[Remote]
        ensures { result.now ≡ self.now }
    {
        self.items.as_slice()
    }

    /// The same remotes, without taking memory.
    pub fn into_items(self) -> Items<Remote>
        ensures { result ≡ self }
    {
        let Remotes { items, places: _ } = self;
        items
    }
}
