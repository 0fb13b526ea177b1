ghost use Rattle.std.specs.Prelude.{◌≡◌, find, nat_eq};
ghost use Rattle.std.specs.List.{starts_with};
ghost use Rattle.key_paths.specs.Beginnings.{beginning, front_at};

use crate::hop::Hop;
use mesh_text::Kind;

/// One of the eleven fixed beginnings of a key.
#[derive(Clone, Copy, Debug, PartialEq, Eq)]
pub(crate) enum Front {
    /// Configs of clusters.
    Configs,
    /// Marks that all records of a kind are written.
    Marks,
    /// Records of a kind, in the store of this hop.
    Records(Hop, Kind),
    /// Cuts of caches.
    Cuts,
}

/// All of them; none is the beginning of another.
const FRONTS: [Front; 11] = [
    Front::Configs,
    Front::Marks,
    Front::Records(Hop::State, Kind::Nodes),
    Front::Records(Hop::State, Kind::Services),
    Front::Records(Hop::State, Kind::Identities),
    Front::Records(Hop::State, Kind::Addresses),
    Front::Records(Hop::Cache, Kind::Nodes),
    Front::Records(Hop::Cache, Kind::Services),
    Front::Records(Hop::Cache, Kind::Identities),
    Front::Records(Hop::Cache, Kind::Addresses),
    Front::Cuts,
];

impl Front {
    #[tactic(auto, unfolding(crate::specs::Beginnings::beginning))]
    pub(crate) fn as_str(self) -> &'static str
        ensures { result.now ≡ beginning self }
    {
        match self {
            Front::Configs => "cilium/cluster-config/",
            Front::Marks => "cilium/synced/",
            Front::Records(Hop::State, Kind::Nodes) => "cilium/state/nodes/v1/",
            Front::Records(Hop::State, Kind::Services) => "cilium/state/services/v1/",
            Front::Records(Hop::State, Kind::Identities) => "cilium/state/identities/v1/id/",
            Front::Records(Hop::State, Kind::Addresses) => "cilium/state/ip/v1/default/",
            Front::Records(Hop::Cache, Kind::Nodes) => "cilium/cache/nodes/v1/",
            Front::Records(Hop::Cache, Kind::Services) => "cilium/cache/services/v1/",
            Front::Records(Hop::Cache, Kind::Identities) => "cilium/cache/identities/v1/",
            Front::Records(Hop::Cache, Kind::Addresses) => "cilium/cache/ip/v1/",
            Front::Cuts => "cilium/cuts/v1/",
        }
    }

    pub(crate) fn as_bytes(self) -> &'static [u8]
        ensures { result.now ≡ beginning self }
    {
        self.as_str().as_bytes()
    }
}

fn first_of(fronts: &[Front], bytes: &[u8]) -> Option<Front>
    ensures { result ≡ find (λ front. starts_with nat_eq bytes.now (beginning front)) fronts.now }
{
    fronts
        .iter()
        .copied()
        .find(|front| bytes.starts_with(front.as_bytes()))
}

/// The beginning that the bytes have.
#[tactic(auto, unfolding(crate::specs::Beginnings::front_at))]
pub(crate) fn front_at(bytes: &[u8]) -> Option<Front>
    ensures { result ≡ front_at bytes.now }
{
    first_of(&FRONTS, bytes)
}
