// The words of a kind's path.
ghost use Rattle.std.specs.Prelude.{◌≡◌};
ghost use Rattle.key_paths.specs.Paths.{hop_word, kind_word};

use crate::hop::Hop;
use mesh_text::Kind;

pub(crate) const HOPS: [Hop; 2] = [Hop::State, Hop::Cache];

pub(crate) const KINDS: [Kind; 4] = [
    Kind::Nodes,
    Kind::Services,
    Kind::Identities,
    Kind::Addresses,
];

pub(crate) fn hop_word(hop: Hop) -> &'static [u8]
    ensures { result.now ≡ hop_word hop }
{
    match hop {
        Hop::State => b"state",
        Hop::Cache => b"cache",
    }
}

pub(crate) fn kind_word(kind: Kind) -> &'static [u8]
    ensures { result.now ≡ kind_word kind }
{
    match kind {
        Kind::Nodes => b"nodes",
        Kind::Services => b"services",
        Kind::Identities => b"identities",
        Kind::Addresses => b"ip",
    }
}
