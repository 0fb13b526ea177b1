ghost use Rattle.std.specs.Prelude.{◌≡◌, ◌<◌};
ghost use Rattle.record_check.specs.Limits.{last_cluster, identity_bits, is_cluster_number, cluster_part, cluster_owning};

/// How many bytes a value may have.
pub(crate) const LONGEST_VALUE: usize = 32768;

/// The first identity that is one cluster's; those below are reserved (Cilium).
const FIRST_OWN_IDENTITY: u32 = 256;

/// How many clusters a mesh may have, which all its clusters must agree on (Cilium:
/// `maxConnectedClusters`).
#[derive(Clone, Copy, Debug, PartialEq, Eq)]
pub enum Limit {
    /// Up to 255 clusters: a cluster's number is from 1 to 255, and stands above the 16 low bits of
    /// its identities.
    Small,
}

impl Limit {
    /// The last number that a cluster may have; the first is 1.
    pub fn last_cluster(self) -> u32
        ensures { result ≡ last_cluster self }
    {
        match self {
            Limit::Small => 255,
        }
    }

    /// How many low bits of an identity stand below the number of its cluster.
    pub fn identity_bits(self) -> u32
        ensures bits { result ≡ identity_bits self }
        ensures below { result < 32 }
    {
        match self {
            Limit::Small => 16,
        }
    }

    /// Whether a cluster may have this number.
    pub fn is_cluster_number(self, number: u32) -> bool
        ensures { result ≡ is_cluster_number self number }
    {
        number >= 1 && number <= self.last_cluster()
    }

    /// The number of the cluster that an identity is of, by its high bits.
    pub fn cluster_part(self, identity: u32) -> u32
        ensures { result ≡ cluster_part self identity }
    {
        identity >> self.identity_bits()
    }

    /// The number of the cluster that an identity is of, `None` for the reserved ones, which every
    /// cluster has.
    pub fn cluster_owning(self, identity: u32) -> Option<u32>
        ensures { result ≡ cluster_owning self identity }
    {
        if identity < FIRST_OWN_IDENTITY {
            return None;
        }
        Some(self.cluster_part(identity))
    }
}
