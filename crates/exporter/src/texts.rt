// The keys and values of what is exported beside the records.
ghost use Rattle.std.specs.Prelude.{◌≡◌, ◌^◌, ◌<◌, IfOk, length};
ghost use Rattle.key_paths.specs.Paths as paths;
ghost use Rattle.mesh_text.specs.Kinds.{place};
ghost use Rattle.exporter.specs.State.{config_value};

use mesh_base::{Bytes, Memory};
use mesh_records::write_config;
use mesh_text::{ClusterName, Kind};
use record_check::Limit;
use record_values::ClusterConfig;
use std::alloc::Global;

/// The place of a kind in their order.
pub(crate) fn place(kind: Kind) -> usize
    ensures place { result ≡ place kind }
    ensures four { result < 4 }
{
    match kind {
        Kind::Nodes => 0,
        Kind::Services => 1,
        Kind::Identities => 2,
        Kind::Addresses => 3,
    }
}

/// The key of the cluster's config.
#[tactic(auto, unfolding(key_paths::specs::Beginnings::beginning))]
pub(crate) fn config_key(alloc: Global, cluster: &ClusterName) -> Result<Bytes, Memory>
    ensures { IfOk result (λ key. key ≡ paths.config_key cluster.now) }
{
    let mut key = Bytes::from_slice(alloc, "cilium/cluster-config/".as_bytes())?;
    key.extend_from_slice(cluster.as_bytes())?;
    Ok(key)
}

/// The config that a cluster with this number exports.
#[tactic(auto, unfolding(crate::specs::State::config_value))]
pub(crate) fn config_value(alloc: Global, number: u32) -> Result<Bytes, Memory>
    ensures { IfOk result (λ value. value ≡ config_value number) }
{
    let config = ClusterConfig::new(number, true, false, Limit::Small.last_cluster());
    Ok(Bytes::from_vec(write_config(alloc, &config)?))
}
