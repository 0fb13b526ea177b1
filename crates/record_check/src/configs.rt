// A cluster's config.
ghost use Rattle.std.specs.Prelude.{◌≡◌, IfOk, IfErr, IfSome, Ok, Err};
ghost use Rattle.record_values.specs.declared.fault.ReadFault.TheVariants as read_fault;
ghost use Rattle.record_reading.specs.Config.{config_of};
ghost use Rattle.record_reading.specs.Judgement.{judged};
ghost use Rattle.record_check.specs.Faults.{IsNamed, first_fault};
ghost use Rattle.record_check.specs.Configs.{limit_rows, checked_config};

use crate::fault::Fault;
use crate::limit::Limit;
use crate::reading::size_fault;
use mesh_base::Memory;
use record_reading::read_config;
use record_values::{ClusterConfig, ReadFault};
use std::alloc::Global;

/// The config that a value says.
fn read_config_value(
    alloc: Global,
    value: &[u8],
) -> Result<Result<ClusterConfig, ReadFault>, Memory>
    ensures said { IfOk result (λ answer. answer ≡ judged config_of value.now) }
    ensures named { IfOk result (λ answer. IfErr answer (λ why. why ≡ read_fault.Memory → ⊥)) }
{
    match read_config(alloc, value) {
        Err(ReadFault::Memory) => Err(Memory),
        Err(fault) => Ok(Err(fault)),
        Ok(config) => Ok(Ok(config)),
    }
}

/// The fault of a config in a mesh of this limit.
fn limit_fault(limit: Limit, config: ClusterConfig) -> Option<Fault>
    ensures fault { result ≡ first_fault (limit_rows limit (Ok config)) }
    ensures named { IfSome result IsNamed }
{
    if !limit.is_cluster_number(config.id) {
        return Some(Fault::ClusterId);
    }
    if config.max_connected != limit.last_cluster() {
        return Some(Fault::Limit {
            have: u64::from(config.max_connected),
        });
    }
    None
}

/// The config of a cluster that a value says, or the first of its faults: `TooLarge`, `Read`,
/// `ClusterId` where its number is none that the limit allows, and `Limit` where it is for a mesh
/// of another limit.
///
/// `Memory` comes where memory was wanted.
#[tactic(auto, unfolding(crate::specs::Configs::checked_config, crate::specs::Configs::config_fault))]
pub fn check_config(
    alloc: Global,
    limit: Limit,
    value: &[u8],
) -> Result<Result<ClusterConfig, Fault>, Memory>
    ensures said { IfOk result (λ answer. answer ≡ checked_config limit value.now) }
    ensures named { IfOk result (λ answer. IfErr answer IsNamed) }
{
    if let Some(fault) = size_fault(value) {
        return Ok(Err(fault));
    }
    let config = match read_config_value(alloc, value)? {
        Ok(config) => config,
        Err(fault) => return Ok(Err(Fault::Read(fault))),
    };
    match limit_fault(limit, config) {
        Some(fault) => Ok(Err(fault)),
        None => Ok(Ok(config)),
    }
}
