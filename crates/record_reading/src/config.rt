ghost use Rattle.std.specs.Prelude.{option_map};
ghost use Rattle.serde_json.specs.View.{view};
ghost use Rattle.record_reading.specs.Judgement.{Gives, judged};
ghost use Rattle.record_reading.specs.Config.{config_of};

use crate::forms::{member_of, optional_object, optional_truth, optional_u32, required_u32};
use crate::tree::read_tree;
use record_values::{ClusterConfig, ReadFault};
use serde_json::Value;
use std::alloc::Global;

#[tactic(auto, unfolding(crate::specs::Config::config_of))]
fn config_fields(alloc: Global, value: &Value) -> Result<ClusterConfig, ReadFault>
    ensures { Gives result (config_of (view value.now)) }
{
    let id = required_u32(alloc, "id", value.get("id"))?;
    let capabilities = optional_object(alloc, "capabilities", value.get("capabilities"))?;
    let synced_canaries = optional_truth(
        alloc,
        "syncedCanaries",
        false,
        member_of(capabilities, "syncedCanaries"),
    )?;
    let cached = optional_truth(alloc, "cached", false, member_of(capabilities, "cached"))?;
    let most = optional_u32(
        alloc,
        "maxConnectedClusters",
        0,
        member_of(capabilities, "maxConnectedClusters"),
    )?;
    let max_connected = if most == 0 { 255 } else { most };
    Ok(ClusterConfig {
        id,
        synced_canaries,
        cached,
        max_connected,
    })
}

/// Reads a cluster's config, with the first fault of its fields where it has one.
///
/// An absent `capabilities`, and each absent part of it, is as `false`, and as 255 for
/// `maxConnectedClusters`; a 0 there is 255 too. The member names are those of Cilium's
/// cluster config.
pub fn read_config(alloc: Global, bytes: &[u8]) -> Result<ClusterConfig, ReadFault>
    ensures { Gives result (judged config_of bytes.now) }
{
    let value = read_tree(alloc, bytes)?;
    if !value.is_object() {
        return Err(ReadFault::Shape);
    }
    config_fields(alloc, &value)
}
