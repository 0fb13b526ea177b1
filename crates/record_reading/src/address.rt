ghost use Rattle.serde_json.specs.View.{view};
ghost use Rattle.record_reading.specs.Judgement.{Gives, judged};
ghost use Rattle.record_reading.specs.Address.{address_record_of};

use crate::forms::{no_mask, optional_address, optional_text, required_address, required_u32};
use crate::tree::read_tree;
use record_values::{AddressRecord, ReadFault};
use serde_json::Value;
use std::alloc::Global;

#[tactic(auto, unfolding(crate::specs::Address::address_record_of))]
fn address_fields(alloc: Global, value: &Value) -> Result<AddressRecord, ReadFault>
    ensures { Gives result (address_record_of (view value.now)) }
{
    let ip = required_address(alloc, "IP", value.get("IP"))?;
    no_mask("Mask", value.get("Mask"))?;
    let host = optional_address(alloc, "HostIP", value.get("HostIP"))?;
    let id = required_u32(alloc, "ID", value.get("ID"))?;
    let namespace = optional_text(alloc, "K8sNamespace", value.get("K8sNamespace"))?;
    let pod = optional_text(alloc, "K8sPodName", value.get("K8sPodName"))?;
    Ok(AddressRecord {
        ip,
        host,
        id,
        namespace,
        pod,
    })
}

pub(crate) fn read_address_record(alloc: Global, bytes: &[u8]) -> Result<AddressRecord, ReadFault>
    ensures { Gives result (judged address_record_of bytes.now) }
{
    let value = read_tree(alloc, bytes)?;
    if !value.is_object() {
        return Err(ReadFault::Shape);
    }
    address_fields(alloc, &value)
}
