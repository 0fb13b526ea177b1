ghost use Rattle.std.specs.Prelude.{◌≡◌, ◌⊎◌, None, Some, IfOk, IfErr};
ghost use Rattle.serde_json.specs.View.{view};
ghost use Rattle.record_reading.specs.Judgement.{tree_of};

use record_values::ReadFault;
use serde_json::Value;
use std::alloc::Global;

/// The JSON value whose text the bytes are.
pub(crate) fn read_tree(alloc: Global, bytes: &[u8]) -> Result<Value, ReadFault>
    ensures ok { IfOk result (λ v. tree_of bytes.now ≡ Some (view v)) }
    ensures err { IfErr result (λ e. (e ≡ ReadFault.Memory) ⊎ ((e ≡ ReadFault.Json) × (tree_of bytes.now ≡ None))) }
{
    match Value::from_slice(alloc, bytes) {
        Ok(value) => Ok(value),
        Err(e) => {
            if e.is_memory() {
                Err(ReadFault::Memory)
            } else {
                Err(ReadFault::Json)
            }
        }
    }
}
