// A pair, whole.
ghost use Rattle.std.specs.Prelude.{◌≡◌, IfOk, IfErr};
ghost use Rattle.record_check.specs.Faults.{IsNamed};
ghost use Rattle.record_check.specs.Judging.{checked};

use crate::fault::Fault;
use crate::judging::judge;
use crate::limit::Limit;
use crate::reading::read_pair;
use mesh_base::Memory;
use mesh_text::ClusterName;
use record_values::Record;
use std::alloc::Global;

/// The record of a pair of this cluster, which has this number, or the first of the pair's faults:
/// `read_pair`, and then `judge` of what was read.
///
/// `Memory` comes where memory was wanted.
#[tactic(auto, using(crate::proofs::Checks::checked_by_judging))]
pub fn check(
    alloc: Global,
    cluster: &ClusterName,
    id: u32,
    limit: Limit,
    key: &[u8],
    value: &[u8],
) -> Result<Result<Record, Fault>, Memory>
    ensures said { IfOk result (λ answer. answer ≡ checked cluster.now id limit key.now value.now) }
    ensures named { IfOk result (λ answer. IfErr answer IsNamed) }
{
    let (key, record) = match read_pair(alloc, key, value)? {
        Ok(pair) => pair,
        Err(fault) => return Ok(Err(fault)),
    };
    match judge(cluster, id, limit, &key, &record) {
        Some(fault) => Ok(Err(fault)),
        None => Ok(Ok(record)),
    }
}
