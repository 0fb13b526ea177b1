// Which sources are admitted.
ghost use Rattle.std.specs.Prelude.{◌≡◌, map, IfOk};
ghost use Rattle.shared_tables.specs.Admission as rules;
ghost use Rattle.shared_tables.specs.Merged.{arrived};

use crate::rows::Why;
use crate::source::Source;
use crate::standing::Standing;
use mesh_base::Memory;
use mesh_text::ClusterName;
use record_check::Fault;
use record_values::ClusterConfig;

fn has_number(number: u32, config: &Option<Result<ClusterConfig, Fault>>) -> bool
    ensures { result ≡ rules.has_number number config.now }
{
    match config {
        Some(Ok(config)) => config.id == number,
        Some(Err(_)) => false,
        None => false,
    }
}

/// A source whose name is before this one has a valid config with the number.
fn is_taken(sources: &[Source], name: &ClusterName, number: u32) -> bool
    ensures { result ≡ rules.is_taken (map arrived sources.now) name.now number }
{
    for other in sources {
        if other.name.as_bytes().cmp(name.as_bytes()).is_lt() && has_number(number, &other.config) {
            return true;
        }
    }
    false
}

/// How a source with this config stands among all.
pub(crate) fn standing(
    local: u32,
    sources: &[Source],
    name: &ClusterName,
    config: &Option<Result<ClusterConfig, Fault>>,
) -> Result<Standing, Memory>
    ensures { IfOk result (λ s. s ≡ rules.standing_of local (map arrived sources.now) name.now config.now) }
{
    match config {
        None => Ok(Standing::NoConfig),
        Some(Err(fault)) => Ok(Standing::Refused(Why::Fault(fault.clone()?))),
        Some(Ok(config)) => {
            if config.id == local {
                Ok(Standing::Refused(Why::IdLocal))
            } else if is_taken(sources, name, config.id) {
                Ok(Standing::Refused(Why::IdTaken))
            } else {
                Ok(Standing::Admitted(config.id))
            }
        }
    }
}
