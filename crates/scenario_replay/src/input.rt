// Reading the scenario.
ghost use Rattle.std.specs.Prelude.{◌≡◌, [], OnOk, IfOk, IfSome, Ok, Err};
ghost use Rattle.scenario_lang.specs.Lines.{scenario_of};
ghost use Rattle.scenario_lang.specs.Valid.{IsValid};
ghost use Rattle.scenario_lang.specs.declared.kinds.LineFault.{LineFault};
ghost use Rattle.scenario_lang.specs.declared.kinds.Mode.TheVariants as mode;
ghost use Rattle.store_api.specs.Streams.{HasFailed};
ghost use Rattle.scenario_replay.specs.Program.{TookEnough};

use crate::streams::{ReadStop, read_all};
use scenario_lang::{LineFault, LineKind, Mode, Scenario, read_scenario};
use std::alloc::Global;
use store_api::Source;

/// Why there is no scenario.
#[derive(Clone, Copy, Debug, PartialEq, Eq)]
pub enum Unread {
    Refused { fault: LineFault },
    Failed,
    Memory,
}

/// Reads the input to its end, or to the first byte too many, and the scenario that it is.
pub fn read_input<R: Source>(alloc: Global, source: &mut R) -> Result<Scenario, Unread>
    ensures read { IfOk result (λ said. IfSome (R.left source.old) (λ input. scenario_of mode.Step input ≡ Ok said)) }
    ensures valid { IfOk result (IsValid mode.Step) }
    ensures ended { OnOk result (IfSome (R.left source.new) (λ rest. rest ≡ [])) }
    ensures refused { (fault : LineFault) → result ≡ Err (Unread.Refused fault) → IfSome (R.left source.old) (λ input. scenario_of mode.Step input ≡ Err fault) }
    ensures heard { (fault : LineFault) → result ≡ Err (Unread.Refused fault) → TookEnough (R.left source.old) (R.left source.new) }
    ensures calm { (fault : LineFault) → result ≡ Err (Unread.Refused fault) → R.faults source.new ≡ R.faults source.old }
    ensures failed { result ≡ Err Unread.Failed → HasFailed (R.faults source.old) (R.faults source.new) }
{
    let input = match read_all(alloc, source) {
        Ok(input) => input,
        Err(ReadStop::Failed) => return Err(Unread::Failed),
        Err(ReadStop::TooLong) => {
            return Err(Unread::Refused {
                fault: LineFault {
                    line: 0,
                    kind: LineKind::TooLong,
                },
            });
        }
        Err(ReadStop::Memory) => return Err(Unread::Memory),
    };
    match read_scenario(alloc, input.as_slice(), Mode::Step) {
        Ok(Ok(scenario)) => Ok(scenario),
        Ok(Err(fault)) => Err(Unread::Refused { fault }),
        Err(_) => Err(Unread::Memory),
    }
}
