ghost use Rattle.std.specs.Prelude.{◌≡◌, ◌⊎◌, ℕ, List, [], map, length, All, IfSome, IfOk, Err, false};
ghost use Rattle.std.specs.String.{string_bytes};
ghost use Rattle.scenario_lang.specs.Lines.{scenario_of};
ghost use Rattle.scenario_lang.specs.Valid.{IsValid};
ghost use Rattle.scenario_lang.specs.declared.kinds.LineKind.{LineKind};
ghost use Rattle.scenario_lang.specs.declared.kinds.Mode.TheVariants as mode;
ghost use Rattle.store_api.specs.Streams.{HasFailed, HoldsFront, HoldsMore};
ghost use Rattle.mesh_world.specs.Goes.{IsOpen, NumberInTurn};
ghost use Rattle.mesh_world.specs.Runs.{NoneFailed, Reports, TurnsEndWhole};
ghost use Rattle.scenario_replay.specs.Program.{Ran, RanPlainly, TookEnough, WroteSome, is_step, refusal_line, usage_line};

use crate::input::{Unread, read_input};
use crate::replay::Replay;
use crate::status::Status;
use crate::streams::write_all;
use crate::telling::{Unwritten, write_refusal};
use mesh_world::turns_end_whole;
use scenario_lang::Scenario;
use std::alloc::Global;
use store_api::{Bytes, Memory, Sink, Source, StoreAdmin};

const USAGE: &str = "usage: step | check | generate <n> | run <probes>\n";

fn is_step(words: &[String]) -> bool
    ensures { result ≡ is_step (map string_bytes words.now) }
{
    match words {
        [only] => only.as_str() == "step",
        _ => false,
    }
}

// Runs the scenario, and answers the text of its reports.
fn run<S: StoreAdmin>(alloc: Global, scenario: &Scenario, stores: &mut [S]) -> Result<Bytes, Memory>
    requires valid { IsValid mode.Step scenario.now }
    requires many { length stores.old ≡ 256 }
    requires open { All IsOpen (map S.meaning stores.old) }
    ensures reports { IfOk result (Reports scenario.now (map S.meaning stores.old) (map S.meaning stores.new)) }
{
    let mut replay = Replay::new(alloc, scenario)?;
    replay.act_all(alloc, scenario.actions.as_slice(), stores)?;
    let Replay { text, .. } = replay;
    Ok(text)
}

/// The program, but for its adapters: serves the one word `step`.
///
/// Reads a scenario from the source, runs its lines in order over the stores, and writes its reports to
/// the sink. `stores[0]` is the local store, and behind it stands the store of each remote in the
/// scenario's order; they may hold records already. A store call that is lost is no refusal: the run goes
/// on. The reports are written when all lines were run.
///
/// The order of the answers is: words, read fault, length, scenario, execution.
pub fn mesh_steps<R: Source, W: Sink, S: StoreAdmin>(
    alloc: Global,
    words: &[String],
    source: &mut R,
    sink: &mut W,
    stores: &mut [S],
) -> Status
    requires many { length stores.old ≡ 256 }
    requires open { All IsOpen (map S.meaning stores.old) }

    // The reports are those of the world that the scenario leads to from the stores' first contents.
    ensures done { result ≡ Status.Done → IfSome (R.left source.old) (λ input. Ran input (map S.meaning stores.old) (map S.meaning stores.new) (W.holds sink.old) (W.holds sink.new)) }
    ensures ended { result ≡ Status.Done → IfSome (R.left source.new) (λ rest. rest ≡ []) }

    // Where no store failed, they and the stores' contents are a function of the scenario and the first
    // contents.
    ensures plain { result ≡ Status.Done → NumberInTurn (map S.meaning stores.old) → NoneFailed (map S.meaning stores.old) (map S.meaning stores.new) → IfSome (R.left source.old) (λ input. RanPlainly input (map S.meaning stores.old) (map S.meaning stores.new) (W.holds sink.old) (W.holds sink.new)) }

    // A turn without a limit that is not refused ends at its store's revision, and is caught up there
    // where the store is synced.
    ensures whole_turns { TurnsEndWhole }

    // Other words than `step` are answered by the usage line, or by a front of it; nothing of the source is
    // read then, and every store is as it was.
    ensures usage { result ≡ Status.Usage → (is_step (map string_bytes words.now) ≡ false) × HoldsMore (W.holds sink.old) (W.holds sink.new) usage_line }
    ensures served { is_step (map string_bytes words.now) ≡ false → (result ≡ Status.Usage) ⊎ (result ≡ Status.WriteFault) }
    ensures usage_front { is_step (map string_bytes words.now) ≡ false → result ≡ Status.WriteFault → HoldsFront (W.holds sink.old) (W.holds sink.new) usage_line }
    ensures unasked { is_step (map string_bytes words.now) ≡ false → source.new ≡ source.old }
    ensures unserved { is_step (map string_bytes words.now) ≡ false → stores.new ≡ stores.old }

    // An input that is no scenario is answered by its first fault.
    ensures refused { (line : ℕ) (why : LineKind) → result ≡ Status.Scenario line why
        → IfSome (R.left source.old) (λ input. scenario_of mode.Step input ≡ Err (record { line = line; kind = why })) × HoldsMore (W.holds sink.old) (W.holds sink.new) (refusal_line (record { line = line; kind = why })) }

    // The first fault is told when the input was read to its end, or one byte more than it may have was taken,
    // and no read failed.
    ensures heard { (line : ℕ) (why : LineKind) → result ≡ Status.Scenario line why → TookEnough (R.left source.old) (R.left source.new) }
    ensures unfailed { (line : ℕ) (why : LineKind) → result ≡ Status.Scenario line why → R.faults source.new ≡ R.faults source.old }

    // A fault is told only where the outside failed. After a write fault a front of what was to be written
    // is written.
    ensures read_fault { result ≡ Status.ReadFault → HasFailed (R.faults source.old) (R.faults source.new) × (W.holds sink.new ≡ W.holds sink.old) }
    ensures write_fault { result ≡ Status.WriteFault → HasFailed (W.faults sink.old) (W.faults sink.new) }
    ensures front { result ≡ Status.WriteFault → IfSome (R.left source.old) (λ input. WroteSome (map string_bytes words.now) input (map S.meaning stores.old) (map S.meaning stores.new) (W.holds sink.old) (W.holds sink.new)) }
    ensures memory { result ≡ Status.Memory → W.holds sink.new ≡ W.holds sink.old }

    // Where nothing ran, every store is as it was.
    ensures unused { result ≡ Status.Usage → stores.new ≡ stores.old }
    ensures untouched { (line : ℕ) (why : LineKind) → result ≡ Status.Scenario line why → stores.new ≡ stores.old }
    ensures unread { result ≡ Status.ReadFault → stores.new ≡ stores.old }
{
    turns_end_whole();
    if !is_step(words) {
        match write_all(sink, USAGE.as_bytes()) {
            Ok(()) => return Status::Usage,
            Err(_) => return Status::WriteFault,
        }
    }
    let scenario = match read_input(alloc, source) {
        Ok(scenario) => scenario,
        Err(Unread::Refused { fault }) => match write_refusal(alloc, sink, fault) {
            Ok(()) => {
                return Status::Scenario {
                    line: fault.line,
                    kind: fault.kind,
                };
            }
            Err(Unwritten::Failed) => return Status::WriteFault,
            Err(Unwritten::Memory) => return Status::Memory,
        },
        Err(Unread::Failed) => return Status::ReadFault,
        Err(Unread::Memory) => return Status::Memory,
    };
    let text = match run(alloc, &scenario, stores) {
        Ok(text) => text,
        Err(_) => return Status::Memory,
    };
    match write_all(sink, text.as_slice()) {
        Ok(()) => Status::Done,
        Err(_) => Status::WriteFault,
    }
}
