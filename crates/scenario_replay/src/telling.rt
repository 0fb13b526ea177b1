// The line that says why an input is no scenario.
ghost use Rattle.std.specs.Prelude.{◌≡◌, IfOk, OnOk, Err};
ghost use Rattle.store_api.specs.Streams.{HasFailed, HoldsFront, HoldsMore};
ghost use Rattle.scenario_replay.specs.Program as program;

use crate::streams::write_all;
use scenario_lang::{LineFault, LineKind};
use std::alloc::Global;
use store_api::{Bytes, Memory, Sink};

/// Why a line is not written.
#[derive(Clone, Copy, Debug, PartialEq, Eq)]
pub enum Unwritten {
    Failed,
    Memory,
}

fn kind_word(kind: LineKind) -> &'static str
    ensures { result.now ≡ program.kind_word kind }
{
    match kind {
        LineKind::Header => "header",
        LineKind::Words => "words",
        LineKind::Name => "name",
        LineKind::Number => "number",
        LineKind::Address => "address",
        LineKind::UnknownCluster => "unknown_cluster",
        LineKind::Repeated => "repeated",
        LineKind::Mode => "mode",
        LineKind::TooLong => "too_long",
        LineKind::TooHeavy => "too_heavy",
        LineKind::TooManyRemotes => "too_many_remotes",
    }
}

fn refusal_line(alloc: Global, fault: LineFault) -> Result<Bytes, Memory>
    ensures { IfOk result (λ b. b ≡ program.refusal_line fault) }
{
    let mut text = Bytes::from_slice(alloc, "line ".as_bytes())?;
    text.extend_from_slice(fault.line.to_string(alloc)?.as_bytes())?;
    text.extend_from_slice(" ".as_bytes())?;
    text.extend_from_slice(kind_word(fault.kind).as_bytes())?;
    text.extend_from_slice("\n".as_bytes())?;
    Ok(text)
}

/// Writes the line that says why the input is no scenario; after a failure a front of it is written, and
/// nothing where memory was wanted.
pub fn write_refusal<W: Sink>(
    alloc: Global,
    sink: &mut W,
    fault: LineFault,
) -> Result<(), Unwritten>
    ensures written { OnOk result (HoldsMore (W.holds sink.old) (W.holds sink.new) (program.refusal_line fault)) }
    ensures failed { result ≡ Err Unwritten.Failed → HasFailed (W.faults sink.old) (W.faults sink.new) × HoldsFront (W.holds sink.old) (W.holds sink.new) (program.refusal_line fault) }
    ensures memory { result ≡ Err Unwritten.Memory → sink.new ≡ sink.old }
{
    let text = match refusal_line(alloc, fault) {
        Ok(text) => text,
        Err(_) => return Err(Unwritten::Memory),
    };
    match write_all(sink, text.as_slice()) {
        Ok(()) => Ok(()),
        Err(_) => Err(Unwritten::Failed),
    }
}
