use crate::losing::losing_stores;
use crate::planned::Planned;
use scenario_replay::{Status, mesh_steps};
use std::alloc::Global;
use store_api::{BytesSink, BytesSource, Memory};

/// The most bytes that a case may write.
const ROOM: usize = 1000000;

/// The line behind all others where a loss did not come.
const NOT_LOST: &str = "a call that was to be lost was not made\n";

fn status_word(status: Status) -> &'static str {
    match status {
        Status::Done => "done",
        Status::Usage => "usage",
        Status::Scenario { line: _, kind: _ } => "scenario",
        Status::ReadFault => "read_fault",
        Status::WriteFault => "write_fault",
        Status::Memory => "memory",
    }
}

/// How a replay of the scenario ends, on fresh stores that lose the planned calls, and whether each of these
/// was made; what it writes is in the sink.
fn replay(
    alloc: Global,
    planned: &Planned,
    sink: &mut BytesSink,
) -> Result<(Status, bool), Memory> {
    let words = vec![in alloc; String::from_str(alloc, "step")?]?;
    let bytes = Vec::from_slice(alloc, planned.scenario.as_bytes())?;
    let mut source = BytesSource::new(bytes, Vec::new(alloc));
    let mut stores = losing_stores(alloc, planned.losses.as_slice())?;
    let status = mesh_steps(
        alloc,
        words.as_slice(),
        &mut source,
        sink,
        stores.as_mut_slice(),
    );
    Ok((status, stores.iter().all(|store| store.is_done())))
}

/// The status of a replay of the scenario as a line, and behind it what it writes.
pub fn replayed(alloc: Global, planned: &Planned) -> Result<String, Memory> {
    let mut sink = BytesSink::new(alloc, ROOM, Vec::new(alloc))?;
    let (status, is_done) = replay(alloc, planned, &mut sink)?;
    let word = status_word(status);
    let written = String::from_utf8_lossy(alloc, sink.bytes())?;
    let rest = if is_done { "" } else { NOT_LOST };
    Ok(format!(in alloc; "{word}\n{written}{rest}")?)
}
