//! Replays the scenario on standard input over fresh stores in memory, and writes its reports to standard output.
//!
//! The replay is the crate `scenario_replay`; here are its adapters over the process.
#![tactic(auto)]

ghost use Rattle.std.specs.Prelude.{◌≡◌};
ghost use Rattle.mesh_replay.specs.Statuses.{status_number};

use scenario_replay::{Status, fresh_stores, mesh_steps};
use std::process::ExitCode;
use std::{env, io};
use store_api::{ReaderSource, WriterSink};

fn status_number(status: Status) -> u8
    ensures { result ≡ status_number status }
{
    match status {
        Status::Done => 0,
        Status::Usage => 1,
        Status::Scenario { line: _, kind: _ } => 2,
        Status::ReadFault => 4,
        Status::WriteFault => 5,
        Status::Memory => 6,
    }
}

fn words_of(rt: &HostRuntime) -> io::Result<Vec<String>> {
    let mut words = Vec::new(rt.alloc());
    for word in env::args(rt)?.skip(1) {
        words.push(word)?;
    }
    Ok(words)
}

fn serve(rt: &HostRuntime) -> Status {
    let alloc = rt.alloc();
    let words = match words_of(rt) {
        Ok(words) => words,
        // Words that are no UTF-8 are none that the program serves.
        Err(error) if error.kind() == io::ErrorKind::InvalidData => Vec::new(alloc),
        Err(_) => return Status::Memory,
    };
    let Ok(mut stores) = fresh_stores(alloc) else {
        return Status::Memory;
    };
    let mut source = ReaderSource::new(rt.stdin());
    let mut sink = WriterSink::new(rt.stdout());
    mesh_steps(
        alloc,
        words.as_slice(),
        &mut source,
        &mut sink,
        stores.as_mut_slice(),
    )
}

fn main(rt: HostRuntime) -> ExitCode {
    ExitCode::from(status_number(serve(&rt)))
}
