//! Runs the cases on standard input, each a scenario with what must come of it, and tells of each whether it came.
//!
//! A case is a line `== NAME`, the scenario's lines, a line `-- STATUS`, and the lines that must be
//! written, up to the next case:
//!
//! ```text
//! == one remote without a store
//! mesh 1
//! local home 9
//! remote east 1 direct
//! report
//! -- done
//! report 1
//! source east direct held 0
//! end
//! ```
//!
//! STATUS is `done`, or `scenario` where the text is no scenario and the line that says so is written.
//!
//! In front of the scenario a line `store STORE loses CALL before` has a store lose one of its calls, which
//! are counted from 1, and one with `after` has it lose the call's answer once the call is made. STORE is a
//! remote, or `local` for the local cluster's store. A compaction is not counted, and is never lost. A loss
//! that does not come is told.
//!
//! For each case one line is written: `NAME: ok`, or the first line that differs, as it is wanted and
//! as it came. The process ends with 0 where all are ok, with 1 where one is not, and with 2 where the
//! input has a fault of form.
//!
//! The cases `ends/ACTION/END` have each action of a scenario with each way in which it can end.
//!
//! `losing` has stores that lose calls, `planned` reads a scenario with its losses, `replayed` runs it, and
//! `case` reads a case and tells what came of it.
#![tactic(auto)]

mod case;
mod losing;
mod planned;
mod replayed;

use case::{Verdict, tell_case};
use std::io;
use std::process::ExitCode;

/// Writes the line of a case, and gives its verdict.
fn write_case(rt: &HostRuntime, case: &str) -> io::Result<Verdict> {
    match tell_case(rt.alloc(), case) {
        Ok((verdict, line)) => {
            println!(rt; "{line}")?;
            Ok(verdict)
        }
        Err(_) => Err(io::Error::from(io::ErrorKind::OutOfMemory)),
    }
}

/// Writes the line of each case, and gives the worst verdict as the number that the process ends with.
fn write_cases(rt: &HostRuntime, cases: &str) -> io::Result<u8> {
    let mut worst = 0;
    for case in cases.split("\n== ") {
        let verdict = write_case(rt, case)?;
        worst = worst.max(verdict as u8);
    }
    Ok(worst)
}

/// Writes the lines of an input, and gives the number that the process ends with.
fn write_input(rt: &HostRuntime, input: &str) -> io::Result<u8> {
    let Some(cases) = input.strip_prefix("== ") else {
        println!(rt; "the first line is no `== NAME`")?;
        return Ok(Verdict::Faulty as u8);
    };
    write_cases(rt, cases.strip_suffix("\n").unwrap_or(cases))
}

fn main(rt: HostRuntime) -> io::Result<ExitCode> {
    let input = io::read_to_string(rt.alloc(), rt.stdin())?;
    Ok(ExitCode::from(write_input(&rt, &input)?))
}
