mod actions;
mod damages;
mod faults;
mod sizes;

use mesh_base::Memory;
use scenario_lang::{LineFault, Mode, read_scenario};
use std::alloc::Global;
use test_cases::{Answers, Wrong, each_line_holds};

const RUN: Mode = Mode::Run { probes: 4 };

/// Three lines, before lines that name the remote `east`.
const HEAD: &str = "mesh 1|local home 9|remote east 1 direct|";

/// A text between two others, so often.
#[derive(Drop)]
struct Repeat<'a> {
    before: &'a str,
    times: usize,
    piece: &'a str,
    after: &'a str,
}

/// A count, and what stands behind its `:`.
fn counted(written: &str) -> Option<(usize, &str)> {
    let (count, rest) = written.split_once(':')?;
    Some((count.parse::<usize>().ok()?, rest))
}

/// The part `{times:piece}` of a text, and what is around it.
fn repeat_in(written: &str) -> Option<Repeat<'_>> {
    let (before, rest) = written.split_once('{')?;
    let (repeated, after) = rest.split_once('}')?;
    let (times, piece) = counted(repeated)?;
    Some(Repeat {
        before,
        times,
        piece,
        after,
    })
}

/// A text as cases write it: `|` ends a line, and `{5:a}`, once at most, is five times `a`.
fn text(alloc: Global, written: &str) -> Result<String, Memory> {
    let lines = written.replace(alloc, "|", "\n")?;
    let Some(repeat) = repeat_in(lines.as_str()) else {
        return Ok(lines);
    };
    let pieces = repeat.piece.repeat(alloc, repeat.times)?;
    Ok(format!(in alloc; "{}{pieces}{}", repeat.before, repeat.after)?)
}

/// The first fault of a text.
fn fault_of(alloc: Global, mode: Mode, text: &[u8]) -> Result<Option<LineFault>, Memory> {
    Ok(read_scenario(alloc, text, mode)?.err())
}

fn told_fault(alloc: Global, fault: Option<LineFault>) -> Result<String, Memory> {
    match fault {
        Some(LineFault { line, kind }) => Ok(format!(in alloc; "{line} {kind:?}")?),
        None => Ok("none".to_string(alloc)?),
    }
}

/// Answers the first fault of lines that stand behind a head.
#[derive(Drop)]
struct FirstFault {
    mode: Mode,
    head: &'static str,
}

impl Answers for FirstFault {
    fn answer(&mut self, alloc: Global, asked: &str) -> Result<String, Memory> {
        let written = format!(in alloc; "{}{asked}", self.head)?;
        let text = text(alloc, written.as_str())?;
        told_fault(alloc, fault_of(alloc, self.mode, text.as_bytes())?)
    }
}

/// Holds where the lines behind this head have the first faults that the cases say.
fn each_fault_holds(
    alloc: Global,
    mode: Mode,
    head: &'static str,
    cases: &str,
) -> Result<(), Wrong> {
    each_line_holds(&mut FirstFault { mode, head }, alloc, cases)
}
