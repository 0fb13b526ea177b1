// What a text says, or its first fault.
ghost use Rattle.std.specs.Prelude.{◌≡◌, ◌∷◌, ◌<◌, ◌≤◌, ◌^◌, [], IfOk, length, nat_lt};
ghost use Rattle.mesh_text.specs.Addresses.{split_at};
ghost use Rattle.scenario_lang.specs.Answers.{Gives};
ghost use Rattle.scenario_lang.specs.Lines as lines;
ghost use Rattle.scenario_lang.specs.Lines.{scenario_of};
ghost use Rattle.scenario_lang.specs.Valid.{IsValid};

use crate::draft::{Draft, no_lines};
use crate::kinds::{LineFault, LineKind, Mode};
use crate::line::{LONGEST_LINE, in_line, take_line};
use crate::scenario::{Action, Scenario};
use crate::splitting::piece;
use crate::stops::Stop;
use mesh_base::Memory;
use std::alloc::Global;

/// The most bytes of a text.
const LONGEST_TEXT: usize = 16_777_216;

/// The most bytes of a text, times one more than its heavy lines.
const GREATEST_WEIGHT: u128 = 67_108_864;

/// Behind the last newline stands nothing.
fn read_rest(rest: &[u8]) -> Result<(), Stop<LineKind>>
    ensures { Gives result (lines.rest_said rest.now) }
{
    if rest.len() > LONGEST_LINE {
        return Err(Stop::Fault(LineKind::TooLong));
    }
    if !rest.is_empty() {
        return Err(Stop::Fault(LineKind::Words));
    }
    Ok(())
}

/// On threads, the last action is a `settle`.
fn judge_settled(mode: Mode, unsettled: Option<u64>) -> Result<(), Stop<LineFault>>
    ensures { Gives result (lines.settled mode unsettled) }
{
    match (mode, unsettled) {
        (Mode::Run { .. }, Some(line)) => Err(Stop::Fault(LineFault {
            line,
            kind: LineKind::Mode,
        })),
        _ => Ok(()),
    }
}

/// What the lines say, where `mesh` and `local` stand among them.
fn complete(line: u64, draft: Draft) -> Result<Scenario, Stop<LineFault>>
    ensures { Gives result (lines.complete line draft draft.local) }
{
    let Draft {
        last: _,
        local,
        lease,
        remotes,
        actions,
        unsettled: _,
    } = draft;
    match local {
        Some(local) => Ok(Scenario {
            local,
            lease,
            remotes: remotes.into_items(),
            actions,
        }),
        None => Err(Stop::Fault(LineFault {
            line,
            kind: LineKind::Header,
        })),
    }
}

/// What stands at the end of the text, behind its last newline, with the number of the line there.
#[tactic(auto, unfolding(crate::specs::Lines::lines_said))]
fn finish(mode: Mode, draft: Draft, line: u64, rest: &[u8]) -> Result<Scenario, Stop<LineFault>>
    ensures { Gives result (lines.lines_said mode draft line (rest.now ∷ [])) }
{
    if let Err(stop) = read_rest(rest) {
        return Err(in_line(line, stop));
    }
    let unsettled = draft.unsettled;
    let scenario = complete(line, draft)?;
    judge_settled(mode, unsettled)?;
    Ok(scenario)
}

fn read_lines(alloc: Global, mode: Mode, text: &[u8]) -> Result<Scenario, Stop<LineFault>>
    requires { length text.now < 2 ^ 62 }
    ensures { Gives result (lines.lines_said mode lines.no_lines 1 (split_at 10 text.now)) }
{
    let mut draft = no_lines(alloc);
    let mut number: u64 = 1;
    let mut left = text;
    loop {
        let (line, more) = piece(left, b'\n');
        match more {
            Some(more) => {
                draft = match take_line(alloc, mode, draft, number, line) {
                    Ok(taken) => taken,
                    Err(stop) => return Err(stop),
                };
                number += 1;
                left = more;
            }
            None => return finish(mode, draft, number, line),
        }
    }
}

fn is_heavy(action: &Action) -> bool
    ensures { result ≡ lines.is_heavy action.now }
{
    match action {
        Action::Start { .. } | Action::Compact { .. } | Action::Fail { .. } => true,
        Action::RestartAgent | Action::Report => true,
        Action::Link { up, .. } => !*up,
        _ => false,
    }
}

/// How many heavy lines there are.
fn heavy_lines(actions: &[Action]) -> u128
    ensures count { result ≡ lines.heavy_lines actions.now }
    ensures few { result < 2 ^ 64 }
{
    let mut count: u128 = 0;
    for action in actions {
        if is_heavy(action) {
            count += 1;
        }
    }
    count
}

/// The text is too long for the number of its heavy lines.
fn is_too_heavy(scenario: &Scenario, bytes: usize) -> bool
    requires { bytes ≤ 16777216 }
    ensures { result ≡ nat_lt 67108864 (lines.weight scenario.now bytes) }
{
    (1 + heavy_lines(scenario.actions.as_slice())) * bytes as u128 > GREATEST_WEIGHT
}

/// The scenario that a text is in this mode, or its first fault.
///
/// Its lines are those of the language, each with a newline at its end; see `LineKind` for the
/// order of the faults. `Memory` comes where memory was wanted. The cost is linear in the bytes.
#[tactic(auto, unfolding(crate::specs::Lines::scenario_of, crate::specs::Split::lines))]
pub fn read_scenario(
    alloc: Global,
    bytes: &[u8],
    mode: Mode,
) -> Result<Result<Scenario, LineFault>, Memory>
    ensures said { IfOk result (λ r. r ≡ scenario_of mode bytes.now) }
    ensures valid { IfOk result (λ r. IfOk r (λ s. IsValid mode s)) }
{
    if bytes.len() > LONGEST_TEXT {
        return Ok(Err(LineFault {
            line: 0,
            kind: LineKind::TooLong,
        }));
    }
    let scenario = match read_lines(alloc, mode, bytes) {
        Ok(scenario) => scenario,
        Err(Stop::Memory) => return Err(Memory),
        Err(Stop::Fault(fault)) => return Ok(Err(fault)),
    };
    if is_too_heavy(&scenario, bytes.len()) {
        return Ok(Err(LineFault {
            line: 0,
            kind: LineKind::TooHeavy,
        }));
    }
    Ok(Ok(scenario))
}
