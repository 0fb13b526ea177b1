// What a line says, or the first of its faults.
ghost use Rattle.std.specs.Prelude.{◌≡◌, IfOk, IfSome, false};
ghost use Rattle.std.specs.List.{list_all};
ghost use Rattle.scenario_lang.specs.Answers.{Gives, stop_in, taken};
ghost use Rattle.scenario_lang.specs.Lines as lines;
ghost use Rattle.scenario_lang.specs.Split.{words};

use crate::draft::{Draft, after, breaks_mode, exceeds, repeats};
use crate::entries::row_entry;
use crate::entry::Entry;
use crate::fitting::fits_row;
use crate::kinds::{LineFault, LineKind, Mode};
use crate::splitting::next_word;
use crate::stops::Stop;
use crate::verb::{Verb, may_follow, place_of, verb_named};
use std::alloc::Global;

/// The most bytes of a line, without its newline.
pub(crate) const LONGEST_LINE: usize = 65_536;

/// The faults of a line whose words are right.
fn judge_entry(mode: Mode, draft: &Draft, entry: Entry) -> Result<Entry, Stop<LineKind>>
    ensures said { Gives result (lines.entry_said mode draft.now entry) }
    ensures fresh { IfOk result (λ e. lines.repeats draft.now e ≡ false) }
{
    if repeats(draft, &entry) {
        return Err(Stop::Fault(LineKind::Repeated));
    }
    if breaks_mode(mode, draft, &entry) {
        return Err(Stop::Fault(LineKind::Mode));
    }
    if exceeds(mode, draft, &entry) {
        return Err(Stop::Fault(LineKind::TooManyRemotes));
    }
    Ok(entry)
}

/// A line with this first word and these words behind it.
#[tactic(auto, unfolding(crate::specs::Lines::row_said))]
fn read_row(
    alloc: Global,
    mode: Mode,
    draft: &Draft,
    verb: Verb,
    rest: &[u8],
) -> Result<Entry, Stop<LineKind>>
    ensures said { Gives result (lines.row_said mode draft.now verb (words rest.now)) }
    ensures fresh { IfOk result (λ e. lines.repeats draft.now e ≡ false) }
{
    if !fits_row(alloc, verb, rest)? {
        return Err(Stop::Fault(LineKind::Words));
    }
    if !may_follow(draft.last, place_of(verb)) {
        return Err(Stop::Fault(LineKind::Header));
    }
    let entry = row_entry(alloc, draft, verb, rest)?;
    judge_entry(mode, draft, entry)
}

fn begins_comment(word: &[u8]) -> bool
    ensures { result ≡ lines.begins_comment word.now }
{
    match word {
        [] => false,
        [first, ..] => *first == b'#',
    }
}

/// A line of printable bytes; comments and lines without words say nothing.
#[tactic(auto, unfolding(crate::specs::Lines::words_said))]
fn read_words(
    alloc: Global,
    mode: Mode,
    draft: &Draft,
    line: &[u8],
) -> Result<Option<Entry>, Stop<LineKind>>
    ensures said { Gives result (lines.words_said mode draft.now (words line.now)) }
    ensures fresh { IfOk result (λ o. IfSome o (λ e. lines.repeats draft.now e ≡ false)) }
{
    let Some((first, rest)) = next_word(line) else {
        return Ok(None);
    };
    if begins_comment(first) {
        return Ok(None);
    }
    match verb_named(first) {
        Some(verb) => Ok(Some(read_row(alloc, mode, draft, verb, rest)?)),
        None => Err(Stop::Fault(LineKind::Words)),
    }
}

fn are_printable(line: &[u8]) -> bool
    ensures { result ≡ list_all lines.is_printable line.now }
{
    line.iter().all(|c| *c >= 32 && *c <= 126)
}

#[tactic(auto, unfolding(crate::specs::Lines::line_said))]
fn read_line(
    alloc: Global,
    mode: Mode,
    draft: &Draft,
    line: &[u8],
) -> Result<Option<Entry>, Stop<LineKind>>
    ensures said { Gives result (lines.line_said mode draft.now line.now) }
    ensures fresh { IfOk result (λ o. IfSome o (λ e. lines.repeats draft.now e ≡ false)) }
{
    if line.len() > LONGEST_LINE {
        return Err(Stop::Fault(LineKind::TooLong));
    }
    if !are_printable(line) {
        return Err(Stop::Fault(LineKind::Words));
    }
    read_words(alloc, mode, draft, line)
}

/// A stop in this line.
pub(crate) fn in_line(line: u64, stop: Stop<LineKind>) -> Stop<LineFault>
    ensures { result ≡ stop_in line stop }
{
    match stop {
        Stop::Memory => Stop::Memory,
        Stop::Fault(kind) => Stop::Fault(LineFault { line, kind }),
    }
}

/// The lines so far with this one, which has this number.
pub(crate) fn take_line(
    alloc: Global,
    mode: Mode,
    draft: Draft,
    number: u64,
    line: &[u8],
) -> Result<Draft, Stop<LineFault>>
    ensures { Gives result (taken mode draft number line.now) }
{
    match read_line(alloc, mode, &draft, line) {
        Ok(Some(entry)) => Ok(after(draft, number, entry)?),
        Ok(None) => Ok(draft),
        Err(stop) => Err(in_line(number, stop)),
    }
}
