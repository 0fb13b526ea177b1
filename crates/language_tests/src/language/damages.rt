use super::{fault_of, text};
use mesh_base::Memory;
use scenario_lang::{LineFault, LineKind, Mode};
use std::alloc::Global;
use test_cases::{Answers, Wrong, each_line_holds};

const WHOLE: &str = "\
mesh 1|local home 9|remote east 1 direct|# x|node east n1 10.0.0.1|raw east put a b|tick 5|\
link east agent down|fail east exporter 0 after|compact home 2|turn agent east 7|restart agent|\
report|";

/// The number of the line in which a place lies.
fn line_at(text: &[u8], place: usize) -> u64 {
    let mut line: u64 = 1;
    for (i, byte) in text.iter().enumerate() {
        if i < place && *byte == b'\n' {
            line = line.saturating_add(1);
        }
    }
    line
}

fn begins_line(text: &[u8], place: usize) -> bool {
    match place.checked_sub(1) {
        Some(before) => text.get(before) == Some(&b'\n'),
        None => true,
    }
}

fn replaced(alloc: Global, whole: &[u8], place: usize, byte: u8) -> Result<Vec<u8>, Memory> {
    let mut text = Vec::from_slice(alloc, whole)?;
    if let Some(own) = text.get_mut(place) {
        *own = byte;
    }
    Ok(text)
}

fn fault(line: u64, kind: LineKind) -> Option<LineFault> {
    Some(LineFault { line, kind })
}

/// The first place where this byte is not refused in its line.
fn first_accepted(alloc: Global, whole: &[u8], byte: u8) -> Result<Option<usize>, Memory> {
    for place in 0..whole.len() {
        let text = replaced(alloc, whole, place, byte)?;
        let wanted = fault(line_at(whole, place), LineKind::Words);
        if fault_of(alloc, Mode::Step, text.as_slice())? != wanted {
            return Ok(Some(place));
        }
    }
    Ok(None)
}

/// The fault of a scenario that ends at this place.
fn fault_of_front(whole: &[u8], place: usize) -> Option<LineFault> {
    let line = line_at(whole, place);
    if !begins_line(whole, place) {
        return fault(line, LineKind::Words);
    }
    if line < 3 {
        return fault(line, LineKind::Header);
    }
    None
}

/// The first place at which the scenario ends with another fault than it must.
fn first_wrong_end(alloc: Global, whole: &[u8]) -> Result<Option<usize>, Memory> {
    for place in 0..=whole.len() {
        let (front, _) = whole.split_at(place);
        if fault_of(alloc, Mode::Step, front)? != fault_of_front(whole, place) {
            return Ok(Some(place));
        }
    }
    Ok(None)
}

/// Answers the first place at which a scenario has not the fault that it must have, with this byte
/// in place of its own, or cut there.
#[derive(Drop)]
struct Damages;

impl Answers for Damages {
    fn answer(&mut self, alloc: Global, asked: &str) -> Result<String, Memory> {
        let whole = text(alloc, WHOLE)?;
        let place = match asked.parse::<u8>() {
            Ok(byte) => first_accepted(alloc, whole.as_bytes(), byte)?,
            Err(_) => first_wrong_end(alloc, whole.as_bytes())?,
        };
        Ok(format!(in alloc; "{place:?}")?)
    }
}

const DAMAGES: &str = "\
9 => None
0 => None
127 => None
255 => None
cut => None
";

#[test]
fn a_damaged_scenario_is_refused_where_it_is_damaged(rt: HostRuntime) -> Result<(), Wrong> {
    each_line_holds(&mut Damages, rt.alloc(), DAMAGES)
}
