use crate::planned::{Planned, read_planned};
use crate::replayed::replayed;
use std::alloc::Global;
use store_api::Memory;

/// What is told of a case; its number is the one that the process ends with.
#[derive(Clone, Copy)]
pub enum Verdict {
    /// What must come came.
    Ok = 0,
    Different = 1,
    /// The text is no case.
    Faulty = 2,
}

/// What is told in place of a line behind a text's last one.
const END: &str = "the end";

/// The first two lines of the texts that differ.
fn first_different<'a>(wanted: &'a str, came: &'a str) -> (&'a str, &'a str) {
    let mut others = came.lines();
    for line in wanted.lines() {
        let other = others.next().unwrap_or(END);
        if other != line {
            return (line, other);
        }
    }
    (END, others.next().unwrap_or(END))
}

/// The verdict on a scenario, and the line that tells it.
fn tell(
    alloc: Global,
    name: &str,
    planned: &Planned,
    wanted: &str,
) -> Result<(Verdict, String), Memory> {
    let came = replayed(alloc, planned)?;
    if came.as_str() == wanted {
        return Ok((Verdict::Ok, format!(in alloc; "{name}: ok")?));
    }
    let (line, other) = first_different(wanted, &came);
    let told = format!(in alloc; "{name}: wanted `{line}`, came `{other}`")?;
    Ok((Verdict::Different, told))
}

/// The verdict on the scenario behind a name, which must come to this, and the line that tells it.
fn tell_named(alloc: Global, named: &str, wanted: &str) -> Result<(Verdict, String), Memory> {
    let name = named.split("\n").next().unwrap_or(named);
    match read_planned(alloc, named)? {
        Some(planned) => tell(alloc, name, &planned, wanted),
        None => {
            let told = format!(in alloc; "{name}: a line `store ..` names no loss")?;
            Ok((Verdict::Faulty, told))
        }
    }
}

/// The verdict on a case, which stands here without its `== ` and its last newline, and the line that
/// tells it.
pub fn tell_case(alloc: Global, case: &str) -> Result<(Verdict, String), Memory> {
    let Some((named, lines)) = case.split_once("\n-- ") else {
        let name = case.lines().next().unwrap_or(END);
        let told = format!(in alloc; "{name}: no line `-- STATUS`")?;
        return Ok((Verdict::Faulty, told));
    };
    let wanted = format!(in alloc; "{lines}\n")?;
    tell_named(alloc, named, &wanted)
}
