// A scenario with the calls that its stores lose, as the lines of a case have it.

use crate::losing::{Loss, When};
use std::alloc::Global;
use store_api::Memory;

/// A scenario, and the calls that are lost while it runs.
#[derive(Drop)]
pub struct Planned {
    pub losses: Vec<Loss>,
    pub scenario: String,
}

/// The place of the store that is called so: `local`, or a remote of the case.
fn place_of(case: &str, store: &str) -> Option<usize> {
    if store == "local" {
        return Some(0);
    }
    let mut place: usize = 0;
    for line in case.split("\n").skip(1) {
        if let Some(remote) = line.strip_prefix("remote ") {
            place = place.saturating_add(1);
            if remote.split(" ").next() == Some(store) {
                return Some(place);
            }
        }
    }
    None
}

fn read_when(word: &str) -> Option<When> {
    match word {
        "before" => Some(When::Before),
        "after" => Some(When::After),
        _ => None,
    }
}

/// The loss that a line of the case names behind its word `store`.
fn read_loss(case: &str, words: &str) -> Option<Loss> {
    let (store, loss) = words.split_once(" loses ")?;
    let (call, when) = loss.split_once(" ")?;
    Some(Loss {
        place: place_of(case, store)?,
        call: call.parse::<u64>().ok()?,
        when: read_when(when)?,
    })
}

/// The scenario behind the case's name, with the losses; `None` where a line that begins with `store` names
/// no loss.
pub fn read_planned(alloc: Global, case: &str) -> Result<Option<Planned>, Memory> {
    let mut losses = Vec::new(alloc);
    let mut scenario = String::new(alloc);
    for line in case.split("\n").skip(1) {
        match line.strip_prefix("store ") {
            Some(words) => match read_loss(case, words) {
                Some(loss) => losses.push(loss)?,
                None => return Ok(None),
            },
            None => {
                scenario.push_str(line)?;
                scenario.push_str("\n")?;
            }
        }
    }
    Ok(Some(Planned { losses, scenario }))
}
