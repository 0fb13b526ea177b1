//! Test cases as lines of text, each with what is asked, ` => `, and what must be answered.
//!
//! A test crate writes one `Answers` for each kind of case, and its tests are texts of such lines.
//! It knows nothing of what is tested.
#![tactic(auto)]

use mesh_base::Memory;
use std::alloc::Global;

/// What a script of lines is run on: a function under test, or a value that its calls change.
pub trait Answers {
    /// Answers in words what is asked; no answer holds ` => `.
    fn answer(&mut self, alloc: Global, asked: &str) -> Result<String, Memory>;
}

/// Why a script does not hold.
#[derive(Debug, Drop)]
pub enum Wrong {
    /// This line is answered otherwise than it says; what was answered stands behind it.
    Line(String),
    /// Memory was refused.
    Memory,
}

impl From<Memory> for Wrong {
    fn from(_: Memory) -> Wrong {
        Wrong::Memory
    }
}

// The line, with what was answered behind it.
fn answered_line(alloc: Global, line: &str, answered: &str) -> Result<String, Memory> {
    Ok(format!(in alloc; "{line}: {answered}")?)
}

// Fails with the line and what was answered, where that is not what must be.
fn line_holds<A: Answers>(answering: &mut A, alloc: Global, line: &str) -> Result<(), Wrong> {
    let Some((asked, wanted)) = line.split_once(" => ") else {
        return Err(Wrong::Line(answered_line(alloc, line, "no ` => `")?));
    };
    let answered = answering.answer(alloc, asked)?;
    if answered.as_str() == wanted {
        return Ok(());
    }
    Err(Wrong::Line(answered_line(alloc, line, answered.as_str())?))
}

/// Runs the lines in their order, and fails with the first that is answered otherwise than it says.
pub fn each_line_holds<A: Answers>(
    answering: &mut A,
    alloc: Global,
    lines: &str,
) -> Result<(), Wrong> {
    for line in lines.lines() {
        line_holds(answering, alloc, line)?;
    }
    Ok(())
}
