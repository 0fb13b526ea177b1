// The words of cases.

use mesh_base::Memory;
use std::alloc::Global;

/// The first word, and those behind it.
pub(crate) fn first_word(text: &str) -> (&str, &str) {
    text.split_once(" ").unwrap_or((text, ""))
}

/// The number that the word writes, or 0.
pub(crate) fn number(word: &str) -> u64 {
    word.parse::<u64>().unwrap_or(0)
}

/// A text on one line, each of its lines with `|` for its end.
pub(crate) fn on_one_line(alloc: Global, text: &[u8]) -> Result<String, Memory> {
    let text = String::from_utf8_lossy(alloc, text)?;
    Ok(text.replace(alloc, "\n", "|")?)
}
