//! The text of a report: one line for each row, the rows of a kind in byte order of their lines.
//!
//! `head` says what a block is. `escapes` puts bytes behind a line as a word has them. `words` has
//! the words of a line, `rows` the line of a row of each kind, `kinds` the lines of all rows of a
//! kind, and `lines` puts them in order. `printing` has the whole text, and `laws` says that the
//! order of rows means nothing.
//! It knows nothing of stores, readers or of how rows come about.
//! Its tests are the module `reports` of the crate `table_tests`.
#![tactic(auto)]

mod escapes;
mod head;
mod kinds;
mod laws;
mod lines;
mod printing;
mod rows;
mod words;

pub use head::Head;
pub use laws::{order_is_not_printed, sorts_lines};
pub use printing::report_bytes;
