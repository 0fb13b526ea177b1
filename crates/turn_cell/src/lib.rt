//! A value that threads share by turns: each takes it out, changes it, and puts it back.
//!
//! `kept` says what contracts see of a shared value: a log whose entries have owners, and a fixed
//! part. `log` has such a log, which contracts alone see, for a value to hold. `cell` has the cell
//! and its passes, which take the turns. Below it `seat_steps` makes the steps of one turn on the
//! cell's table, `steps` says what each kind of step tells, and `view` has what a pass knows and
//! the rule that holds between any two steps.
//! It knows nothing of what the value is, nor of stores, boards or workers.
//! Its tests are the module `turns` of the crate `store_tests`, where `tally` is an example of a
//! value that is kept, and of a turn with it.
#![tactic(auto)]

mod cell;
mod kept;
mod log;
mod seat_steps;
mod steps;
mod view;

pub use cell::{Pass, TurnCell};
pub use kept::Kept;
pub use log::Log;
