//! The tests of what a cluster writes: its records, how they are checked, and its marks.
//!
//! `values` tests `record_values`, `record_reading` and `mesh_records`, `checks` tests
//! `record_check`, and `marks` tests `synced_marks`. Their cases are lines of text, which
//! `test_cases` reads.
#![tactic(auto)]

#[cfg(test)]
mod checks;
#[cfg(test)]
mod marks;
#[cfg(test)]
mod values;
