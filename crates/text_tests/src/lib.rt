//! The tests of what is spelled: lists of bytes, the smallest texts of the mesh, and its keys.
//!
//! `lists` are the tests of mesh_base, `texts` those of mesh_text, and `keys` those of key_paths.
#![tactic(auto)]

#[cfg(test)]
mod keys;
#[cfg(test)]
mod lists;
#[cfg(test)]
mod texts;
