//! Tests of flat buffers: worked rows of what is read, and layouts as they are listed.
#![tactic(auto)]

mod laws;
#[cfg(test)]
mod layout_tests;
#[cfg(test)]
mod reading_tests;

pub use laws::{a_buffer_is_worked, tables_are_small, words_are_worked};
