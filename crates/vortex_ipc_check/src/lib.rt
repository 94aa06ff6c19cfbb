//! Tests of where the bodies of messages lie, and what header bytes are.
#![tactic(auto)]

#[cfg(test)]
mod array_tests;
mod laws;
#[cfg(test)]
mod tests;

pub use laws::headers_are_worked;
