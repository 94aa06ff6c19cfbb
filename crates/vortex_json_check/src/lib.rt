//! Tests of the JSON of types and paths, and what texts at the ends of ranges stand for.
#![tactic(auto)]

mod laws;
#[cfg(test)]
mod tests;

pub use laws::edges_are_worked;
