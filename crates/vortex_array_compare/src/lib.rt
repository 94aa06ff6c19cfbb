//! Rows of arrays compared with a scalar.
#![tactic(auto)]

mod compare;
mod compare_numbers;
mod compare_rows;
mod compare_texts;
mod compare_values;
mod uniform;

pub use compare::Compare;
