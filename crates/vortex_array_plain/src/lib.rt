//! Values as the rows of arrays in which no constant stands.
#![tactic(auto)]

mod plain_array;
mod plain_leaves;
mod plain_values;

pub use plain_array::plain;
