//! Exact arithmetic of whole numbers and of decimals.
#![tactic(auto)]

mod decimal;
mod number;
#[cfg(test)]
mod tests;

pub use decimal::{
    decimals_are_worked, numbers_are_rescaled_exactly, ranges_have_ends, rescale, to_whole,
};
pub use number::{checked_binary, operators_are_worked, value_in};
