//! Casts of values from one type to another.
#![tactic(auto)]

mod cast;
mod laws;
mod leaf;

pub use cast::cast_value;
pub use laws::{
    casts_are_refused, casts_are_worked, casts_fit, decimals_are_cast, kinds_of_casts_are_worked,
    nulls_are_cast, parts_are_cast, ranges_are_cast,
};
