//! Laws of types and rows that stand on the definitions of `vortex_terms`, for the crates that select
//! rows and fields. Each is a function that does nothing when the program runs.
#![tactic(auto)]

mod columns;
mod fields;
mod types;

pub use columns::{columns_of_first_rows, columns_of_kept_rows, elements_of_kept_rows};
pub use fields::{fields_are_merged, fields_are_projected};
pub use types::{flags_leave_the_inside, paths_end, the_same_inside_is_the_same};
