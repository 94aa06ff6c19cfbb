//! What contracts see of types and rows: terms, and what is said of them. There is no code here.
//!
//! The definitions stand in `specs/`, and each function here is a law of theirs: it does nothing,
//! and its contract holds of all types and rows.
#![tactic(auto)]

mod columns;
mod dictionary;
mod fields;
mod paths;
mod rows;
mod types;

pub use columns::{
    columns_are_found_again, parts_fit, parts_go_with_their_rows, passes_by_counts, passes_by_parts,
};
pub use dictionary::{codes_spell_the_rows, distinct_rows_are_the_fewest, one_row_more};
pub use fields::{
    fields_are_found, fields_are_joined, fields_are_made_of_fields, fields_are_names_and_types,
    measures_are_those_of_fields,
};
pub use paths::{names_find_the_first_field, paths_find_fitting_rows, paths_resolve};
pub use rows::{
    defaults_fit, equal_is_exact, fitting_rows_have_the_form, order_is_that_of_rust,
    order_is_total, rows_are_lists, structs_fit_by_place,
};
pub use types::{
    equality_is_exact, flags_are_changed, flags_are_compared, limits_are_exact, parts_are_smaller,
    same_is_an_equivalence, same_types_differ_in_flags_alone, tests_are_exact,
};
