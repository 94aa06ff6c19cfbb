//! A plain, slow program that computes what `vortex_terms` defines, over plain types.
#![tactic(auto)]

mod defaults;
mod dictionary;
mod flags;
mod legality;
mod models;
mod paths;
mod plain;
mod rows;
mod selection;
mod sizes;
mod types;
mod worked;

pub use defaults::{copy, default_row};
pub use dictionary::{codes_of, distinct};
pub use flags::{bare, part, type_number};
pub use legality::{bounded, legal};
pub use models::{ByteScalar, Flags, Path, TextType};
pub use paths::{keeps, value_at};
pub use plain::{PlainFields, PlainRelation, PlainRow, PlainRows, PlainType, WholeKind};
pub use rows::{compare, fits};
pub use selection::{matches, rows_in, selected, target};
pub use sizes::{passes, size_of};
pub use types::{levels, nodes, nullable, same, text_length};
pub use worked::{edges_of_limits, edges_of_sizes, null_over_a_fixed_size, null_over_parts};

#[cfg(test)]
mod query_tests;
#[cfg(test)]
mod tests;
