//! Which row a value without a type is under a type: whether it fits, how two compare, what is
//! hashed.
#![tactic(auto)]

mod fit;
mod hash;
mod leaf;
mod order;
mod part_types;
mod row_laws;
mod row_refs;

pub use fit::fits;
pub use hash::hash_row;
pub use leaf::number_of_bytes;
pub use order::compare;
pub use part_types::{Inside, part_at, parts_of, value_at};
pub use row_laws::rows_ignore_nullability;
pub use row_refs::{RowRef, row_ref};
