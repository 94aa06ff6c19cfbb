//! Types and paths as JSON values of `serde_json`, and read from them.
#![tactic(auto)]

mod kinds;
mod laws;
mod lists;
mod parts;
mod paths;
mod read;
mod room;
mod written;

pub use kinds::{nullability_from_json, nullability_to_json, ptype_from_json, ptype_to_json};
pub use laws::{small_texts_are_read, small_types_are_written, written_json_is_read};
pub use paths::{field_from_json, field_to_json, path_from_json, path_to_json};
pub use read::dtype_from_json;
pub use written::dtype_to_json;
