//! Types and paths as Protocol Buffers messages, read where they stand.
#![tactic(auto)]

mod laws;
mod node;
mod path;
pub mod schema;
mod written;

pub use laws::{one_type_is_told, types_are_found};
pub use node::TypeMessage;
pub use path::path_names;
pub use written::{small_types_are_written, written_types_stand};
