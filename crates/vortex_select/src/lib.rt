//! Selects rows of a stream of columns: the top call, and what stands behind each of its answers.
#![tactic(auto)]

mod array_messages;
mod decoding;
mod error;
mod laws;
mod message_items;
mod message_parts;
mod note;
mod primitive;
mod program;
mod reading;
mod report;
mod rows;
pub mod schema;
mod whole_output;
mod words;

pub use error::SelectError;
pub use laws::{one_meaning, selected_again};
pub use program::run;
pub use report::{RowCounts, RunFault, RunReport};
