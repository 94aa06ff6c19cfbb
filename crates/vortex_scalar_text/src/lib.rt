//! Sizes, defaults and texts of the rows of scalars.
#![tactic(auto)]

mod defaults;
mod laws;
mod sizes;
mod temporal;
mod texts;

pub use defaults::default_value;
pub use laws::{
    nested_texts_are_worked, sizes_are_worked, temporal_texts_are_worked, texts_are_those_of_jiff,
    texts_are_worked, texts_follow_rows, value_texts_are_worked,
};
pub use sizes::byte_size;
pub use texts::write_scalar;
