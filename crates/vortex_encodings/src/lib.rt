//! Which encodings of arrays there are, and which a reader takes.
#![tactic(auto)]

mod registry;
pub mod schema;

pub use registry::ArrayRegistry;

#[cfg(test)]
mod tests;
