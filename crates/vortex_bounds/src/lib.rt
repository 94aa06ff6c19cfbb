//! Short bytes and texts between which a long value lies.
#![tactic(auto)]

mod bytes;
mod laws;
mod texts;

pub use bytes::{lower_bytes, upper_bytes};
pub use laws::{bounds_are_worked, bounds_of_bytes, bounds_of_texts};
pub use texts::{lower_text, upper_text};

#[cfg(test)]
mod tests;
