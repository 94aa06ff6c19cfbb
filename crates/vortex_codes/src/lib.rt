//! A table of codes: keys without repeats, each found by a hash of it, at its place as its code.
#![tactic(auto)]

mod error;
mod hash;
mod hashed;
mod keys;
mod may_add;
mod ordered;
mod slots;
mod table;

pub use error::DictError;
pub use hash::{BytesHash, KeyHash};
pub use may_add::MayAdd;
pub use table::{CodeTable, Pieces};

#[cfg(test)]
mod tests;
