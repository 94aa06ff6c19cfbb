//! Arrays that are read from the nodes of bodies.
#![tactic(auto)]

mod agreement;
mod context;
mod decode;
mod decode_nested;
mod parts;

pub use agreement::agreement_is_worked;
pub use context::ArrayContext;
pub use parts::ArrayParts;
