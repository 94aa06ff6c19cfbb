//! Arrays that hold constants, laid out.
#![tactic(auto)]

mod canonical;
mod canonical_parts;
mod canonical_values;
mod laws;

pub use canonical::ToCanonical;
pub use laws::canonicals_are_worked;
