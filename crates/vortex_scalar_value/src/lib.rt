//! Values of scalars without their types.
#![tactic(auto)]

mod display;
mod error;
mod laws;
mod reading;
mod scalar_value;
mod schema;
mod value_ref;
mod writing;

pub use error::ScalarError;
pub use laws::{
    found_values_stand, one_value_stands, small_values_are_written, written_values_stand,
};
pub use scalar_value::ScalarValue;
pub use schema::value_schema;
pub use value_ref::ValueRef;

#[cfg(test)]
mod tests;
