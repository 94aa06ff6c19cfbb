//! Types as they stand in flat buffers.
#![tactic(auto)]

mod budget;
mod error;
mod fields;
mod kind;
mod laws;
mod node;
mod place;
pub mod schema;
mod tables;
mod walk;

pub use error::Malformed;
pub use fields::FieldsAt;
pub use kind::TypeKind;
pub use laws::{
    bounded_types_are_found, found_types_stand, laid_out_types_stand, one_type_stands,
    small_types_are_laid_out, standing_types_are_found,
};
pub use node::TypeNode;
pub use place::TypeAt;

#[cfg(test)]
mod tests;
