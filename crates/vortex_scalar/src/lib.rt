//! Scalars: a type and a value that fits it.
#![tactic(auto)]

mod build;
mod cast;
mod impls;
mod message;
mod message_laws;
mod nested;
mod scalar;
mod scalar_type;
mod schema;
mod sizes;
mod views;
mod worked;

pub use message_laws::{written_rows_stay, written_scalars_are_read};
pub use scalar::Scalar;
pub use scalar_type::ScalarType;
pub use schema::scalar_schema;
pub use views::{
    BinaryScalar, BoolScalar, DecimalScalar, ExtScalar, ListScalar, PrimitiveScalar, StructScalar,
    Utf8Scalar,
};
pub use vortex_scalar_value::{ScalarError, ScalarValue, ValueRef};
pub use vortex_value_rows::rows_ignore_nullability;
pub use worked::{
    arithmetic_is_worked, bounds_of_scalars, casts_of_scalars_are_worked, casts_of_scalars_fit,
    recasts_are_worked, scalar_bounds_are_worked, text_bounds_are_worked,
};
