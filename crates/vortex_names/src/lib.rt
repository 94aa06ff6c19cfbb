//! The small parts of types: nullability, decimals, names of fields, and names of extensions.
#![tactic(auto)]

mod decimal;
mod error;
mod extension;
mod field_names;
mod name;
mod nullable;
mod selector;

pub use decimal::{
    DECIMAL128_MAX_PRECISION, DECIMAL128_MAX_SCALE, DECIMAL256_MAX_PRECISION, DECIMAL256_MAX_SCALE,
    DecimalDType, decimal_limits,
};
pub use error::DTypeError;
pub use extension::{ExtID, ExtMetadata};
pub use field_names::{FieldNames, FieldNamesIntoIter, FieldNamesIter};
pub use name::FieldName;
pub use nullable::Nullability;
pub use selector::Field;

#[cfg(test)]
mod tests;
