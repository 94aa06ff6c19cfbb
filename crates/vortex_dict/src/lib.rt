//! Columns as dictionaries: each value once, and for each row its place among these as its code.
#![tactic(auto)]

mod bytes;
mod bytes_rows;
mod code_type;
mod columns;
mod constraints;
mod laws;
mod native_value;
mod numbers;
mod primitive;
mod primitive_rows;
mod widths;

pub use bytes::BytesDictEncoder;
pub use bytes_rows::BytesRows;
pub use code_type::CodeType;
pub use columns::{encode_all_bytes, encode_all_numbers};
pub use constraints::{DictConstraints, UNCONSTRAINED};
pub use laws::{
    code_types_suffice, dictionaries_are_shortest, encoded_is_not_too_large,
    encodings_are_distinct, nothing_is_over_no_limits,
};
pub use native_value::NativeValue;
pub use primitive::PrimitiveDictEncoder;
pub use primitive_rows::PrimitiveRows;
pub use vortex_codes::{BytesHash, CodeTable, DictError, KeyHash, MayAdd, Pieces};
pub use widths::{DictCodes, bytes_code_type, least_code_type, primitive_code_type};

#[cfg(test)]
mod tests;
