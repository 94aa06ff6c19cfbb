//! Conversions between scalars and native values.
#![tactic(auto)]

mod decimals;
mod lists;
mod native_numbers;
mod native_option;
mod native_scalar;
mod native_texts;
mod numbers;
mod plain;
mod scalars;
#[cfg(test)]
mod tests;
mod texts;

pub use decimals::{to_decimal, to_decimal_opt};
pub use lists::{from_vec, to_list, to_list_opt};
pub use native_option::from_option;
pub use native_scalar::{NativeScalar, rows_are_kept};
pub use numbers::{
    to_i8, to_i8_opt, to_i16, to_i16_opt, to_i32, to_i32_opt, to_i64, to_i64_opt, to_u8, to_u8_opt,
    to_u16, to_u16_opt, to_u32, to_u32_opt, to_u64, to_u64_opt, to_usize, to_usize_opt,
};
pub use plain::{to_bool, to_bool_opt, to_unit};
pub use scalars::{from_bool, from_bytes, from_decimal_value, from_native, from_text, from_usize};
pub use texts::{
    to_buffer_string, to_buffer_string_opt, to_bytes, to_bytes_opt, to_text, to_text_opt,
};
pub use vortex_scalar::ScalarError;
