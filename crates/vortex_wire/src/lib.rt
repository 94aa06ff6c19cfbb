//! The fields of Protocol Buffers messages, and the metadata records that are such messages.
#![tactic(auto)]

mod backward;
mod error;
mod field;
mod inside;
mod message;
mod metadata;
mod schema;
mod varint;

pub use backward::Backward;
pub use error::WireError;
pub use field::{Fields, WireField, WireValue, put_bytes};
pub use inside::{
    bytes_fields, flag, is_message, message_field, optional_bytes, singular_i32, singular_text,
    text_of, texts,
};
pub use message::{only_field, put_varint_field, singular_u32, singular_varint};
pub use metadata::{DecimalMetadata, DictMetadata, ListMetadata};
pub use schema::metadata_schema;
pub use varint::put_varint;

#[cfg(test)]
mod tests;
