//! Types: what they are, how they compare, print and hash, and how they are written as flat buffers
//! and read from them, and as Protocol Buffers messages.
#![tactic(auto)]

mod accessors;
mod display;
mod dtype;
mod element;
mod equality;
mod extension;
mod field_dtype;
mod from_proto;
mod hash;
mod name_index;
mod nullability;
mod predicates;
mod projection;
mod reading;
mod room;
mod shape;
mod struct_fields;
mod struct_fields_iter;
mod to_proto;
mod type_ref;
mod writing;

pub use dtype::DType;
pub use element::Element;
pub use extension::ExtDType;
pub use field_dtype::FieldDType;
pub use reading::{check_type, read_type};
pub use shape::{FieldsRef, Shape};
pub use struct_fields::StructFields;
pub use struct_fields_iter::StructFieldsIter;
pub use type_ref::TypeRef;
pub use writing::written_types_are_read;
