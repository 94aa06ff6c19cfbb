//! Views of scalars, by kinds of types.

mod arithmetic;
mod binary;
mod bool;
mod bounds;
mod compare;
mod content;
mod decimal;
mod display;
mod extension;
pub(crate) mod fitting;
mod held;
mod kinds;
mod list;
mod numbers;
mod primitive;
mod struct_;
mod text_order;
mod truths;
mod utf8;

pub use self::binary::BinaryScalar;
pub use self::bool::BoolScalar;
pub use self::decimal::DecimalScalar;
pub use self::primitive::PrimitiveScalar;
pub use extension::ExtScalar;
pub use list::ListScalar;
pub use struct_::StructScalar;
pub use utf8::Utf8Scalar;
