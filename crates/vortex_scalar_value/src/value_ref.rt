//! Values taken apart.

use crate::scalar_value::ScalarValue;
use vortex_buffer::{BufferString, ByteBuffer};
use vortex_value::{DecimalValue, PValue};

/// A value taken apart. It takes no memory.
#[derive(Clone, Copy)]
pub enum ValueRef<'a> {
    Null,
    Bool(bool),
    Primitive(PValue),
    Decimal(DecimalValue),
    Buffer(&'a ByteBuffer),
    BufferString(&'a BufferString),
    List(&'a [ScalarValue]),
}
