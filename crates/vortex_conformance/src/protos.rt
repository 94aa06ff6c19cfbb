//! Questions on types and paths as Protocol Buffers messages.

use crate::answers::Refusal;
use crate::words::{buffer_of, word_of};
use std::alloc::Global;
use vortex_dtype::{DType, FieldPath};

/// The type of a message, as the message that is written for it and as text.
pub(crate) fn proto_type_answer(alloc: Global, bytes: &str) -> Result<String, Refusal> {
    let dtype = type_of(alloc, bytes)?;
    let bytes = word_of(alloc, dtype.to_proto(alloc)?.as_slice())?;
    let text = word_of(alloc, format!(in alloc; "{dtype}")?.as_bytes())?;
    Ok(format!(in alloc; "ok {bytes} {text}")?)
}

/// The type to which a path leads, as text.
pub(crate) fn resolve_answer(alloc: Global, path: &str, dtype: &str) -> Result<String, Refusal> {
    let path = FieldPath::from_proto(alloc, buffer_of(alloc, path)?.as_slice())?;
    let dtype = type_of(alloc, dtype)?;
    match path.resolve(alloc, &dtype)? {
        Some(part) => {
            let text = word_of(alloc, format!(in alloc; "{part}")?.as_bytes())?;
            Ok(format!(in alloc; "ok {text}")?)
        }
        None => Ok(String::from_str(alloc, "none")?),
    }
}

fn type_of(alloc: Global, bytes: &str) -> Result<DType, Refusal> {
    Ok(DType::from_proto(alloc, buffer_of(alloc, bytes)?.as_slice())?)
}
