//! Questions on types as JSON.

use crate::answers::Refusal;
use crate::words::{buffer_of, word_of};
use serde_json::Value;
use std::alloc::Global;
use vortex_json::{dtype_from_json, dtype_to_json};
use vortex_time::TemporalError;

/// The type of a JSON text, as a Protocol Buffers message and as the JSON that is written for it.
pub(crate) fn json_type_answer(alloc: Global, bytes: &str) -> Result<String, Refusal> {
    let value = value_of(alloc, bytes)?;
    let dtype = dtype_from_json(alloc, &value)?;
    let message = word_of(alloc, dtype.to_proto(alloc)?.as_slice())?;
    let written = dtype_to_json(alloc, &dtype)?.to_string(alloc)?;
    let text = word_of(alloc, written.as_bytes())?;
    Ok(format!(in alloc; "ok {message} {text}")?)
}

/// The value of a JSON text.
fn value_of(alloc: Global, bytes: &str) -> Result<Value, Refusal> {
    match Value::from_slice(alloc, buffer_of(alloc, bytes)?.as_slice()) {
        Ok(value) => Ok(value),
        Err(error) if error.is_memory() => Err(Refusal::OutOfMemory),
        Err(_) => Err(Refusal::Json(TemporalError::BadJson)),
    }
}
