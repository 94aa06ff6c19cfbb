//! The answer to a question.

use crate::arrays::rows_answer;
use crate::jsons::json_type_answer;
use crate::messages::messages_answer;
use crate::operations::{bounds_answer, cast_answer, numeric_answer};
use crate::protos::{proto_type_answer, resolve_answer};
use crate::scalars::{order_answer, scalar_answer};
use crate::types::{same_answer, type_answer};
use std::alloc::{AllocError, AllocFailed, Global};
use vortex_array::ArrayError;
use vortex_buffer::BufferError;
use vortex_dtype::DTypeError;
use vortex_ipc::IpcError;
use vortex_scalar::ScalarError;
use vortex_time::TemporalError;

/// Why a question has no answer, or a name alone.
pub(crate) enum Refusal {
    /// The line is no question.
    Unknown,
    /// A call on types refused.
    Type(DTypeError),
    /// A call on scalars refused.
    Scalar(ScalarError),
    /// A call on arrays refused.
    Array(ArrayError),
    /// A call on JSON refused.
    Json(TemporalError),
    /// Lack of memory.
    OutOfMemory,
}

impl From<DTypeError> for Refusal {
    fn from(error: DTypeError) -> Refusal {
        match error {
            DTypeError::OutOfMemory => Refusal::OutOfMemory,
            _ => Refusal::Type(error),
        }
    }
}

impl From<ScalarError> for Refusal {
    fn from(error: ScalarError) -> Refusal {
        match error {
            ScalarError::OutOfMemory => Refusal::OutOfMemory,
            _ => Refusal::Scalar(error),
        }
    }
}

impl From<ArrayError> for Refusal {
    fn from(error: ArrayError) -> Refusal {
        match error {
            ArrayError::OutOfMemory => Refusal::OutOfMemory,
            _ => Refusal::Array(error),
        }
    }
}

impl From<TemporalError> for Refusal {
    fn from(error: TemporalError) -> Refusal {
        match error {
            TemporalError::OutOfMemory => Refusal::OutOfMemory,
            _ => Refusal::Json(error),
        }
    }
}

impl From<BufferError> for Refusal {
    fn from(error: BufferError) -> Refusal {
        match error {
            BufferError::NotUtf8 => Refusal::Unknown,
            BufferError::OutOfMemory => Refusal::OutOfMemory,
        }
    }
}

impl From<IpcError> for Refusal {
    fn from(error: IpcError) -> Refusal {
        match error {
            IpcError::OutOfMemory => Refusal::OutOfMemory,
            _ => Refusal::Unknown,
        }
    }
}

impl From<AllocError> for Refusal {
    fn from(_error: AllocError) -> Refusal {
        Refusal::OutOfMemory
    }
}

impl<T: Drop> From<AllocFailed<T>> for Refusal {
    fn from(_error: AllocFailed<T>) -> Refusal {
        Refusal::OutOfMemory
    }
}

/// The answer to a line. There is none where memory runs out.
pub(crate) fn answer(alloc: Global, line: &str) -> Result<String, AllocError> {
    match asked(alloc, line) {
        Ok(text) => Ok(text),
        Err(Refusal::Unknown) => String::from_str(alloc, "Unknown"),
        Err(Refusal::Type(error)) => format!(in alloc; "{error:?}"),
        Err(Refusal::Scalar(error)) => format!(in alloc; "{error:?}"),
        Err(Refusal::Array(error)) => format!(in alloc; "{error:?}"),
        Err(Refusal::Json(error)) => format!(in alloc; "{error:?}"),
        Err(Refusal::OutOfMemory) => Err(AllocError),
    }
}

/// The answer to a question, by how many words stand behind its name.
fn asked(alloc: Global, line: &str) -> Result<String, Refusal> {
    let mut words = line.split(' ');
    let name = words.next().unwrap_or("");
    match (
        words.next(),
        words.next(),
        words.next(),
        words.next(),
        words.next(),
    ) {
        (Some(word), None, None, None, None) => answer_of_one(alloc, name, word),
        (Some(one), Some(other), None, None, None) => answer_of_two(alloc, name, one, other),
        (Some(op), Some(one), Some(other), None, None) if name == "numeric" => {
            numeric_answer(alloc, op, one, other)
        }
        (Some(names), Some(count), Some(dtype), Some(body), None) if name == "rows" => {
            rows_answer(alloc, names, count, dtype, body)
        }
        _ => Err(Refusal::Unknown),
    }
}

fn answer_of_one(alloc: Global, name: &str, bytes: &str) -> Result<String, Refusal> {
    match name {
        "proto-type" => proto_type_answer(alloc, bytes),
        "json-type" => json_type_answer(alloc, bytes),
        "scalar" => scalar_answer(alloc, bytes),
        _ => Err(Refusal::Unknown),
    }
}

fn answer_of_two(alloc: Global, name: &str, one: &str, other: &str) -> Result<String, Refusal> {
    match name {
        "type" => type_answer(alloc, one, other),
        "same" => same_answer(alloc, one, other),
        "resolve" => resolve_answer(alloc, one, other),
        "order" => order_answer(alloc, one, other),
        "bounds" => bounds_answer(alloc, one, other),
        "cast" => cast_answer(alloc, one, other),
        "messages" => messages_answer(alloc, one, other),
        _ => Err(Refusal::Unknown),
    }
}
