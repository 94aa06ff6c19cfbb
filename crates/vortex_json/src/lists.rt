//! Lists of texts and of bytes.

ghost use Rattle.serde_json.specs.Find.{as_str};
ghost use Rattle.serde_json.specs.View.{items_view};
ghost use Rattle.vortex_types.specs.Standing.{IsFoundAs};
ghost use Rattle.vortex_json.specs.Found.{bits_found, each_found};

use crate::parts::{byte, text};
use serde_json::Value;
use std::alloc::Global;
use vortex_names::{DTypeError, FieldName};

/// Names of fields, one after the other.
pub(crate) fn read_names(alloc: Global, items: &[Value]) -> Result<Vec<FieldName>, DTypeError>
    ensures { IsFoundAs (λ v. v.items) result (each_found as_str (items_view items.now)) }
{
    let mut names = Vec::new(alloc);
    for item in items {
        match text(item) {
            Ok(name) => names.push(FieldName::from_text(alloc, name)?)?,
            Err(error) => return Err(error),
        }
    }
    Ok(names)
}

/// Bytes, one after the other.
pub(crate) fn read_bytes(alloc: Global, items: &[Value]) -> Result<Vec<u8>, DTypeError>
    ensures { IsFoundAs (λ v. v.items) result (each_found (bits_found 8) (items_view items.now)) }
{
    let mut bytes = Vec::new(alloc);
    for item in items {
        match byte(item) {
            Ok(number) => bytes.push(number)?,
            Err(error) => return Err(error),
        }
    }
    Ok(bytes)
}
