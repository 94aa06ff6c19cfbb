//! A path of names as a message.

ghost use Rattle.vortex_wire.specs.Finds.{Finds, FindsInMemory, all_bytes_of, bytes_of};
ghost use Rattle.vortex_proto.specs.PathMessage.{name_in, names_in, path_in};

use crate::schema::*;
use std::alloc::Global;
use vortex_wire::{WireError, WireValue, bytes_fields, only_field, text_of};

/// The names of a path, from the root on.
#[tactic(auto, unfolding(crate::specs::PathMessage::path_in))]
pub fn path_names(alloc: Global, b: &[u8]) -> Result<Vec<&str>, WireError>
    ensures { FindsInMemory (λ v. all_bytes_of v.items) result (path_in b.now) }
{
    let steps = bytes_fields(alloc, b, PATH_FIELDS)?;
    step_names(alloc, &steps)
}

/// The names of these steps.
fn step_names<'a>(alloc: Global, steps: &[&'a [u8]]) -> Result<Vec<&'a str>, WireError>
    ensures { FindsInMemory (λ v. all_bytes_of v.items) result (names_in (all_bytes_of steps.now)) }
{
    let mut names = Vec::new(alloc);
    for i in 0..steps.len() {
        match step_name(steps[i]) {
            Ok(name) => names.push(name)?,
            Err(error) => return Err(error),
        }
    }
    Ok(names)
}

/// The name of a step, which must be there, and once.
#[tactic(auto, unfolding(crate::specs::PathMessage::name_in))]
fn step_name(b: &[u8]) -> Result<&str, WireError>
    ensures { Finds bytes_of result (name_in b.now) }
{
    match only_field(b, FIELD_NAME, FIELD_NAME)? {
        Some(field) => match field.value {
            WireValue::Bytes(name) => text_of(name),
            _ => Err(WireError::Malformed),
        },
        None => Err(WireError::Malformed),
    }
}
