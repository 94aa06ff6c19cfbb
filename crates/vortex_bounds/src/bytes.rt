//! Bounds of bytes.

ghost use Rattle.std.specs.Prelude.{◌≡◌, IfOk, option_map};
ghost use Rattle.vortex_bounds.specs.Bytes.{byte_lower_bound, byte_upper_bound, raised_bytes};

use std::alloc::{AllocError, Global};

/// The first `max_length` bytes, or all of a shorter slice: at most the bytes, in their order.
pub fn lower_bytes(bytes: &[u8], max_length: usize) -> &[u8]
    ensures { result.now ≡ byte_lower_bound max_length bytes.now }
{
    &bytes[..max_length.min(bytes.len())]
}

/// The bytes, if they are at most `max_length`. Longer ones are cut there, and the last byte of the
/// cut that is below 255 is raised by one, with 0 after it; None where the cut has no such byte.
/// Its one error is that memory ran out.
pub fn upper_bytes(
    alloc: Global,
    bytes: &[u8],
    max_length: usize,
) -> Result<Option<Vec<u8>>, AllocError>
    ensures { IfOk result (λ bound. option_map (λ v. v.items) bound
        ≡ byte_upper_bound max_length bytes.now) }
{
    if bytes.len() <= max_length {
        return Ok(Some(Vec::from_slice(alloc, bytes)?));
    }
    raise(alloc, &bytes[..max_length])
}

fn raise(alloc: Global, bytes: &[u8]) -> Result<Option<Vec<u8>>, AllocError>
    ensures { IfOk result (λ bound. option_map (λ v. v.items) bound ≡ raised_bytes bytes.now) }
{
    let Some(place) = bytes.iter().rposition(|byte| *byte < u8::MAX) else {
        return Ok(None);
    };
    let mut raised = Vec::from_slice(alloc, &bytes[..place])?;
    raised.push(bytes[place] + 1)?;
    raised.resize(bytes.len(), 0)?;
    Ok(Some(raised))
}
