//! What constructors of arrays share.

ghost use Rattle.vortex_array_data.specs.inner.Masks.{TakesMask};

use crate::error::ArrayError;
use vortex_mask::Mask;

/// How many rows an array has at most.
pub const MOST_ROWS: usize = 4_294_967_295;

/// The mask that is kept of one that is given for `len` rows: none under a type that is not
/// nullable, where it has to be true in each row.
pub fn fitting_mask(
    len: usize,
    nullable: bool,
    validity: Option<Mask>,
) -> Result<Option<Mask>, ArrayError>
    ensures { TakesMask len nullable validity result }
{
    let Some(mask) = validity else {
        return Ok(None);
    };
    if mask.len() != len {
        return Err(ArrayError::LengthMismatch);
    }
    if nullable {
        return Ok(Some(mask));
    }
    if mask.all_true() {
        return Ok(None);
    }
    Err(ArrayError::TypeMismatch)
}
