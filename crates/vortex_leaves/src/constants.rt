//! One value for all rows.

ghost use Rattle.std.specs.Prelude.{◌≡◌, ℕ, List};
ghost use Rattle.std.specs.Option.{option_map};
ghost use Rattle.vortex_terms.specs.Term.{Term};
ghost use Rattle.vortex_terms.specs.Row.{copies};
ghost use Rattle.vortex_types.specs.TypeRefs.{ref_term};
ghost use Rattle.vortex_scalar_value.specs.Reading.{value_in};
ghost use Rattle.vortex_value_rows.specs.RowOf.{row_under};
ghost use Rattle.vortex_body.specs.Node.{node_buffers};
ghost use Rattle.vortex_node_rows.specs.Leaves.{constant_rows};
ghost use Rattle.vortex_leaves.specs.Answers.{Answers};
ghost use Rattle.vortex_leaves.specs.Constant.{fitting_value};

use crate::LeafError;
use crate::buffers::one_buffer;
use std::alloc::Global;
use vortex_body::NodeParts;
use vortex_scalar_value::{ScalarError, ScalarValue, found_values_stand};
use vortex_types::TypeRef;
use vortex_value_rows::fits;

/// The value of a message, of at most 128 levels.

fn value_of(alloc: Global, bytes: &[u8]) -> Result<ScalarValue, LeafError>
    ensures { Answers (λ v. v) result (value_in 128 bytes.now) }
{
    found_values_stand();
    match ScalarValue::from_protobytes(alloc, bytes) {
        Ok(value) => Ok(value),
        Err(ScalarError::OutOfMemory) => Err(LeafError::OutOfMemory),
        Err(_) => Err(LeafError::Malformed),
    }
}

/// The value whose message the one buffer is, where it fits the type. It has 128 levels at most.
#[tactic(auto, unfolding(crate::specs::Constant::fitting_value))]
pub fn constant(
    alloc: Global,
    parts: &NodeParts,
    dtype: TypeRef<'_>,
) -> Result<ScalarValue, LeafError>
    ensures { Answers (λ v. v) result
        (fitting_value (ref_term dtype.entry) (node_buffers parts.now)) }
{
    let Some(bytes) = one_buffer(parts) else {
        return Err(LeafError::Malformed);
    };
    let value = value_of(alloc, bytes.as_slice())?;
    if !fits(dtype, &value) {
        return Err(LeafError::Malformed);
    }
    Ok(value)
}

/// The rows of a constant are copies of the row that its value is. This does nothing when the
/// program runs.
pub fn constants_are_copies()
    ensures { (t : Term) (n : ℕ) (bs : List (List ℕ))
        → constant_rows t n bs ≡ option_map (λ v. copies n (row_under t v)) (fitting_value t bs) }
{}
