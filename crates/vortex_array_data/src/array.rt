//! Arrays.

ghost use Rattle.std.specs.Prelude.{◌≡◌, ◌≤◌, length, map, false};
ghost use Rattle.std.specs.List.{AllByRecursion};
ghost use Rattle.vortex_terms.specs.Term.{boolean};
ghost use Rattle.vortex_terms.specs.Fits.{Fits};
ghost use Rattle.vortex_types.specs.DTypes.{term_of};
ghost use Rattle.vortex_value_rows.specs.RowOf.{row_under};
ghost use Rattle.vortex_node_rows.specs.RowsOf.{most_rows, truth_of};
ghost use Rattle.vortex_array_data.specs.Column.{Holds};
ghost use Rattle.vortex_array_data.specs.Content.{held_node, held_rows, is_maskable, IsMask, IsShaped};

use crate::held::{Array, Content, Held};
use vortex_mask::Mask;
use vortex_scalar_value::{ScalarValue, ValueRef};
use vortex_types::DType;

/// Whether the value is true as a truth value that is not null.
fn is_true(value: &ScalarValue) -> bool
    ensures { result ≡ truth_of (row_under (boolean false) value.now) }
{
    match value.value_ref() {
        ValueRef::Bool(value) => value,
        _ => false,
    }
}

impl Array {
    /// The array of these rows, held so. Each other function that makes an array ends here.
    pub fn made(dtype: DType, len: usize, held: Held) -> Array
        requires shape { IsShaped held.content (term_of dtype) len }
        requires mask { IsMask len (is_maskable (term_of dtype)) held.validity }
        requires count { len ≡ length (held_rows (term_of dtype) len held) }
        requires fit { AllByRecursion (Fits (term_of dtype)) (held_rows (term_of dtype) len held) }
        requires few { len ≤ most_rows }
        ensures dtype { result.dtype ≡ term_of dtype }
        ensures rows { result.rows ≡ held_rows (term_of dtype) len held }
        ensures node { result.node ≡ held_node len held }
    {
        Array { dtype, len, held }
    }

    /// The truth values of an array of these, none of them null.
    pub fn into_mask(self) -> Mask
        requires { self.dtype ≡ boolean false }
        ensures { result ≡ map truth_of self.rows }
    {
        let Array {
            dtype: _,
            len,
            held,
        } = self;
        let Held {
            content,
            validity: _,
        } = held;
        match content {
            Content::Truths(mask) => mask,
            Content::Constant(value) => {
                if is_true(&value) {
                    return Mask::new_true(len);
                }
                Mask::new_false(len)
            }
            _ => unreachable!(),
        }
    }

    /// How many rows there are: at most 4,294,967,295.
    pub fn len(&self) -> usize
        ensures { result ≡ length self.now.rows }
    {
        self.len
    }

    /// The type.
    pub fn dtype(&self) -> &DType
        ensures { term_of result.now ≡ self.now.dtype }
    {
        &self.dtype
    }

    /// The rows fit the type, and are at most 4,294,967,295. It does nothing when the program runs.
    pub fn law(&self)
        ensures { Holds self.now }
    {
        let _ = &self.held;
    }
}
