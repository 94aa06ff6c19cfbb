//! What the rows of values feed a hasher.

ghost use Rattle.std.specs.Prelude.{◌≡◌, ◌++◌, fold};
ghost use Rattle.std.specs.Hash as fed;
ghost use Rattle.std.specs.Option.{IsSome};
ghost use Rattle.vortex_types.specs.TypeRefs.{ref_term};
ghost use Rattle.vortex_terms.specs.Row.{row_count};
ghost use Rattle.vortex_scalar_value.specs.Value.{values_from};
ghost use Rattle.vortex_value_rows.specs.HashInput.{row_writes, rows_writes};
ghost use Rattle.vortex_value_rows.specs.RowOf.{row_of, row_under};
ghost use Rattle.vortex_value_rows.specs.Inside.{inside_term, in_rows};
ghost use Rattle.vortex_value_rows.specs.HeldRow.{rows_under};

use crate::part_types::{Inside, part_at, parts_of, value_at};
use crate::row_refs::{RowRef, row_ref};
use std::hash::{Hash, Hasher};
use vortex_scalar_value::ScalarValue;
use vortex_types::TypeRef;

/// Feeds a hasher the row that the value is under the type.
#[cycle(hashing)]
pub fn hash_row<H: Hasher>(of: TypeRef<'_>, value: &ScalarValue, state: &mut H)
    requires { IsSome (row_of (ref_term of) value.now) }
    ensures { let r = row_under (ref_term of.entry) value.now in
        state.new ≡ fold H.write state.old (row_writes r) }
{
    match row_ref(of, value) {
        RowRef::Null => 0u8.hash(state),
        RowRef::Truth(truth) => {
            1u8.hash(state);
            truth.hash(state);
        }
        RowRef::Whole(number) => {
            2u8.hash(state);
            number.hash(state);
        }
        RowRef::Bytes(bytes) => {
            3u8.hash(state);
            bytes.hash(state);
        }
        RowRef::List(values) => {
            4u8.hash(state);
            hash_inside(parts_of(of), values, state);
        }
    }
}

/// Feeds the rows of the values inside a list or a struct, and first how many there are.
#[cycle(hashing)]
fn hash_inside<H: Hasher>(inside: Inside<'_>, values: &[ScalarValue], state: &mut H)
    requires { IsSome (in_rows (inside_term inside) (values_from values.now)) }
    ensures { let rs = rows_under (inside_term inside.entry) (values_from values.now) in
        let writes = fed.usize (row_count rs) ++ rows_writes rs in
        state.new ≡ fold H.write state.old writes }
{
    let n = values.len();
    n.hash(state);
    for i in 0..n {
        hash_row(part_at(inside, i), value_at(values, i), state);
    }
}
