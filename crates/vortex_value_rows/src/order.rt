//! How the rows of values compare.

ghost use Rattle.std.specs.Prelude.{◌≡◌};
ghost use Rattle.std.specs.Option.{IsSome};
ghost use Rattle.vortex_types.specs.TypeRefs.{ref_term};
ghost use Rattle.vortex_terms.specs.Order.{row_cmp, rows_cmp};
ghost use Rattle.vortex_scalar_value.specs.Value.{values_from};
ghost use Rattle.vortex_value_rows.specs.RowOf.{row_of, row_under};
ghost use Rattle.vortex_value_rows.specs.Inside.{inside_term, in_rows};
ghost use Rattle.vortex_value_rows.specs.HeldRow.{rows_under};

use crate::part_types::{Inside, part_at, parts_of, value_at};
use crate::row_refs::{RowRef, row_ref};
use std::cmp::Ordering;
use vortex_scalar_value::ScalarValue;
use vortex_types::TypeRef;

/// How the rows that the values are under the type compare.
#[cycle(comparing)]
pub fn compare(of: TypeRef<'_>, a: &ScalarValue, b: &ScalarValue) -> Ordering
    requires left { IsSome (row_of (ref_term of) a.now) }
    requires right { IsSome (row_of (ref_term of) b.now) }
    ensures { let t = ref_term of.entry in
        result ≡ row_cmp (row_under t a.now) (row_under t b.now) }
{
    let x = row_ref(of, a);
    let y = row_ref(of, b);
    match x {
        RowRef::Null => x.form().cmp(&y.form()),
        RowRef::Truth(a) => match y {
            RowRef::Truth(b) => a.cmp(&b),
            _ => x.form().cmp(&y.form()),
        },
        RowRef::Whole(a) => match y {
            RowRef::Whole(b) => a.cmp(&b),
            _ => x.form().cmp(&y.form()),
        },
        RowRef::Bytes(a) => match y {
            RowRef::Bytes(b) => a.cmp(b),
            _ => x.form().cmp(&y.form()),
        },
        RowRef::List(a) => match y {
            RowRef::List(b) => compare_inside(parts_of(of), a, b),
            _ => x.form().cmp(&y.form()),
        },
    }
}

/// How the rows of the values inside two lists or structs compare.
#[cycle(comparing)]
fn compare_inside(inside: Inside<'_>, a: &[ScalarValue], b: &[ScalarValue]) -> Ordering
    requires left { IsSome (in_rows (inside_term inside) (values_from a.now)) }
    requires right { IsSome (in_rows (inside_term inside) (values_from b.now)) }
    ensures { let c = inside_term inside.entry in
        result ≡ rows_cmp (rows_under c (values_from a.now)) (rows_under c (values_from b.now)) }
{
    let n = a.len().min(b.len());
    for i in 0..n {
        match compare(part_at(inside, i), value_at(a, i), value_at(b, i)) {
            Ordering::Equal => {}
            other => return other,
        }
    }
    a.len().cmp(&b.len())
}
