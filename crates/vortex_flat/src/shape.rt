//! Where a table lies, found and checked.

ghost use Rattle.std.specs.Prelude.{◌≡◌, ◌≤◌, ◌^◌, pos, ◌-ℤ◌, length, IfSome, MatchOption};
ghost use Rattle.std.specs.Int.{w32, cast_signed};
ghost use Rattle.vortex_flat.specs.Answers.{Answers};
ghost use Rattle.vortex_flat.specs.Numbers.{natural};
ghost use Rattle.vortex_flat.specs.Table.{fits, table_at};
ghost use Rattle.vortex_flat.specs.inner.Shape.{shape_of};

use crate::error::FlatError;
use crate::numbers::{u16_at, u32_at};

/// Where a table and its vtable lie.
#[derive(Clone, Copy)]
pub(crate) struct Shape {
    pub(crate) place: usize,
    pub(crate) vtable: usize,
    pub(crate) vtable_size: u16,
    pub(crate) inline_size: u16,
}

/// The place of a vtable that stands `back` before `place`, by two's complement, where that is a
/// number.
fn vtable_place(place: usize, back: u32) -> Option<usize>
    ensures { MatchOption result
        (IfSome (natural (pos place -ℤ cast_signed w32 back)) (λ v. 2 ^ 64 ≤ v))
        (λ v. natural (pos place -ℤ cast_signed w32 back) ≡ Some v) }
{
    place.checked_sub_signed(back.cast_signed() as isize)
}

fn lies_within(shape: Shape, bytes: &[u8]) -> bool
    requires vtable { shape.vtable ≤ length bytes.now }
    requires place { shape.place ≤ length bytes.now }
    ensures { result ≡ fits (shape_of shape) (length bytes.now) }
{
    shape.vtable_size % 2 == 0
        && 4 <= shape.vtable_size
        && shape.vtable + usize::from(shape.vtable_size) <= bytes.len()
        && 4 <= shape.inline_size
        && shape.place + usize::from(shape.inline_size) <= bytes.len()
}

#[tactic(auto, using(crate::proofs::NumbersLemmas::passes_on, crate::proofs::NumbersLemmas::number_within, crate::proofs::TableLemmas::table_no_back, crate::proofs::TableLemmas::table_no_vtable, crate::proofs::TableLemmas::table_no_size, crate::proofs::TableLemmas::table_no_inline))]
/// The table at `place`.
pub(crate) fn shape_at(bytes: &[u8], place: usize) -> Result<Shape, FlatError>
    ensures { Answers shape_of result (table_at bytes.now place) }
{
    let back = u32_at(bytes, place)?;
    let Some(vtable) = vtable_place(place, back) else {
        return Err(FlatError::Outside);
    };
    let vtable_size = u16_at(bytes, vtable)?;
    let inline_size = u16_at(bytes, vtable + 2)?;
    let shape = Shape {
        place,
        vtable,
        vtable_size,
        inline_size,
    };
    if lies_within(shape, bytes) {
        Ok(shape)
    } else {
        Err(FlatError::Outside)
    }
}
