//! Where the places of a node's buffers begin, which no vector tells.

ghost use Rattle.std.specs.Prelude.{◌≡◌, ◌≤◌, ◌<◌, ◌+◌, ◌^◌, ◌-ℤ◌, IfSome, MatchOption, Some, length, pos};
ghost use Rattle.std.specs.Int.{w32, cast_signed};
ghost use Rattle.vortex_flat.specs.Numbers.{natural, number};
ghost use Rattle.vortex_flat.specs.Table.{TableShape, table_at};
ghost use Rattle.vortex_flat.specs.Targets.{or_empty, vector_field};

use crate::schema::*;
use vortex_flat::{Vector, u32_at};

/// The place of a vtable that stands `back` before `place`, by two's complement.
fn vtable_place(place: usize, back: u32) -> Option<usize>
    ensures { MatchOption result
        (IfSome (natural (pos place -ℤ cast_signed w32 back)) (λ v. 2 ^ 64 ≤ v))
        (λ v. natural (pos place -ℤ cast_signed w32 back) ≡ Some v) }
{
    place.checked_sub_signed(back.cast_signed() as isize)
}

/// The place of the vtable of the table at `place`.
fn vtable_of(flat: &[u8], place: usize) -> usize
    ensures { (t : TableShape) → table_at flat.now place ≡ Some t → result ≡ t.vtable }
{
    let Ok(back) = u32_at(flat, place) else {
        return 0;
    };
    match vtable_place(place, back) {
        Some(vtable) => vtable,
        None => 0,
    }
}

fn u16_at(flat: &[u8], place: usize) -> u16
    requires { place + 2 ≤ length flat.now }
    ensures { Some result ≡ number flat.now place 2 }
{
    u16::from_le_bytes([flat[place], flat[place + 1]])
}

/// The place of the first of these, which are the places of the buffers of the node at `place`.
pub(crate) fn first_of(flat: &[u8], place: usize, places: &Vector<'_>) -> usize
    requires found { or_empty 4 (vector_field flat.now place NODE_BUFFERS 4)
        ≡ Some places.now.shape }
    requires some { 0 < places.now.shape.count }
    ensures { result ≡ places.now.shape.first }
{
    let _ = places;
    let vtable = vtable_of(flat, place);
    let field = place + usize::from(u16_at(flat, vtable + 4 + 2 * usize::from(NODE_BUFFERS)));
    match u32_at(flat, field) {
        Ok(distance) => field + distance as usize + 4,
        Err(_) => unreachable!(),
    }
}
