//! Which rows are picked.

ghost use Rattle.std.specs.Prelude.{◌≡◌, length};
ghost use Rattle.vortex_array_data.specs.inner.PickedPlaces.{places_in, ArePicks};

use vortex_mask::Mask;

/// Which rows are picked, and in which order.
#[derive(Clone, Copy)]
pub enum Picks<'a> {
    /// Those from a place up to another.
    Range(usize, usize),
    /// Those at which the mask is true.
    Mask(&'a Mask),
    /// Those at these places.
    Places(&'a [u32]),
}

/// How many rows are picked, of n.
pub(crate) fn count(n: usize, picks: &Picks) -> usize
    requires { ArePicks n picks.now }
    ensures { result ≡ length (places_in picks.now) }
{
    let _ = n;
    match picks {
        Picks::Range(from, to) => *to - *from,
        Picks::Mask(mask) => mask.true_count(),
        Picks::Places(places) => places.len(),
    }
}
