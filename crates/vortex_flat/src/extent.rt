//! How large a layout is, before a byte of it is laid down.

ghost use Rattle.std.specs.Prelude.{◌≡◌, ◌≤◌, ◌<◌, ◌+◌, ◌*◌, ◌^◌, ◌&&◌, min};
ghost use Rattle.vortex_flat.specs.Layout.{round_up};

/// A size from which on nothing is laid out: no offset can tell it.
pub(crate) const LIMIT: u64 = 4_294_967_296;

/// The greatest size of a vtable or an inline part, each of which is told in two bytes.
pub(crate) const LARGEST_PART: usize = 65_535;

/// The size of a layout, up to the limit, and whether each table in it is small enough.
#[derive(Clone, Copy)]
pub(crate) struct Extent {
    pub(crate) size: u64,
    pub(crate) fits: bool,
}

/// The next multiple of 8.
pub(crate) fn round_up(size: usize) -> usize
    requires { size < 2 ^ 63 }
    ensures { result ≡ round_up size }
{
    (size + 7) / 8 * 8
}

/// The size of a vector: so many bytes, and `count` elements of `width` bytes.
pub(crate) fn block_size(fixed: usize, width: usize, count: usize) -> u64
    requires fixed { fixed ≤ 8 }
    requires least { 1 ≤ width }
    requires most { width ≤ 8 }
    ensures { result ≡ min (round_up (fixed + width * count)) LIMIT }
{
    if count as u64 >= LIMIT {
        return LIMIT;
    }
    (round_up(fixed + width * count) as u64).min(LIMIT)
}

impl Extent {
    /// What `self` is with `other` behind it.
    pub(crate) fn and(self, other: Extent) -> Extent
        requires self_small { self.size ≤ LIMIT }
        requires other_small { other.size ≤ LIMIT }
        ensures size { result.size ≡ min (self.size + other.size) LIMIT }
        ensures fits { result.fits ≡ (self.fits && other.fits) }
    {
        Extent {
            size: (self.size + other.size).min(LIMIT),
            fits: self.fits && other.fits,
        }
    }
}
