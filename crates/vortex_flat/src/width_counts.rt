//! How many slots of a table have each width.

ghost use Rattle.std.specs.Prelude.{◌≡◌, ◌≤◌, ◌<◌, ◌+◌, ◌*◌, ◌^◌, ◌==◌, length};
ghost use Rattle.vortex_flat.specs.inner.Extent.{Counted};
ghost use Rattle.vortex_flat.specs.Item.{slots_from};
ghost use Rattle.vortex_flat.specs.inner.SlotBytes.{counts_after, inline_of_counts, places_of, places_of_counts};

use crate::item::Slot;
use crate::places::SlotPlaces;

/// How many slots of a table have each width.
#[derive(Clone, Copy)]
pub(crate) struct WidthCounts {
    pub(crate) eights: usize,
    pub(crate) fours: usize,
    pub(crate) twos: usize,
    pub(crate) ones: usize,
}

impl WidthCounts {
    /// The counts with one more slot.
    fn after(self, slot: &Option<Slot>) -> WidthCounts
        requires eights { self.eights < 2 ^ 63 }
        requires fours { self.fours < 2 ^ 63 }
        requires twos { self.twos < 2 ^ 63 }
        requires ones { self.ones < 2 ^ 63 }
        ensures { result ≡ counts_after self slot.now }
    {
        let mut counts = self;
        match slot {
            None => {}
            Some(Slot::U8(_)) | Some(Slot::I8(_)) => counts.ones += 1,
            Some(Slot::U16(_)) => counts.twos += 1,
            Some(Slot::U32(_)) | Some(Slot::Item(_)) => counts.fours += 1,
            Some(Slot::U64(_)) => counts.eights += 1,
        }
        counts
    }

    pub(crate) fn of(slots: &[Option<Slot>]) -> WidthCounts
        requires { length slots.now < 2 ^ 63 }
        ensures counted { Counted result (slots_from slots.now) }
        ensures eights { result.eights ≤ length slots.now }
        ensures fours { result.fours ≤ length slots.now }
        ensures twos { result.twos ≤ length slots.now }
        ensures ones { result.ones ≤ length slots.now }
    {
        let mut counts = WidthCounts {
            eights: 0,
            fours: 0,
            twos: 0,
            ones: 0,
        };
        for slot in slots {
            counts = counts.after(slot);
        }
        counts
    }

    /// Where the first slot of each width goes.
    pub(crate) fn first_places(self) -> SlotPlaces
        requires eights { self.eights < 2 ^ 32 }
        requires fours { self.fours < 2 ^ 32 }
        requires twos { self.twos < 2 ^ 32 }
        ensures { places_of result ≡ places_of_counts self }
    {
        let eights = if self.eights == 0 { 4 } else { 8 };
        let fours = eights + 8 * self.eights;
        let twos = fours + 4 * self.fours;
        SlotPlaces {
            eights,
            fours,
            twos,
            ones: twos + 2 * self.twos,
        }
    }

    /// The size of the inline part.
    pub(crate) fn inline_size(self) -> usize
        requires eights { self.eights < 2 ^ 32 }
        requires fours { self.fours < 2 ^ 32 }
        requires twos { self.twos < 2 ^ 32 }
        requires ones { self.ones < 2 ^ 32 }
        ensures { result ≡ inline_of_counts self }
    {
        let first = if self.eights == 0 { 4 } else { 8 };
        first + 8 * self.eights + 4 * self.fours + 2 * self.twos + self.ones
    }
}
