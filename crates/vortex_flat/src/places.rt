//! Where in a table its slots go.

ghost use Rattle.std.specs.Prelude.{◌≡◌, ◌<◌, IfOk, ◌++◌};
ghost use Rattle.vortex_flat.specs.Layout.{low_first};
ghost use Rattle.vortex_flat.specs.inner.SlotBytes.{entry_of, places_after, places_of};

use crate::item::Slot;
use crate::put::put_u16;
use std::alloc::AllocError;

/// Where in a table the next slot of each width goes.
#[derive(Clone, Copy)]
pub(crate) struct SlotPlaces {
    pub(crate) eights: usize,
    pub(crate) fours: usize,
    pub(crate) twos: usize,
    pub(crate) ones: usize,
}

impl SlotPlaces {
    /// The places after one more slot.
    fn after(self, slot: &Option<Slot>) -> SlotPlaces
        requires eights { self.eights < 65536 }
        requires fours { self.fours < 65536 }
        requires twos { self.twos < 65536 }
        requires ones { self.ones < 65536 }
        ensures { places_of result ≡ places_after slot.now (places_of self) }
    {
        let mut places = self;
        match slot {
            None => {}
            Some(Slot::U8(_)) | Some(Slot::I8(_)) => places.ones += 1,
            Some(Slot::U16(_)) => places.twos += 2,
            Some(Slot::U32(_)) | Some(Slot::Item(_)) => places.fours += 4,
            Some(Slot::U64(_)) => places.eights += 8,
        }
        places
    }

    /// The place of a slot, and 0 where it is absent.
    fn entry(self, slot: &Option<Slot>) -> usize
        ensures { result ≡ entry_of slot.now (places_of self) }
    {
        match slot {
            None => 0,
            Some(Slot::U8(_)) | Some(Slot::I8(_)) => self.ones,
            Some(Slot::U16(_)) => self.twos,
            Some(Slot::U32(_)) | Some(Slot::Item(_)) => self.fours,
            Some(Slot::U64(_)) => self.eights,
        }
    }

    /// Lays down the entry of a slot, and answers the places after it.
    pub(crate) fn put_entry(
        self,
        out: &mut Vec<u8>,
        slot: &Option<Slot>,
    ) -> Result<SlotPlaces, AllocError>
        requires eights { self.eights < 65536 }
        requires fours { self.fours < 65536 }
        requires twos { self.twos < 65536 }
        requires ones { self.ones < 65536 }
        ensures laid { IfOk result (λ _. out.new.items
            ≡ out.old.items ++ low_first 2 (entry_of slot.now (places_of self))) }
        ensures next { IfOk result (λ p. places_of p ≡ places_after slot.now (places_of self)) }
    {
        put_u16(out, self.entry(slot))?;
        Ok(self.after(slot))
    }
}
