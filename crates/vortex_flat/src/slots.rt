//! A table laid down, without what hangs on it.

ghost use Rattle.std.specs.Prelude.{◌≡◌, ◌≤◌, ◌<◌, ◌^◌, ◌+◌, ◌*◌, ◌++◌, true, OnOk};
ghost use Rattle.vortex_flat.specs.Tree.{one, two, four, eight, table};
ghost use Rattle.vortex_flat.specs.Layout.{count_of, entries, fours_of, inline_of, inline_size, own_bytes, own_size, padded, slots_of, targets_fit, targets_size, vtable_of, vtable_size};
ghost use Rattle.vortex_flat.specs.Item.{slots_from};
ghost use Rattle.vortex_flat.specs.declared.extent.TheConstants.{LARGEST_PART};
ghost use Rattle.vortex_flat.specs.inner.Extent.{Counted};
ghost use Rattle.vortex_flat.specs.inner.SlotBytes.{HaveRoom, four_bytes, four_place, number_bytes, places_of, target_fits, target_size};

use crate::extent::round_up;
use crate::item::Slot;
use crate::places::SlotPlaces;
use crate::put::{put_padding, put_u16, put_u32, put_zeros};
use crate::width_counts::WidthCounts;
use std::alloc::AllocError;

fn put_entries(
    out: &mut Vec<u8>,
    slots: &[Option<Slot>],
    first: SlotPlaces,
) -> Result<(), AllocError>
    requires { HaveRoom (places_of first) (slots_from slots.now) LARGEST_PART }
    ensures { OnOk result (out.new.items
        ≡ out.old.items ++ entries (slots_from slots.now) (places_of first)) }
{
    let mut places = first;
    for slot in slots {
        places = places.put_entry(out, slot)?;
    }
    Ok(())
}

/// Lays down a slot, where it has eight bytes.
fn put_eight(out: &mut Vec<u8>, slot: &Option<Slot>) -> Result<(), AllocError>
    ensures { OnOk result (out.new.items ≡ out.old.items ++ number_bytes eight slot.now) }
{
    match slot {
        Some(Slot::U64(n)) => out.extend_from_slice(&n.to_le_bytes())?,
        _ => {}
    }
    Ok(())
}

fn put_eights(out: &mut Vec<u8>, slots: &[Option<Slot>]) -> Result<(), AllocError>
    ensures { OnOk result (out.new.items ≡ out.old.items ++ slots_of eight (slots_from slots.now)) }
{
    for slot in slots {
        put_eight(out, slot)?;
    }
    Ok(())
}

/// Lays down a slot, where it has two bytes.
fn put_two(out: &mut Vec<u8>, slot: &Option<Slot>) -> Result<(), AllocError>
    ensures { OnOk result (out.new.items ≡ out.old.items ++ number_bytes two slot.now) }
{
    match slot {
        Some(Slot::U16(n)) => out.extend_from_slice(&n.to_le_bytes())?,
        _ => {}
    }
    Ok(())
}

fn put_twos(out: &mut Vec<u8>, slots: &[Option<Slot>]) -> Result<(), AllocError>
    ensures { OnOk result (out.new.items ≡ out.old.items ++ slots_of two (slots_from slots.now)) }
{
    for slot in slots {
        put_two(out, slot)?;
    }
    Ok(())
}

/// Lays down a slot, where it has one byte.
fn put_one(out: &mut Vec<u8>, slot: &Option<Slot>) -> Result<(), AllocError>
    ensures { OnOk result (out.new.items ≡ out.old.items ++ number_bytes one slot.now) }
{
    match slot {
        Some(Slot::U8(n)) => out.push(*n)?,
        Some(Slot::I8(n)) => out.push(n.cast_unsigned())?,
        _ => {}
    }
    Ok(())
}

fn put_ones(out: &mut Vec<u8>, slots: &[Option<Slot>]) -> Result<(), AllocError>
    ensures { OnOk result (out.new.items ≡ out.old.items ++ slots_of one (slots_from slots.now)) }
{
    for slot in slots {
        put_one(out, slot)?;
    }
    Ok(())
}

/// Lays down a slot that has four bytes, which go to `place`; its target goes to `target`.
fn put_four(
    out: &mut Vec<u8>,
    slot: &Option<Slot>,
    place: usize,
    target: usize,
) -> Result<(), AllocError>
    requires order { place ≤ target }
    requires short { target + target_size slot.now < 2 ^ 32 }
    requires fits { target_fits slot.now ≡ true }
    ensures { OnOk result (out.new.items ≡ out.old.items ++ four_bytes slot.now place target) }
{
    match slot {
        Some(Slot::U32(n)) => out.extend_from_slice(&n.to_le_bytes())?,
        Some(Slot::Item(item)) => put_u32(out, target + item.head() - place)?,
        _ => {}
    }
    Ok(())
}

/// The place behind a slot, as far as it has four bytes.
fn place_behind(slot: &Option<Slot>, place: usize) -> usize
    requires { place < 2 ^ 32 }
    ensures { result ≡ four_place slot.now place }
{
    match slot {
        Some(Slot::U32(_)) | Some(Slot::Item(_)) => place + 4,
        _ => place,
    }
}

/// The size of what hangs on a slot.
fn hanging_size(slot: &Option<Slot>) -> usize
    requires { target_size slot.now < 2 ^ 32 }
    ensures { result ≡ target_size slot.now }
{
    match slot {
        Some(Slot::Item(item)) => item.extent().size as usize,
        _ => 0,
    }
}

fn put_fours(
    out: &mut Vec<u8>,
    slots: &[Option<Slot>],
    first: usize,
    behind: usize,
) -> Result<(), AllocError>
    requires order { first + 4 * count_of four (slots_from slots.now) ≤ behind }
    requires short { behind + targets_size (slots_from slots.now) < 2 ^ 32 }
    requires fits { targets_fit (slots_from slots.now) ≡ true }
    ensures { OnOk result (out.new.items
        ≡ out.old.items ++ fours_of (slots_from slots.now) first behind) }
{
    let mut place = first;
    let mut target = behind;
    for slot in slots {
        put_four(out, slot, place, target)?;
        place = place_behind(slot, place);
        target += hanging_size(slot);
    }
    Ok(())
}

/// Lays down the vtable of a table.
fn put_vtable(
    out: &mut Vec<u8>,
    slots: &[Option<Slot>],
    counts: WidthCounts,
) -> Result<(), AllocError>
    requires counted { Counted counts (slots_from slots.now) }
    requires vtable { vtable_size (slots_from slots.now) ≤ LARGEST_PART }
    requires inline { inline_size (slots_from slots.now) ≤ LARGEST_PART }
    ensures { OnOk result (out.new.items
        ≡ out.old.items ++ padded (vtable_of (slots_from slots.now))) }
{
    let size = 4 + 2 * slots.len();
    put_u16(out, size)?;
    put_u16(out, counts.inline_size())?;
    put_entries(out, slots, counts.first_places())?;
    put_padding(out, size)?;
    Ok(())
}

/// Lays down the inline part of a table, whose targets come right behind it.
fn put_inline(
    out: &mut Vec<u8>,
    slots: &[Option<Slot>],
    counts: WidthCounts,
) -> Result<(), AllocError>
    requires counted { Counted counts (slots_from slots.now) }
    requires vtable { vtable_size (slots_from slots.now) ≤ LARGEST_PART }
    requires inline { inline_size (slots_from slots.now) ≤ LARGEST_PART }
    requires short { own_size (table (slots_from slots.now)) + targets_size (slots_from slots.now)
        < 2 ^ 32 }
    requires fits { targets_fit (slots_from slots.now) ≡ true }
    ensures { OnOk result (out.new.items
        ≡ out.old.items ++ padded (inline_of (slots_from slots.now))) }
{
    let head = round_up(4 + 2 * slots.len());
    let size = counts.inline_size();
    let first = counts.first_places();
    let behind = head + round_up(size);
    put_u32(out, head)?;
    put_zeros(out, first.eights - 4)?;
    put_eights(out, slots)?;
    put_fours(out, slots, head + first.fours, behind)?;
    put_twos(out, slots)?;
    put_ones(out, slots)?;
    put_padding(out, size)?;
    Ok(())
}

/// Lays down a table, without what hangs on it.
pub(crate) fn put_slots(out: &mut Vec<u8>, slots: &[Option<Slot>]) -> Result<(), AllocError>
    requires vtable { vtable_size (slots_from slots.now) ≤ LARGEST_PART }
    requires inline { inline_size (slots_from slots.now) ≤ LARGEST_PART }
    requires short { own_size (table (slots_from slots.now)) + targets_size (slots_from slots.now)
        < 2 ^ 32 }
    requires fits { targets_fit (slots_from slots.now) ≡ true }
    ensures { OnOk result (out.new.items
        ≡ out.old.items ++ own_bytes (table (slots_from slots.now))) }
{
    let counts = WidthCounts::of(slots);
    put_vtable(out, slots, counts)?;
    put_inline(out, slots, counts)?;
    Ok(())
}
