//! Whole trees laid down.

ghost use Rattle.std.specs.Prelude.{◌≡◌, ◌<◌, ◌^◌, ◌++◌, true, OnOk};
ghost use Rattle.vortex_flat.specs.Layout.{bytes_of, size_of, tables_fit, targets_bytes, targets_fit, targets_size, trees_bytes, trees_fit, trees_size};
ghost use Rattle.vortex_flat.specs.Item.{slots_from, tree_of, trees_from};
ghost use Rattle.vortex_flat.specs.Reads.{InRange, SlotsInRange, TreesInRange};
ghost use Rattle.vortex_flat.specs.inner.SlotBytes.{SlotInRange, target_bytes, target_fits, target_size};

use crate::item::{Item, Slot};
use crate::slots::put_slots;
use crate::vectors::{put_bytes, put_numbers, put_offsets, put_records, put_text};
use std::alloc::AllocError;

/// Lays down an item, and then what hangs on it.
#[cycle(put)]
pub(crate) fn put_item(out: &mut Vec<u8>, item: &Item) -> Result<(), AllocError>
    requires short { size_of (tree_of item.now) < 2 ^ 32 }
    requires fits { tables_fit (tree_of item.now) ≡ true }
    ensures laid { OnOk result (out.new.items ≡ out.old.items ++ bytes_of (tree_of item.now)) }
    ensures range { OnOk result (InRange (tree_of item.now)) }
{
    match item {
        Item::Table(slots) => {
            let slots = slots.as_slice();
            put_slots(out, slots)?;
            put_targets(out, slots)?;
            Ok(())
        }
        Item::Offsets(items) => {
            let items = items.as_slice();
            put_offsets(out, items)?;
            put_trees(out, items)?;
            Ok(())
        }
        Item::Bytes(content) => put_bytes(out, content),
        Item::Text(content) => put_text(out, content),
        Item::Numbers(content) => put_numbers(out, content),
        Item::Records(content) => put_records(out, content),
    }
}

/// Lays down what hangs on a slot.
#[cycle(put)]
fn put_target(out: &mut Vec<u8>, slot: &Option<Slot>) -> Result<(), AllocError>
    requires short { target_size slot.now < 2 ^ 32 }
    requires fits { target_fits slot.now ≡ true }
    ensures laid { OnOk result (out.new.items ≡ out.old.items ++ target_bytes slot.now) }
    ensures range { OnOk result (SlotInRange slot.now) }
{
    // A number that is read is known to be in the range of its type.
    match slot {
        None => Ok(()),
        Some(Slot::U8(n)) => {
            let _number = *n;
            Ok(())
        }
        Some(Slot::I8(n)) => {
            let _number = *n;
            Ok(())
        }
        Some(Slot::U16(n)) => {
            let _number = *n;
            Ok(())
        }
        Some(Slot::U32(n)) => {
            let _number = *n;
            Ok(())
        }
        Some(Slot::U64(n)) => {
            let _number = *n;
            Ok(())
        }
        Some(Slot::Item(item)) => put_item(out, item),
    }
}

#[cycle(put)]
fn put_targets(out: &mut Vec<u8>, slots: &[Option<Slot>]) -> Result<(), AllocError>
    requires short { targets_size (slots_from slots.now) < 2 ^ 32 }
    requires fits { targets_fit (slots_from slots.now) ≡ true }
    ensures laid { OnOk result (out.new.items
        ≡ out.old.items ++ targets_bytes (slots_from slots.now)) }
    ensures range { OnOk result (SlotsInRange (slots_from slots.now)) }
{
    for slot in slots {
        put_target(out, slot)?;
    }
    Ok(())
}

#[cycle(put)]
fn put_trees(out: &mut Vec<u8>, items: &[Item]) -> Result<(), AllocError>
    requires short { trees_size (trees_from items.now) < 2 ^ 32 }
    requires fits { trees_fit (trees_from items.now) ≡ true }
    ensures laid { OnOk result (out.new.items
        ≡ out.old.items ++ trees_bytes (trees_from items.now)) }
    ensures range { OnOk result (TreesInRange (trees_from items.now)) }
{
    for item in items {
        put_item(out, item)?;
    }
    Ok(())
}
