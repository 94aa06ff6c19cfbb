//! What is to be laid out.

ghost use Rattle.std.specs.Prelude.{◌≡◌, ◌≤◌, ◌<◌, ◌+◌, ◌^◌, ◌&&◌, true, length, min, nat_le};
ghost use Rattle.vortex_flat.specs.Tree.{table, offsets};
ghost use Rattle.vortex_flat.specs.Layout.{head, round_up, tables_fit};
ghost use Rattle.vortex_flat.specs.Item.{slots_from, trees_from, tree_of};
ghost use Rattle.vortex_flat.specs.inner.Extent.{Measures, MeasuresTargets, MeasuresTrees};
ghost use Rattle.vortex_flat.specs.inner.SlotBytes.{extent_after};

use crate::extent::{Extent, LARGEST_PART, LIMIT, block_size, round_up};
use crate::width_counts::WidthCounts;
use std::marker::Model;

/// A table, a vector or a text that is to be laid out, with all that hangs on it.
#[cycle(items)]
#[derive(Drop)]
pub enum Item {
    /// A table by the numbers of its fields.
    Table(Slots),
    /// A vector of offsets, each to a target of its own.
    Offsets(Items),
    /// A vector of bytes.
    Bytes(Vec<u8>),
    /// A text, which has a zero byte behind it.
    Text(String),
    /// A vector of numbers of four bytes.
    Numbers(Vec<u32>),
    /// A vector of structs of eight bytes that are aligned to 4.
    Records(Vec<u64>),
}

/// A field of a table.
#[cycle(items)]
#[derive(Drop)]
pub enum Slot {
    U8(u8),
    I8(i8),
    U16(u16),
    U32(u32),
    U64(u64),
    /// An offset to a target of its own.
    Item(Item),
}

/// The fields of a table by number, and None where one is absent.
///
/// How large its layout is was measured when it was made, so that places are known before a byte is
/// laid down.
#[cycle(items)]
#[derive(Drop)]
pub struct Slots {
    pub(crate) slots: Vec<Option<Slot>>,
    extent: Extent,
}

/// The targets of a vector of offsets, measured like [`Slots`].
#[cycle(items)]
#[derive(Drop)]
pub struct Items {
    pub(crate) items: Vec<Item>,
    extent: Extent,
}

impl Model for Slots {
    ghost use Rattle.vortex_flat.specs.Tree.{SlotTrees, table};
    ghost use Rattle.vortex_flat.specs.inner.TreeCode.{coded_slots, slots_weight};

    ghost Value = { SlotTrees };

    ghost coded = { coded_slots };

    ghost use Rattle.vortex_flat.specs.Item.{slots_from};
    ghost use Rattle.vortex_flat.specs.inner.Extent.{Measures};

    ghost view = { λ s. slots_from s.slots.items };

    ghost invariant = { λ s. Measures s.extent (table (slots_from s.slots.items)) };

    ghost size = { slots_weight };

    ghost use Rattle.vortex_flat.specs.inner.ItemFalls.{slots_fall};

    ghost size_decreases = { λ s h. slots_fall s };
}

impl Model for Items {
    ghost use Rattle.vortex_flat.specs.Tree.{Trees, offsets};
    ghost use Rattle.vortex_flat.specs.inner.TreeCode.{coded_trees, trees_weight};

    ghost Value = { Trees };

    ghost coded = { coded_trees };

    ghost use Rattle.vortex_flat.specs.Item.{trees_from};
    ghost use Rattle.vortex_flat.specs.inner.Extent.{Measures};

    ghost view = { λ s. trees_from s.items.items };

    ghost invariant = { λ s. Measures s.extent (offsets (trees_from s.items.items)) };

    ghost size = { trees_weight };

    ghost use Rattle.vortex_flat.specs.inner.ItemFalls.{trees_fall};

    ghost size_decreases = { λ s h. trees_fall s };
}

/// What `extent` is with what hangs on one more slot.
fn with_target(extent: Extent, slot: &Option<Slot>) -> Extent
    requires { extent.size ≤ LIMIT }
    ensures { result ≡ extent_after extent slot.now }
{
    match slot {
        Some(Slot::Item(item)) => extent.and(item.extent()),
        _ => extent,
    }
}

fn targets_extent(slots: &[Option<Slot>]) -> Extent
    ensures { MeasuresTargets result (slots_from slots.now) }
{
    let mut extent = Extent {
        size: 0,
        fits: true,
    };
    for slot in slots {
        extent = with_target(extent, slot);
    }
    extent
}

/// The extent of a vtable and an inline part of such sizes.
fn own_extent(vtable_size: usize, inline_size: usize) -> Extent
    requires vtable { vtable_size < 2 ^ 62 }
    requires inline { inline_size < 2 ^ 62 }
    ensures size { result.size ≡ min (round_up vtable_size + round_up inline_size) LIMIT }
    ensures fits { result.fits
        ≡ (nat_le vtable_size LARGEST_PART && nat_le inline_size LARGEST_PART) }
{
    Extent {
        size: ((round_up(vtable_size) + round_up(inline_size)) as u64).min(LIMIT),
        fits: vtable_size <= LARGEST_PART && inline_size <= LARGEST_PART,
    }
}

fn table_extent(slots: &[Option<Slot>]) -> Extent
    requires { length slots.now < 2 ^ 63 }
    ensures { Measures result (table (slots_from slots.now)) }
{
    if slots.len() as u64 >= LIMIT {
        return Extent {
            size: LIMIT,
            fits: false,
        };
    }
    let vtable_size = 4 + 2 * slots.len();
    let inline_size = WidthCounts::of(slots).inline_size();
    own_extent(vtable_size, inline_size).and(targets_extent(slots))
}

fn trees_extent(items: &[Item]) -> Extent
    ensures { MeasuresTrees result (trees_from items.now) }
{
    let mut extent = Extent {
        size: 0,
        fits: true,
    };
    for item in items {
        extent = extent.and(item.extent());
    }
    extent
}

impl Slots {
    /// The fields, measured in one pass.
    pub fn new(slots: Vec<Option<Slot>>) -> Slots
        ensures { result ≡ slots_from slots.items }
    {
        let extent = table_extent(&slots);
        Slots { slots, extent }
    }

    fn extent(&self) -> Extent
        ensures { Measures result (table self.now) }
    {
        self.extent
    }

    pub(crate) fn as_slice(&self) -> &[Option<Slot>]
        ensures { slots_from result.now ≡ self.now }
    {
        self.slots.as_slice()
    }

    /// The size of its vtable, up to the next multiple of 8.
    fn head(&self) -> usize
        requires { tables_fit (table self.now) ≡ true }
        ensures { result ≡ head (table self.now) }
    {
        round_up(4 + 2 * self.slots.len())
    }
}

impl Items {
    /// The targets, measured in one pass.
    pub fn new(items: Vec<Item>) -> Items
        ensures { result ≡ trees_from items.items }
    {
        let own = Extent {
            size: block_size(4, 4, items.len()),
            fits: true,
        };
        let extent = own.and(trees_extent(&items));
        Items { items, extent }
    }

    fn extent(&self) -> Extent
        ensures { Measures result (offsets self.now) }
    {
        self.extent
    }
}

impl Items {
    pub(crate) fn as_slice(&self) -> &[Item]
        ensures { trees_from result.now ≡ self.now }
    {
        self.items.as_slice()
    }
}

impl Item {
    /// How large its layout is, with all that hangs on it.
    pub(crate) fn extent(&self) -> Extent
        ensures { Measures result (tree_of self.now) }
    {
        let size = match self {
            Item::Table(slots) => return slots.extent(),
            Item::Offsets(items) => return items.extent(),
            Item::Bytes(bytes) => block_size(4, 1, bytes.len()),
            Item::Text(text) => block_size(5, 1, text.len()),
            Item::Numbers(numbers) => block_size(4, 4, numbers.len()),
            Item::Records(records) => block_size(4, 8, records.len()),
        };
        Extent { size, fits: true }
    }

    /// How far behind its first byte its place is.
    pub(crate) fn head(&self) -> usize
        requires { tables_fit (tree_of self.now) ≡ true }
        ensures { result ≡ head (tree_of self.now) }
    {
        match self {
            Item::Table(slots) => slots.head(),
            _ => 0,
        }
    }
}
