//! What the messages that are written consist of.

ghost use Rattle.std.specs.Prelude.{◌≡◌, IfOk};
ghost use Rattle.vortex_flat.specs.Item.{tree_of};
ghost use Rattle.vortex_select.specs.inner.LayoutLaws.{array_slots, array_tree, header_tree, node_tree, type_tree};

use crate::schema::{NEVER_NULL, PRIMITIVE, PRIMITIVE_NAME, PTYPE_I64};
use std::alloc::{AllocError, Global};
use vortex_flat::{Item, Items, Slot, Slots};
use vortex_stream::schema::VERSION;

/// The header of a message: its version, its kind with what is told of it, and the size of the
/// body.
pub(crate) fn header(alloc: Global, kind: u8, content: Slots, size: u64) -> Result<Item, AllocError>
    ensures { IfOk result (λ item. tree_of item ≡ header_tree kind content size) }
{
    let content = Some(Slot::Item(Item::Table(content)));
    let slots = vec![in alloc;
        Some(Slot::U8(VERSION)),
        Some(Slot::U8(kind)),
        content,
        Some(Slot::U64(size)),
    ]?;
    Ok(Item::Table(Slots::new(slots)))
}

/// What a header tells of a primitive array: how many rows it has, and the name of its encoding.
pub(crate) fn array_content(alloc: Global, rows: u32) -> Result<Slots, AllocError>
    ensures { IfOk result (λ slots. slots ≡ array_slots rows) }
{
    let name = Item::Text(String::from_str(alloc, PRIMITIVE_NAME)?);
    let names = Item::Offsets(Items::new(vec![in alloc; name]?));
    let slots = vec![in alloc; Some(Slot::U32(rows)), Some(Slot::Item(names))]?;
    Ok(Slots::new(slots))
}

/// The column type: numbers of 64 signed bits, never null.
pub(crate) fn column_type(alloc: Global) -> Result<Item, AllocError>
    ensures { IfOk result (λ item. tree_of item ≡ type_tree) }
{
    let primitive = vec![in alloc; Some(Slot::U8(PTYPE_I64)), Some(Slot::U8(NEVER_NULL))]?;
    let primitive = Item::Table(Slots::new(primitive));
    let slots = vec![in alloc; Some(Slot::U8(PRIMITIVE)), Some(Slot::Item(primitive))]?;
    Ok(Item::Table(Slots::new(slots)))
}

/// The one node of a primitive array: the first encoding, and the first buffer.
fn node(alloc: Global) -> Result<Item, AllocError>
    ensures { IfOk result (λ item. tree_of item ≡ node_tree) }
{
    let metadata = Item::Bytes(Vec::new(alloc));
    let children = Item::Offsets(Items::new(Vec::new(alloc)));
    let buffers = Item::Numbers(vec![in alloc; 0]?);
    let slots = vec![in alloc;
        Some(Slot::U16(0)),
        Some(Slot::Item(metadata)),
        Some(Slot::Item(children)),
        Some(Slot::Item(buffers)),
    ]?;
    Ok(Item::Table(Slots::new(slots)))
}

/// A primitive array whose one buffer has the length `len`.
pub(crate) fn primitive_body(alloc: Global, len: u32) -> Result<Item, AllocError>
    ensures { IfOk result (λ item. tree_of item ≡ array_tree len) }
{
    let node = Some(Slot::Item(node(alloc)?));
    let buffers = Item::Records(vec![in alloc; u64::from(len) << 32]?);
    let slots = vec![in alloc; node, Some(Slot::Item(buffers))]?;
    Ok(Item::Table(Slots::new(slots)))
}
