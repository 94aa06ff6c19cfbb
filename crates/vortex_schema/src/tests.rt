ghost use Rattle.std.specs.Prelude.{◌≤◌, ◌<◌};

use super::*;
use std::alloc::Global;
use std::test::Fail;
use vortex_flat::{FlatError, Item, Items, Slot, Slots};
use vortex_number::PType;

/// A 32-bit integer, as the body of a type message.
const NUMBER: [u8; 48] = [
    16, 0, 0, 0, 0, 0, 0, 0, 8, 0, 9, 0, 8, 0, 4, 0, 8, 0, 0, 0, 20, 0, 0, 0, 3, 0, 0, 0, 0, 0, 0,
    0, 8, 0, 6, 0, 4, 0, 5, 0, 8, 0, 0, 0, 6, 0, 0, 0,
];

/// A struct of two 32-bit integers, both named `a`. Both names stand at 64, and both types at 84; the names are counted
/// at 52, and at 109 stands whether the integers may be null.
const SHARED: [u8; 110] = [
    12, 0, 0, 0, 8, 0, 9, 0, 8, 0, 4, 0, 8, 0, 0, 0, 20, 0, 0, 0, 7, 0, 0, 0, 10, 0, 13, 0, 4, 0,
    8, 0, 12, 0, 0, 0, 12, 0, 0, 0, 12, 0, 0, 0, 28, 0, 0, 0, 0, 0, 0, 0, 2, 0, 0, 0, 8, 0, 0, 0,
    4, 0, 0, 0, 1, 0, 0, 0, 97, 0, 0, 0, 2, 0, 0, 0, 8, 0, 0, 0, 4, 0, 0, 0, 80, 0, 0, 0, 16, 0, 0,
    0, 3, 0, 0, 0, 8, 0, 6, 0, 4, 0, 5, 0, 8, 0, 0, 0, 6, 0,
];

/// The kind of whole numbers, and whether they may be null, where the type is one of numbers.
fn numbers(at: TypeAt<'_>) -> Option<(PType, bool)> {
    match at.node() {
        TypeNode::Primitive(ptype, nullable) => Some((ptype, nullable)),
        _ => None,
    }
}

#[test]
fn a_number(rt: HostRuntime) -> Result<(), Fail> {
    let at = TypeAt::root(&NUMBER)?;
    at.law();
    assert_eq!(rt; (at.place(), at.buffer().len()), (16, 48));
    assert_eq!(rt; numbers(at), Some((PType::I32, false)));
    assert_eq!(rt;
        numbers(TypeAt::at(&NUMBER, 16)?),
        Some((PType::I32, false))
    );
    assert_eq!(rt; TypeAt::at(&NUMBER, 40).is_err(), true);
    // the kind, the kind of numbers, and whether they may be null
    for (place, byte, want) in [
        (24, 0, None),
        (24, 11, None),
        (44, 7, Some((PType::I64, false))),
        (44, 8, None),
        (45, 1, Some((PType::I32, true))),
        (45, 6, Some((PType::I32, true))),
    ] {
        let mut bytes = NUMBER;
        bytes[place] = byte;
        let found = match TypeAt::root(&bytes) {
            Ok(at) => numbers(at),
            Err(Malformed) => None,
        };
        assert_eq!(rt; found, want, "{byte} at {place}");
    }
    Ok(())
}

#[test]
fn shared_targets(rt: HostRuntime) -> Result<(), Fail> {
    let TypeNode::Struct(fields, nullable) = TypeAt::root(&SHARED)?.node() else {
        return Err("no struct".into());
    };
    assert_eq!(rt; nullable, false);
    assert_eq!(rt; fields.len(), 2);
    assert_eq!(rt; fields.is_empty(), false);
    assert_eq!(rt; (fields.name(0), fields.name(1)), ("a", "a"));
    assert_eq!(rt; numbers(fields.dtype(0)), Some((PType::I32, false)));
    assert_eq!(rt; numbers(fields.dtype(1)), Some((PType::I32, false)));
    assert_eq!(rt; fields.dtype(1).place(), 84);
    // a name less or more than types, and a text that is not UTF-8
    for (place, byte) in [(52, 1), (52, 3), (68, 255)] {
        let mut bytes = SHARED;
        bytes[place] = byte;
        assert_eq!(rt; TypeAt::root(&bytes).is_err(), true, "{byte} at {place}");
    }
    Ok(())
}

/// A type of a kind, whose table has these slots.
fn dtype(alloc: Global, kind: TypeKind, slots: Vec<Option<Slot>>) -> Result<Slots, FlatError> {
    let body = Some(Slot::Item(Item::Table(Slots::new(slots))));
    Ok(Slots::new(vec![in alloc; Some(Slot::U8(kind.number())), body]?))
}

fn null(alloc: Global) -> Result<Slots, FlatError> {
    dtype(alloc, TypeKind::Null, Vec::new(alloc))
}

fn is_read(alloc: Global, dtype: Slots) -> Result<bool, FlatError> {
    let bytes = Items::finish(alloc, &Item::Table(dtype))?;
    Ok(TypeAt::root(&bytes).is_ok())
}

#[test]
fn decimals(rt: HostRuntime) -> Result<(), Fail> {
    let alloc = rt.alloc();
    for (precision, scale, read) in [
        (1, -128, true),
        (76, 76, true),
        (0, 0, false),
        (77, 0, false),
        (2, 3, false),
    ] {
        let slots = vec![in alloc;
            Some(Slot::U8(precision)),
            Some(Slot::I8(scale)),
            Some(Slot::U8(0)),
        ]?;
        let dtype = dtype(alloc, TypeKind::Decimal, slots)?;
        assert_eq!(rt; is_read(alloc, dtype)?, read, "{precision}, {scale}");
    }
    Ok(())
}

fn extension(alloc: Global, storage: Slots, metadata: Option<Slot>) -> Result<Slots, FlatError> {
    let id = Item::Text(String::from_str(alloc, "id")?);
    let slots = vec![in alloc;
        Some(Slot::Item(id)),
        Some(Slot::Item(Item::Table(storage))),
        metadata,
    ]?;
    dtype(alloc, TypeKind::Extension, slots)
}

#[test]
fn extensions(rt: HostRuntime) -> Result<(), Fail> {
    let alloc = rt.alloc();
    let empty = Some(Slot::Item(Item::Bytes(Vec::new(alloc))));
    let dtype = extension(alloc, null(alloc)?, empty)?;
    let bytes = Items::finish(alloc, &Item::Table(dtype))?;
    let TypeNode::Extension(id, storage, metadata) = TypeAt::root(&bytes)?.node() else {
        return Err("no extension".into());
    };
    assert_eq!(rt; (id, metadata), ("id", Some([].as_slice())));
    assert_eq!(rt; matches!(storage.node(), TypeNode::Null), true);
    assert_eq!(rt;
        is_read(alloc, extension(alloc, null(alloc)?, None)?)?,
        true
    );
    let twice = extension(alloc, extension(alloc, null(alloc)?, None)?, None)?;
    assert_eq!(rt; is_read(alloc, twice)?, false);
    Ok(())
}

/// Lists of so many levels, the last of which is the type of nulls.
fn nested(alloc: Global, levels: u8) -> Result<Slots, FlatError> {
    let mut inner = null(alloc)?;
    for _ in 1..levels {
        let slots = vec![in alloc; Some(Slot::Item(Item::Table(inner))), Some(Slot::U8(0))]?;
        inner = dtype(alloc, TypeKind::List, slots)?;
    }
    Ok(inner)
}

#[test]
fn levels(rt: HostRuntime) -> Result<(), Fail> {
    let alloc = rt.alloc();
    assert_eq!(rt; is_read(alloc, nested(alloc, 64)?)?, true);
    assert_eq!(rt; is_read(alloc, nested(alloc, 65)?)?, false);
    Ok(())
}

#[test]
fn fixed_size_lists(rt: HostRuntime) -> Result<(), Fail> {
    let alloc = rt.alloc();
    for size in [0, 1, u32::MAX] {
        let element = Some(Slot::Item(Item::Table(nested(alloc, 2)?)));
        let slots = vec![in alloc; element, Some(Slot::U32(size)), Some(Slot::U8(2))]?;
        let dtype = dtype(alloc, TypeKind::FixedSizeList, slots)?;
        let bytes = Items::finish(alloc, &Item::Table(dtype))?;
        let TypeNode::FixedSizeList(element, found, nullable) = TypeAt::root(&bytes)?.node() else {
            return Err("no fixed-size list".into());
        };
        assert_eq!(rt; (found, nullable), (size, true));
        assert_eq!(rt; matches!(element.node(), TypeNode::List(_, false)), true);
    }
    Ok(())
}

fn put(bytes: &mut Vec<u8>, words: &[u32]) -> Result<(), FlatError> {
    for word in words {
        bytes.extend_from_slice(&word.to_le_bytes())?;
    }
    Ok(())
}

/// Structs of so many levels. Both fields of each lead to the one struct of the next level, and the last level is the
/// type of nulls: in less than a thousand bytes stands a tree of `2^levels - 1` types.
fn doubled(alloc: Global, levels: u32) -> Result<Vec<u8>, FlatError>
    requires some { 0 < levels }
    requires few { levels ≤ 64 }
{
    let mut bytes = Vec::new(alloc);
    // The root is at 24; the vtable of each DType at 4, and that of each struct at 12.
    put(
        &mut bytes,
        &[24, 0x0009_0008, 0x0004_0008, 0x000D_000A, 0x0008_0004, 12],
    )?;
    let names = 40 * levels + 8;
    for k in 1..levels {
        let place = 40 * k - 16;
        put(&mut bytes, &[place - 4, 8, 7])?;
        put(&mut bytes, &[place, names - place - 16, 8, 0])?;
        put(&mut bytes, &[2, 8, 4])?;
    }
    let place = 40 * levels - 16;
    put(&mut bytes, &[place - 4, 8, 1, place + 8, 0, 0])?;
    put(&mut bytes, &[2, 8, 4, 0])?;
    Ok(bytes)
}

#[test]
fn trees_of_shared_targets(rt: HostRuntime) -> Result<(), Fail> {
    let alloc = rt.alloc();
    assert_eq!(rt; TypeAt::root(&doubled(alloc, 2)?).is_ok(), true);
    // 524,287 types
    assert_eq!(rt; TypeAt::root(&doubled(alloc, 19)?).is_ok(), true);
    // 1,048,575 types
    assert_eq!(rt; TypeAt::root(&doubled(alloc, 20)?).is_ok(), false);
    Ok(())
}

#[test]
fn laws(rt: HostRuntime) {
    found_types_stand();
    standing_types_are_found();
    bounded_types_are_found();
    one_type_stands();
    laid_out_types_stand();
    assert_eq!(rt; Malformed == Malformed, true);
}
