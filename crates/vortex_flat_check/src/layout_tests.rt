use std::alloc::Global;
use std::test::Fail;
use vortex_flat::*;

/// The type of nulls: a kind, and a table without fields.
const NULL_TYPE: [u32; 12] = [
    0x1000_0000,
    0,
    0x0800_0900,
    0x0800_0400,
    0x0800_0000,
    0x1400_0000,
    0x0100_0000,
    0,
    0x0400_0400,
    0,
    0x0800_0000,
    0,
];

/// A type of whole numbers: a kind, and a table of two numbers.
const NUMBER_TYPE: [u32; 12] = [
    0x1000_0000,
    0,
    0x0800_0900,
    0x0800_0400,
    0x0800_0000,
    0x1400_0000,
    0x0300_0000,
    0,
    0x0800_0600,
    0x0400_0500,
    0x0800_0000,
    0x0600_0000,
];

/// The header of a type message.
const TYPE_HEADER: [u32; 16] = [
    0x1800_0000,
    0,
    0x0C00_1600,
    0x1400_1500,
    0x1000_0800,
    0,
    0x1000_0000,
    0,
    0x3000_0000,
    0,
    0x1000_0000,
    0x0003_0000,
    0x0400_0400,
    0,
    0x0800_0000,
    0,
];

/// The header of an array message of two names.
const ARRAY_HEADER: [u32; 32] = [
    0x1800_0000,
    0,
    0x0C00_1600,
    0x1400_1500,
    0x1000_0800,
    0,
    0x1000_0000,
    0,
    0x0E01_0000,
    0,
    0x1000_0000,
    0x0001_0000,
    0x0800_0C00,
    0x0400_0800,
    0x0800_0000,
    0x0200_0000,
    0x0800_0000,
    0,
    0x0200_0000,
    0x0C00_0000,
    0x1800_0000,
    0,
    0x0B00_0000,
    0x766F_7274,
    0x6578_2E64,
    0x6963_7400,
    0x1000_0000,
    0x766F_7274,
    0x6578_2E70,
    0x7269_6D69,
    0x7469_7665,
    0,
];

/// The three nodes and two records of a dictionary.
const DICTIONARY: [u32; 64] = [
    0x1000_0000,
    0,
    0x0800_0C00,
    0x0400_0800,
    0x0800_0000,
    0x1C00_0000,
    0xD000_0000,
    0,
    0x0C00_1200,
    0x1000_0400,
    0x0800_0C00,
    0,
    0x1000_0000,
    0x1400_0000,
    0x1800_0000,
    0xA400_0000,
    0,
    0,
    0x0400_0000,
    0x0802_1800,
    0x0200_0000,
    0x1C00_0000,
    0x5800_0000,
    0,
    0x0C00_1200,
    0x1000_0400,
    0x0800_0C00,
    0,
    0x1000_0000,
    0x1400_0000,
    0x1800_0000,
    0x1C00_0000,
    0x0100_0000,
    0,
    0,
    0,
    0,
    0,
    0x0100_0000,
    0,
    0x0C00_1200,
    0x1000_0400,
    0x0800_0C00,
    0,
    0x1000_0000,
    0x1400_0000,
    0x1800_0000,
    0x1C00_0000,
    0x0100_0000,
    0,
    0,
    0,
    0,
    0,
    0x0100_0000,
    0x0100_0000,
    0,
    0,
    0x0200_0000,
    0,
    0x0200_0000,
    0,
    0x0800_0000,
    0,
];

/// Bytes by fours, as a listing of a file shows them.
fn listed(alloc: Global, words: &[u32]) -> Result<Vec<u8>, FlatError> {
    let mut bytes = Vec::new(alloc);
    for word in words {
        bytes.extend_from_slice(&word.to_be_bytes())?;
    }
    Ok(bytes)
}

fn no_slots(alloc: Global) -> Slots {
    Slots::new(Vec::new(alloc))
}

fn text(alloc: Global, text: &str) -> Result<Item, FlatError> {
    Ok(Item::Text(String::from_str(alloc, text)?))
}

/// A table that holds a number and another table.
fn typed(alloc: Global, kind: u8, inner: Slots) -> Result<Vec<u8>, FlatError> {
    let inner = Some(Slot::Item(Item::Table(inner)));
    let slots = Slots::new(vec![in alloc; Some(Slot::U8(kind)), inner]?);
    Items::finish(alloc, &Item::Table(slots))
}

fn message(alloc: Global, kind: u8, inner: Slots, size: u64) -> Result<Vec<u8>, FlatError> {
    let version = Some(Slot::U8(0));
    let inner = Some(Slot::Item(Item::Table(inner)));
    let slots = vec![in alloc; version, Some(Slot::U8(kind)), inner, Some(Slot::U64(size))]?;
    Items::finish(alloc, &Item::Table(Slots::new(slots)))
}

fn names(alloc: Global) -> Result<Slots, FlatError> {
    let names = vec![in alloc;
        text(alloc, "vortex.dict")?,
        text(alloc, "vortex.primitive")?,
    ]?;
    let names = Item::Offsets(Items::new(names));
    Ok(Slots::new(vec![in alloc; Some(Slot::U32(2)), Some(Slot::Item(names))]?))
}

fn node(
    alloc: Global,
    encoding: u16,
    metadata: &[u8],
    children: Vec<Item>,
    buffers: &[u32],
) -> Result<Item, FlatError> {
    let metadata = Item::Bytes(Vec::from_slice(alloc, metadata)?);
    let children = Item::Offsets(Items::new(children));
    let buffers = Item::Numbers(Vec::from_slice(alloc, buffers)?);
    let slots = vec![in alloc;
        Some(Slot::U16(encoding)),
        Some(Slot::Item(metadata)),
        Some(Slot::Item(children)),
        Some(Slot::Item(buffers)),
    ]?;
    Ok(Item::Table(Slots::new(slots)))
}

/// A dictionary of two values, as a tree of three nodes and two records.
fn dictionary(alloc: Global) -> Result<Vec<u8>, FlatError> {
    let codes = node(alloc, 1, &[], Vec::new(alloc), &[0])?;
    let values = node(alloc, 1, &[], Vec::new(alloc), &[1])?;
    let root = node(
        alloc,
        0,
        &[8, 2, 24, 0],
        vec![in alloc; codes, values]?,
        &[],
    )?;
    let records = Item::Records(Vec::from_slice(alloc, &[2 << 32, 8 << 32])?);
    let slots = vec![in alloc; Some(Slot::Item(root)), Some(Slot::Item(records))]?;
    Items::finish(alloc, &Item::Table(Slots::new(slots)))
}

#[test]
fn small_tables(rt: HostRuntime) -> Result<(), Fail> {
    let alloc = rt.alloc();
    let null = listed(alloc, &NULL_TYPE)?;
    assert_eq!(rt;
        typed(alloc, 1, no_slots(alloc))?.as_slice(),
        null.as_slice()
    );
    let whole = Slots::new(vec![in alloc; Some(Slot::U8(6)), Some(Slot::U8(0))]?);
    let whole_listed = listed(alloc, &NUMBER_TYPE)?;
    assert_eq!(rt; typed(alloc, 3, whole)?.as_slice(), whole_listed.as_slice());
    let header = listed(alloc, &TYPE_HEADER)?;
    assert_eq!(rt;
        message(alloc, 3, no_slots(alloc), 48)?.as_slice(),
        header.as_slice()
    );
    Ok(())
}

#[test]
fn nested_tables(rt: HostRuntime) -> Result<(), Fail> {
    let alloc = rt.alloc();
    let header = listed(alloc, &ARRAY_HEADER)?;
    assert_eq!(rt;
        message(alloc, 1, names(alloc)?, 270)?.as_slice(),
        header.as_slice()
    );
    let body = listed(alloc, &DICTIONARY)?;
    assert_eq!(rt; dictionary(alloc)?.as_slice(), body.as_slice());
    Ok(())
}

/// A table with each form of field: an absent one beside one that has its default, vectors and what
/// they lead to.
fn every_form(alloc: Global) -> Result<Vec<u8>, FlatError> {
    let leaf = Slots::new(vec![in alloc; Some(Slot::U64(1 << 40))]?);
    let trees = vec![in alloc; Item::Table(no_slots(alloc)), Item::Table(leaf)]?;
    let texts = vec![in alloc; text(alloc, "")?, text(alloc, "né")?]?;
    let numbers = Item::Numbers(Vec::from_slice(alloc, &[7, u32::MAX])?);
    let records = Item::Records(Vec::from_slice(alloc, &[u64::MAX])?);
    let slots = vec![in alloc;
        Some(Slot::I8(-3)),
        None,
        Some(Slot::U32(0)),
        Some(Slot::Item(Item::Offsets(Items::new(trees)))),
        Some(Slot::Item(Item::Offsets(Items::new(texts)))),
        Some(Slot::Item(numbers)),
        Some(Slot::Item(records)),
        Some(Slot::Item(Item::Bytes(Vec::new(alloc)))),
        Some(Slot::U16(65535)),
    ]?;
    Items::finish(alloc, &Item::Table(Slots::new(slots)))
}

#[test]
fn numbers_are_read_again(rt: HostRuntime) -> Result<(), Fail> {
    read_again();
    let bytes = every_form(rt.alloc())?;
    let table = root(&bytes)?;
    assert_eq!(rt; table.field_i8(0)?, Some(-3));
    assert_eq!(rt; table.field_u32(1)?, None);
    assert_eq!(rt; table.field_u32(2)?, Some(0));
    assert_eq!(rt; table.field_bytes(7)?, Some([].as_slice()));
    assert_eq!(rt; table.field_u16(8)?, Some(65535));
    assert_eq!(rt; table.field_u16(9)?, None);
    Ok(())
}

#[test]
fn vectors_are_read_again(rt: HostRuntime) -> Result<(), Fail> {
    let bytes = every_form(rt.alloc())?;
    let table = root(&bytes)?;
    let trees = table.field_vector(3, 4)?.ok_or("trees")?;
    assert_eq!(rt; trees.len(), 2);
    assert_eq!(rt; trees.table(1)?.field_u64(0)?, Some(1 << 40));
    let texts = table.field_vector(4, 4)?.ok_or("texts")?;
    assert_eq!(rt; texts.len(), 2);
    assert_eq!(rt; texts.str(1)?, "né");
    let numbers = table.field_vector(5, 4)?.ok_or("numbers")?;
    assert_eq!(rt; numbers.len(), 2);
    assert_eq!(rt; numbers.u32(1), u32::MAX);
    let records = table.field_vector(6, 8)?.ok_or("records")?;
    assert_eq!(rt; records.len(), 1);
    assert_eq!(rt; records.u64(0), u64::MAX);
    Ok(())
}

#[test]
fn largest_tables(rt: HostRuntime) -> Result<(), Fail> {
    let alloc = rt.alloc();
    for (count, wide, too_long) in [
        (32_765, false, false),
        (32_766, false, true),
        (8_190, true, false),
        (8_191, true, true),
    ] {
        let mut slots = Vec::new(alloc);
        for _ in 0..count {
            slots.push(if wide { Some(Slot::U64(1)) } else { None })?;
        }
        let bytes = Items::finish(alloc, &Item::Table(Slots::new(slots)));
        assert_eq!(rt;
            bytes.err() == Some(FlatError::TooLong),
            too_long,
            "{count} slots"
        );
    }
    Ok(())
}
