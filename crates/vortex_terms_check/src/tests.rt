use crate::plain::{PlainFields, PlainRelation, PlainRow, PlainRows, PlainType, WholeKind};
use crate::{
    compare, default_row, fits, keeps, legal, levels, nodes, nullable, passes, same, size_of,
    text_length, value_at,
};
use std::alloc::{AllocError, Global};
use std::cmp::Ordering;
use std::test::Fail;

pub(crate) fn field(
    alloc: Global,
    name: &str,
    t: PlainType,
    rest: PlainFields,
) -> Result<PlainFields, AllocError> {
    let name = Vec::from_slice(alloc, name.as_bytes())?;
    let t = Box::new(alloc, t)?;
    let rest = Box::new(alloc, rest)?;
    Ok(PlainFields::Field(name, t, rest))
}

fn row(alloc: Global, r: PlainRow, rest: PlainRows) -> Result<PlainRows, AllocError> {
    let r = Box::new(alloc, r)?;
    let rest = Box::new(alloc, rest)?;
    Ok(PlainRows::Row(r, rest))
}

pub(crate) fn list_of(alloc: Global, t: PlainType) -> Result<PlainType, AllocError> {
    Ok(PlainType::ListOf(Box::new(alloc, t)?, false))
}

pub(crate) fn fixed(alloc: Global, t: PlainType, k: u32, n: bool) -> Result<PlainType, AllocError> {
    Ok(PlainType::FixedSizeList(Box::new(alloc, t)?, k, n))
}

pub(crate) fn extension(alloc: Global, t: PlainType) -> Result<PlainType, AllocError> {
    let id = Vec::from_slice(alloc, b"x")?;
    let metadata = Vec::from_slice(alloc, &[4])?;
    Ok(PlainType::Extension(id, Box::new(alloc, t)?, Some(metadata)))
}

/// The struct `{a=i32, a=utf8}`, nullable or not.
pub(crate) fn two_of_a_name(alloc: Global, n: bool) -> Result<PlainType, AllocError> {
    let second = field(alloc, "a", PlainType::Utf8(false), PlainFields::End)?;
    let both = field(
        alloc,
        "a",
        PlainType::Primitive(WholeKind::I32, false),
        second,
    )?;
    Ok(PlainType::Struct(both, n))
}

pub(crate) fn bytes(alloc: Global, text: &[u8]) -> Result<PlainRow, AllocError> {
    Ok(PlainRow::Bytes(Vec::from_slice(alloc, text)?))
}

pub(crate) fn one(alloc: Global, r: PlainRow) -> Result<PlainRow, AllocError> {
    Ok(PlainRow::Items(row(alloc, r, PlainRows::End)?))
}

pub(crate) fn two(alloc: Global, r: PlainRow, s: PlainRow) -> Result<PlainRow, AllocError> {
    let second = row(alloc, s, PlainRows::End)?;
    Ok(PlainRow::Items(row(alloc, r, second)?))
}

#[test]
fn whole_numbers_fit_their_ranges(rt: HostRuntime) {
    let bounds = [
        (WholeKind::U8, [0, 255], [-1, 256]),
        (WholeKind::U16, [0, 65_535], [-1, 65_536]),
        (WholeKind::U32, [0, 4_294_967_295], [-1, 4_294_967_296]),
        (
            WholeKind::U64,
            [0, 18_446_744_073_709_551_615],
            [-1, 18_446_744_073_709_551_616],
        ),
        (WholeKind::I8, [-128, 127], [-129, 128]),
        (WholeKind::I16, [-32_768, 32_767], [-32_769, 32_768]),
        (
            WholeKind::I32,
            [-2_147_483_648, 2_147_483_647],
            [-2_147_483_649, 2_147_483_648],
        ),
        (
            WholeKind::I64,
            [-9_223_372_036_854_775_808, 9_223_372_036_854_775_807],
            [-9_223_372_036_854_775_809, 9_223_372_036_854_775_808],
        ),
    ];
    for (kind, inside, outside) in bounds {
        let t = PlainType::Primitive(kind, false);
        for z in inside {
            assert!(rt; fits(&t, &PlainRow::Whole(z)), "{z}");
        }
        for z in outside {
            assert!(rt; !fits(&t, &PlainRow::Whole(z)), "{z}");
        }
    }
    let decimal = PlainType::Decimal(1, 0, false);
    assert!(rt; fits(&decimal, &PlainRow::Whole(i128::MIN)));
    assert!(rt; fits(&decimal, &PlainRow::Whole(i128::MAX)));
}

#[test]
fn rows_fit_the_types_of_their_form(rt: HostRuntime) -> Result<(), Fail> {
    let alloc = rt.alloc();
    let odd_byte = bytes(alloc, &[255])?;
    assert!(rt; !fits(&PlainType::Utf8(false), &odd_byte));
    assert!(rt; fits(&PlainType::Binary(false), &odd_byte));
    assert!(rt; fits(&PlainType::Utf8(false), &bytes(alloc, "é".as_bytes())?));
    assert!(rt; fits(&PlainType::Bool(false), &PlainRow::Truth(true)));
    assert!(rt; !fits(&PlainType::Bool(false), &PlainRow::Whole(1)));
    assert!(rt;
        !fits(
            &PlainType::Primitive(WholeKind::U8, false),
            &PlainRow::Truth(true)
        )
    );

    // null fits what is nullable, an extension as its storage
    for (t, want) in [
        (PlainType::Null, true),
        (PlainType::Bool(true), true),
        (PlainType::Bool(false), false),
        (extension(alloc, PlainType::Utf8(true))?, true),
        (extension(alloc, PlainType::Utf8(false))?, false),
    ] {
        assert_eq!(rt; nullable(&t), want);
        assert_eq!(rt; fits(&t, &PlainRow::Null), want);
    }
    assert!(rt; !fits(&PlainType::Null, &PlainRow::Truth(false)));
    assert!(rt;
        fits(
            &extension(alloc, PlainType::Bool(false))?,
            &PlainRow::Truth(false)
        )
    );

    // lists by their elements, those of a fixed size by their number too
    let small = two(alloc, PlainRow::Whole(1), PlainRow::Whole(2))?;
    let large = two(alloc, PlainRow::Whole(1), PlainRow::Whole(256))?;
    let list = list_of(alloc, PlainType::Primitive(WholeKind::U8, false))?;
    assert!(rt; fits(&list, &small));
    assert!(rt; !fits(&list, &large));
    assert!(rt; fits(&list, &PlainRow::Items(PlainRows::End)));
    for (k, want) in [(1, false), (2, true), (3, false)] {
        let t = fixed(alloc, PlainType::Primitive(WholeKind::U8, false), k, false)?;
        assert_eq!(rt; fits(&t, &small), want, "{k}");
        assert!(rt; !fits(&t, &large));
    }

    // structs by their fields, each of which has a row
    let t = two_of_a_name(alloc, false)?;
    assert!(rt; fits(&t, &two(alloc, PlainRow::Whole(1), bytes(alloc, b"x")?)?));
    assert!(rt; !fits(&t, &two(alloc, PlainRow::Whole(1), PlainRow::Null)?));
    assert!(rt; !fits(&t, &one(alloc, PlainRow::Whole(1))?));
    assert!(rt; !fits(&t, &PlainRow::Null));
    assert!(rt; fits(&two_of_a_name(alloc, true)?, &PlainRow::Null));
    Ok(())
}

#[test]
fn rows_compare(rt: HostRuntime) -> Result<(), Fail> {
    let alloc = rt.alloc();
    let rising = [
        PlainRow::Null,
        PlainRow::Truth(false),
        PlainRow::Truth(true),
        PlainRow::Whole(-2),
        PlainRow::Whole(-1),
        PlainRow::Whole(0),
        PlainRow::Whole(10),
        bytes(alloc, b"")?,
        bytes(alloc, b"a")?,
        bytes(alloc, b"ab")?,
        bytes(alloc, b"b")?,
        PlainRow::Items(PlainRows::End),
        one(alloc, PlainRow::Null)?,
        two(alloc, PlainRow::Whole(1), PlainRow::Whole(5))?,
        one(alloc, PlainRow::Whole(2))?,
        two(alloc, PlainRow::Whole(2), PlainRow::Null)?,
        two(alloc, PlainRow::Whole(2), PlainRow::Whole(0))?,
    ];
    for (i, r) in rising.iter().enumerate() {
        for (j, s) in rising.iter().enumerate() {
            assert!(rt; compare(r, s) == i.cmp(&j), "{i} {j}");
        }
    }
    Ok(())
}

#[test]
fn defaults_are_those_of_the_types(rt: HostRuntime) -> Result<(), Fail> {
    let alloc = rt.alloc();
    let cases = [
        (PlainType::Null, PlainRow::Null),
        (PlainType::Bool(false), PlainRow::Truth(false)),
        (PlainType::Bool(true), PlainRow::Null),
        (
            PlainType::Primitive(WholeKind::I64, false),
            PlainRow::Whole(0),
        ),
        (PlainType::Decimal(10, 2, false), PlainRow::Whole(0)),
        (PlainType::Utf8(false), bytes(alloc, b"")?),
        (PlainType::Binary(false), bytes(alloc, b"")?),
        (
            list_of(alloc, PlainType::Bool(false))?,
            PlainRow::Items(PlainRows::End),
        ),
        (
            fixed(alloc, PlainType::Primitive(WholeKind::U8, false), 2, false)?,
            two(alloc, PlainRow::Whole(0), PlainRow::Whole(0))?,
        ),
        (
            fixed(alloc, PlainType::Bool(true), 1, false)?,
            one(alloc, PlainRow::Null)?,
        ),
        (
            two_of_a_name(alloc, false)?,
            two(alloc, PlainRow::Whole(0), bytes(alloc, b"")?)?,
        ),
        (two_of_a_name(alloc, true)?, PlainRow::Null),
        (
            extension(alloc, PlainType::Bool(false))?,
            PlainRow::Truth(false),
        ),
    ];
    for (i, (t, want)) in cases.iter().enumerate() {
        let made = default_row(alloc, t)?;
        assert!(rt; compare(&made, want) == Ordering::Equal, "{i}");
        assert!(rt; fits(t, &made), "{i}");
    }
    Ok(())
}

pub(crate) fn names(alloc: Global, parts: &[&[u8]]) -> Result<Vec<Vec<u8>>, AllocError> {
    let mut made = Vec::new(alloc);
    for part in parts {
        made.push(Vec::from_slice(alloc, part)?)?;
    }
    Ok(made)
}

/// Whether the path finds the row, null standing for none.
fn finds(t: &PlainType, r: &PlainRow, path: &[Vec<u8>], want: &PlainRow) -> bool {
    match value_at(t, r, path) {
        Some(s) => compare(s, want) == Ordering::Equal,
        None => compare(&PlainRow::Null, want) == Ordering::Equal,
    }
}

#[test]
fn paths_find_values(rt: HostRuntime) -> Result<(), Fail> {
    let alloc = rt.alloc();
    let root = names(alloc, &[])?;
    let a = names(alloc, &[b"a"])?;
    let b = names(alloc, &[b"b"])?;
    let a_a = names(alloc, &[b"a", b"a"])?;

    // the root, and the first of two fields of a name
    let pair = two_of_a_name(alloc, true)?;
    let r = two(alloc, PlainRow::Whole(1), bytes(alloc, b"x")?)?;
    assert!(rt; finds(&pair, &r, &root, &r));
    assert!(rt; finds(&pair, &r, &a, &PlainRow::Whole(1)));

    // null below a null struct, at a missing name and below what is no struct
    assert!(rt; finds(&pair, &PlainRow::Null, &a, &PlainRow::Null));
    assert!(rt; finds(&pair, &r, &b, &PlainRow::Null));
    assert!(rt; finds(&pair, &r, &a_a, &PlainRow::Null));

    // a struct in a struct, and an extension on the way, which is not gone through
    let inner = two_of_a_name(alloc, false)?;
    let outer = PlainType::Struct(field(alloc, "a", inner, PlainFields::End)?, false);
    let within = one(alloc, two(alloc, PlainRow::Whole(7), bytes(alloc, b"y")?)?)?;
    assert!(rt; finds(&outer, &within, &a_a, &PlainRow::Whole(7)));
    let stored = extension(alloc, outer)?;
    assert!(rt; finds(&stored, &within, &a_a, &PlainRow::Null));
    Ok(())
}

#[test]
fn types_are_measured(rt: HostRuntime) -> Result<(), Fail> {
    let alloc = rt.alloc();
    let pair = two_of_a_name(alloc, false)?;
    assert_eq!(rt; levels(&pair), 2);
    assert_eq!(rt; nodes(&pair), 3);
    assert_eq!(rt; text_length(&pair), 2);
    let stored = extension(alloc, PlainType::Utf8(false))?;
    assert_eq!(rt; levels(&stored), 2);
    assert_eq!(rt; nodes(&stored), 2);
    assert_eq!(rt; text_length(&stored), 2);
    assert!(rt; same(&pair, &two_of_a_name(alloc, true)?));
    assert!(rt; !same(&pair, &stored));
    assert!(rt;
        !same(
            &PlainType::Decimal(3, 1, false),
            &PlainType::Decimal(3, 2, false)
        )
    );
    Ok(())
}

#[test]
fn sizes_are_those_of_the_columns(rt: HostRuntime) -> Result<(), Fail> {
    let alloc = rt.alloc();
    // 16 for each row, and the bytes of each text once
    let texts = [
        bytes(alloc, b"Oslo")?,
        PlainRow::Null,
        bytes(alloc, b"Bergen")?,
        bytes(alloc, b"Oslo")?,
        bytes(alloc, b"")?,
    ];
    for (t, want) in [
        (PlainType::Utf8(true), 90),
        (PlainType::Binary(true), 90),
        (PlainType::Null, 80),
    ] {
        assert_eq!(rt; size_of(&t, &texts), want);
        assert!(rt; !passes(alloc, &t, &texts)?);
    }
    assert_eq!(rt; size_of(&PlainType::Bool(false), &[]), 0);

    // a null gives defaults to a struct's fields and to a list of a fixed size, and nothing to a list
    let small = fixed(alloc, PlainType::Primitive(WholeKind::U8, false), 3, true)?;
    let many = list_of(alloc, small)?;
    let rows = [
        one(alloc, PlainRow::Null)?,
        PlainRow::Null,
        PlainRow::Items(PlainRows::End),
    ];
    assert!(rt; !passes(alloc, &many, &rows)?);
    let pair = two_of_a_name(alloc, true)?;
    assert!(rt;
        !passes(
            alloc,
            &pair,
            &[
                PlainRow::Null,
                two(alloc, PlainRow::Whole(1), bytes(alloc, b"x")?)?
            ]
        )?
    );
    assert!(rt; !passes(alloc, &extension(alloc, pair)?, &[PlainRow::Null])?);
    Ok(())
}

#[test]
fn rows_are_kept_by_their_relation(rt: HostRuntime) -> Result<(), Fail> {
    let alloc = rt.alloc();
    let t = PlainType::Primitive(WholeKind::I32, true);
    let root = names(alloc, &[])?;
    for (relation, below, at, above) in [
        (PlainRelation::Equal, false, true, false),
        (PlainRelation::NotEqual, true, false, true),
        (PlainRelation::Less, true, false, false),
        (PlainRelation::AtMost, true, true, false),
        (PlainRelation::Greater, false, false, true),
        (PlainRelation::AtLeast, false, true, true),
    ] {
        let constant = PlainRow::Whole(7);
        for (r, want) in [
            (PlainRow::Whole(-8), below),
            (PlainRow::Whole(7), at),
            (PlainRow::Whole(8), above),
            (PlainRow::Null, false),
        ] {
            assert_eq!(rt;
                keeps(&t, &r, &root, relation, &constant),
                want,
                "{relation:?}"
            );
        }
    }
    // a null struct over a field that would be kept, and the struct that is there
    let pair = two_of_a_name(alloc, true)?;
    let a = names(alloc, &[b"a"])?;
    let there = two(alloc, PlainRow::Whole(7), bytes(alloc, b"")?)?;
    assert!(rt; keeps(&pair, &there, &a, PlainRelation::Equal, &PlainRow::Whole(7)));
    assert!(rt;
        !keeps(
            &pair,
            &PlainRow::Null,
            &a,
            PlainRelation::NotEqual,
            &PlainRow::Whole(1)
        )
    );
    Ok(())
}

#[test]
fn types_are_legal(rt: HostRuntime) -> Result<(), Fail> {
    let alloc = rt.alloc();
    for (precision, scale, want) in [
        (0, 0, false),
        (77, 0, false),
        (76, 77, false),
        (2, 3, false),
        (1, -128, true),
        (76, 76, true),
        (10, 2, true),
    ] {
        let t = PlainType::Decimal(precision, scale, false);
        assert_eq!(rt; legal(&t), want, "{precision} {scale}");
        assert_eq!(rt; legal(&list_of(alloc, t)?), want, "{precision} {scale}");
    }
    let stored = extension(alloc, PlainType::Bool(false))?;
    assert!(rt; legal(&stored));
    assert!(rt; !legal(&extension(alloc, stored)?));
    let between = list_of(alloc, extension(alloc, PlainType::Bool(false))?)?;
    assert!(rt; legal(&extension(alloc, between)?));
    assert!(rt; legal(&two_of_a_name(alloc, false)?));
    let odd = PlainFields::Field(
        Vec::from_slice(alloc, &[255])?,
        Box::new(alloc, PlainType::Null)?,
        Box::new(alloc, PlainFields::End)?,
    );
    assert!(rt; !legal(&PlainType::Struct(odd, false)));
    Ok(())
}
