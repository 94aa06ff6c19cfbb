use crate::plain::{PlainFields, PlainRelation, PlainRow, PlainType, WholeKind};
use crate::tests::{bytes, extension, field, fixed, list_of, names, one, two, two_of_a_name};
use crate::{
    bare, bounded, codes_of, compare, distinct, legal, levels, matches, nullable, part, rows_in,
    same, selected, target, type_number,
};
use std::alloc::{AllocError, Global};
use std::test::Fail;

fn nested(alloc: Global, lists: u32) -> Result<PlainType, AllocError> {
    let mut t = PlainType::Null;
    for _ in 0..lists {
        t = list_of(alloc, t)?;
    }
    Ok(t)
}

/// Whether the rows are those wanted.
fn are(rows: &[PlainRow], wanted: &[PlainRow]) -> bool {
    for (i, r) in rows.iter().enumerate() {
        match wanted.get(i) {
            Some(s) => {
                if !compare(r, s).is_eq() {
                    return false;
                }
            }
            None => return false,
        }
    }
    rows.len() == wanted.len()
}

/// The number of the kind of type, and 0 where there is no type.
fn number(t: Option<&PlainType>) -> u8 {
    match t {
        Some(t) => type_number(t),
        None => 0,
    }
}

#[test]
fn types_are_bounded(rt: HostRuntime) -> Result<(), Fail> {
    let alloc = rt.alloc();
    let deep = nested(alloc, 63)?;
    assert_eq!(rt; levels(&deep), 64);
    assert!(rt; bounded(&deep));
    let deeper = list_of(alloc, deep)?;
    assert_eq!(rt; levels(&deeper), 65);
    assert!(rt; legal(&deeper));
    assert!(rt; !bounded(&deeper));
    assert!(rt; !bounded(&PlainType::Decimal(77, 0, false)));
    Ok(())
}

#[test]
fn types_have_numbers_and_parts(rt: HostRuntime) -> Result<(), Fail> {
    let alloc = rt.alloc();
    let pair = two_of_a_name(alloc, false)?;
    let list = list_of(alloc, PlainType::Utf8(false))?;
    let stored = extension(alloc, PlainType::Utf8(false))?;
    let three = fixed(alloc, PlainType::Bool(false), 3, false)?;
    for (t, wanted) in [
        (PlainType::Null, 1),
        (PlainType::Bool(true), 2),
        (PlainType::Primitive(WholeKind::U8, true), 3),
        (PlainType::Decimal(1, 0, true), 4),
        (PlainType::Utf8(true), 5),
        (PlainType::Binary(true), 6),
    ] {
        assert_eq!(rt; type_number(&t), wanted);
        assert_eq!(rt; number(part(&t, 0)), 0, "{wanted}");
    }
    for (t, wanted, first, second) in [
        (&pair, 7, 3, 5),
        (&list, 8, 5, 0),
        (&stored, 9, 5, 0),
        (&three, 10, 2, 0),
    ] {
        assert_eq!(rt; type_number(t), wanted);
        assert_eq!(rt; number(part(t, 0)), first, "{wanted}");
        assert_eq!(rt; number(part(t, 1)), second, "{wanted}");
        assert_eq!(rt; number(part(t, 2)), 0, "{wanted}");
    }
    Ok(())
}

#[test]
fn bare_types_have_no_flags(rt: HostRuntime) -> Result<(), Fail> {
    let alloc = rt.alloc();
    let list = PlainType::ListOf(Box::new(alloc, PlainType::Utf8(true))?, true);
    let made = bare(alloc, &list)?;
    assert!(rt; same(&made, &list));
    assert!(rt; !nullable(&made));
    match part(&made, 0) {
        Some(t) => assert!(rt; !nullable(t)),
        None => assert!(rt; false),
    }
    let pair = two_of_a_name(alloc, true)?;
    let stored = extension(alloc, pair)?;
    assert!(rt; !nullable(&bare(alloc, &stored)?));
    assert!(rt; nullable(&bare(alloc, &PlainType::Null)?));
    Ok(())
}

#[test]
fn names_lead_to_targets(rt: HostRuntime) -> Result<(), Fail> {
    let alloc = rt.alloc();
    let root = names(alloc, &[])?;
    let a = names(alloc, &[b"a"])?;
    let b = names(alloc, &[b"b"])?;
    let a_a = names(alloc, &[b"a", b"a"])?;
    let pair = two_of_a_name(alloc, true)?;
    let stored = extension(alloc, two_of_a_name(alloc, false)?)?;
    let inner = extension(alloc, PlainType::Bool(false))?;
    let outer = PlainType::Struct(field(alloc, "a", inner, PlainFields::End)?, false);
    let list = list_of(alloc, two_of_a_name(alloc, false)?)?;
    for (t, path, wanted) in [
        (&pair, &root, 7),
        // the first of two fields of a name
        (&pair, &a, 3),
        (&pair, &b, 0),
        (&pair, &a_a, 0),
        // an extension at the end is its storage, and on the way nothing
        (&stored, &root, 7),
        (&stored, &a, 0),
        (&outer, &a, 2),
        (&list, &a, 0),
    ] {
        assert_eq!(rt; number(target(t, path)), wanted);
    }
    Ok(())
}

#[test]
fn queries_match(rt: HostRuntime) -> Result<(), Fail> {
    let alloc = rt.alloc();
    let root = names(alloc, &[])?;
    let a = names(alloc, &[b"a"])?;
    let b = names(alloc, &[b"b"])?;
    let pair = two_of_a_name(alloc, true)?;
    let number = PlainType::Primitive(WholeKind::I32, true);
    let wide = PlainType::Primitive(WholeKind::I64, false);
    let seven = PlainRow::Whole(7);
    assert!(rt; matches(&pair, &a, &number, &seven));
    assert!(rt; !matches(&pair, &a, &wide, &seven));
    assert!(rt; !matches(&pair, &b, &number, &seven));
    assert!(rt; !matches(&pair, &a, &number, &PlainRow::Null));
    // what can be compared, and what cannot
    for (t, c, want) in [
        (PlainType::Bool(false), PlainRow::Truth(true), true),
        (PlainType::Decimal(3, 1, false), PlainRow::Whole(7), true),
        (PlainType::Utf8(false), bytes(alloc, b"x")?, true),
        (PlainType::Binary(false), bytes(alloc, b"x")?, true),
        (
            extension(alloc, PlainType::Bool(false))?,
            PlainRow::Truth(true),
            false,
        ),
        (
            list_of(alloc, PlainType::Bool(false))?,
            one(alloc, PlainRow::Truth(true))?,
            false,
        ),
        (
            two_of_a_name(alloc, false)?,
            two(alloc, PlainRow::Whole(1), bytes(alloc, b"x")?)?,
            false,
        ),
        (PlainType::Null, PlainRow::Whole(7), false),
    ] {
        assert_eq!(rt; matches(&t, &root, &t, &c), want);
    }
    // an extension is compared as its storage
    let stored = extension(alloc, PlainType::Bool(true))?;
    assert!(rt;
        matches(
            &stored,
            &root,
            &PlainType::Bool(false),
            &PlainRow::Truth(true)
        )
    );
    Ok(())
}

#[test]
fn rows_are_selected_array_for_array(rt: HostRuntime) -> Result<(), Fail> {
    let alloc = rt.alloc();
    let t = PlainType::Primitive(WholeKind::I32, true);
    let root = names(alloc, &[])?;
    let mut arrays = Vec::new(alloc);
    let mut first = Vec::new(alloc);
    for r in [PlainRow::Whole(1), PlainRow::Whole(2), PlainRow::Null] {
        first.push(r)?;
    }
    let mut last = Vec::new(alloc);
    for r in [PlainRow::Whole(5), PlainRow::Whole(2)] {
        last.push(r)?;
    }
    arrays.push(first)?;
    arrays.push(Vec::new(alloc))?;
    arrays.push(last)?;
    let two = PlainRow::Whole(2);
    let kept = selected(alloc, &t, &arrays, &root, PlainRelation::AtLeast, &two)?;
    assert_eq!(rt; kept.len(), 3);
    assert!(rt; are(&kept[0], &[PlainRow::Whole(2)]));
    assert!(rt; are(&kept[1], &[]));
    assert!(rt; are(&kept[2], &[PlainRow::Whole(5), PlainRow::Whole(2)]));
    // five rows were read, and three were kept
    assert_eq!(rt; rows_in(&arrays), 5);
    assert_eq!(rt; rows_in(&kept), 3);
    Ok(())
}

#[test]
fn rows_become_a_dictionary(rt: HostRuntime) -> Result<(), Fail> {
    let alloc = rt.alloc();
    let rows = [
        bytes(alloc, b"b")?,
        bytes(alloc, b"a")?,
        bytes(alloc, b"b")?,
        PlainRow::Null,
        bytes(alloc, b"a")?,
        PlainRow::Null,
    ];
    let values = distinct(alloc, &rows)?;
    assert!(rt;
        are(
            &values,
            &[bytes(alloc, b"b")?, bytes(alloc, b"a")?, PlainRow::Null]
        )
    );
    let codes = codes_of(alloc, &rows)?;
    assert_eq!(rt; codes.as_slice(), [0, 1, 0, 2, 1, 2].as_slice());
    Ok(())
}
