//! Views of lists, structs, extensions, texts and bytes: what they hold, null, another type, a
//! place past the end, and a name that is missing.

use std::alloc::Global;
use std::cmp::Ordering;
use std::rc::Rc;
use std::test::*;
use vortex_names::{DTypeError, ExtID, FieldName, Nullability};
use vortex_scalar::{BinaryScalar, ExtScalar, Scalar, ScalarError, ScalarValue, Utf8Scalar};
use vortex_types::{DType, Element, ExtDType};
use vortex_value::{PType, PValue};

const NOT: Nullability = Nullability::NonNullable;

const MAY: Nullability = Nullability::Nullable;

fn numbers(alloc: Global, a: i32, b: i32) -> Result<ScalarValue, ScalarError> {
    let mut values = Vec::new(alloc);
    values.push(ScalarValue::from_pvalue(PValue::I32(a)))?;
    values.push(ScalarValue::from_pvalue(PValue::I32(b)))?;
    ScalarValue::from_list(alloc, values)
}

fn list_type(alloc: Global) -> Result<DType, DTypeError> {
    DType::list(alloc, DType::from_ptype(PType::I32), MAY)
}

fn fixed_type(alloc: Global, size: u32) -> Result<DType, DTypeError> {
    let element = Element::new(alloc, DType::from_ptype(PType::I32))?;
    Ok(DType::FixedSizeList(element, size, NOT))
}

fn struct_type(alloc: Global, a: &str, b: &str) -> Result<DType, DTypeError> {
    let fields = [
        (a, DType::from_ptype(PType::I32)),
        (b, DType::from_ptype(PType::I32)),
    ];
    DType::struct_(alloc, &fields, MAY)
}

fn ext_type(alloc: Global) -> Result<DType, DTypeError> {
    let id = ExtID::from_text(alloc, "x")?;
    let ext = ExtDType::try_new(alloc, id, DType::from_ptype(PType::I32), None)?;
    Ok(DType::Extension(Rc::new(alloc, ext)?))
}

/// The scalar, if the value fits the type.
fn made(
    dtype: Result<DType, DTypeError>,
    value: Result<ScalarValue, ScalarError>,
) -> Option<Scalar> {
    match (dtype, value) {
        (Ok(dtype), Ok(value)) => Scalar::try_new(dtype, value).ok(),
        _ => None,
    }
}

fn number_in(scalar: &Scalar) -> Option<i32> {
    match scalar.as_primitive_opt() {
        Some(view) => match view.as_opt::<i32>() {
            Some(number) => number,
            None => None,
        },
        None => None,
    }
}

/// The number of a part, and none where there is no part.
fn number_of(part: Result<Option<Scalar>, ScalarError>) -> Option<Option<i32>> {
    match part {
        Ok(Some(scalar)) => Some(number_in(&scalar)),
        Ok(None) => Some(None),
        Err(_) => None,
    }
}

fn count_of(parts: Result<Option<Vec<Scalar>>, ScalarError>) -> Option<Option<usize>> {
    match parts {
        Ok(Some(parts)) => Some(Some(parts.len())),
        Ok(None) => Some(None),
        Err(_) => None,
    }
}

/// Whether the list has so many elements, and this one at the index.
fn lists(
    alloc: Global,
    scalar: Option<Scalar>,
    count: Option<usize>,
    index: usize,
    want: Option<i32>,
) -> bool {
    match &scalar {
        Some(scalar) => match scalar.as_list_opt() {
            Some(list) => {
                list.is_null() == count.is_none()
                    && list.len() == count.unwrap_or(0)
                    && list.is_empty() == (list.len() == 0)
                    && list.element_dtype().is_primitive()
                    && count_of(list.elements(alloc)) == Some(count)
                    && number_of(list.element(alloc, index)) == Some(want)
            }
            None => false,
        },
        None => false,
    }
}

#[test]
fn lists_are_viewed(rt: HostRuntime) {
    let alloc = rt.alloc();
    assert!(rt;
        lists(
            alloc,
            made(list_type(alloc), numbers(alloc, 1, 2)),
            Some(2),
            1,
            Some(2)
        )
    );
    assert!(rt;
        lists(
            alloc,
            made(list_type(alloc), numbers(alloc, 1, 2)),
            Some(2),
            2,
            None
        )
    );
    assert!(rt;
        lists(
            alloc,
            made(fixed_type(alloc, 2), numbers(alloc, 7, 8)),
            Some(2),
            0,
            Some(7)
        )
    );
    assert!(rt;
        lists(
            alloc,
            made(list_type(alloc), Ok(ScalarValue::null())),
            None,
            0,
            None
        )
    );
    assert!(rt; Scalar::bool(true, NOT).as_list_opt().is_none());
}

/// Whether the field of a name and the one at an index are so.
fn has_fields(
    alloc: Global,
    scalar: Option<Scalar>,
    name: &str,
    named: Option<i32>,
    index: usize,
    placed: Option<i32>,
) -> bool {
    match &scalar {
        Some(scalar) => match scalar.as_struct_opt() {
            Some(view) => {
                view.names().len() == 2
                    && view.struct_fields().nfields() == 2
                    && count_of(view.fields(alloc))
                        == Some(if view.is_null() { None } else { Some(2) })
                    && number_of(view.field(alloc, name)) == Some(named)
                    && number_of(view.field_by_idx(alloc, index)) == Some(placed)
            }
            None => false,
        },
        None => false,
    }
}

#[test]
fn structs_are_viewed(rt: HostRuntime) {
    let alloc = rt.alloc();
    let pair = made(struct_type(alloc, "a", "b"), numbers(alloc, 1, 2));
    assert!(rt; has_fields(alloc, pair, "b", Some(2), 0, Some(1)));
    let twice = made(struct_type(alloc, "a", "a"), numbers(alloc, 1, 2));
    assert!(rt; has_fields(alloc, twice, "a", Some(1), 1, Some(2)));
    let third = made(struct_type(alloc, "a", "b"), numbers(alloc, 1, 2));
    assert!(rt; has_fields(alloc, third, "c", None, 2, None));
    let none = made(struct_type(alloc, "a", "b"), Ok(ScalarValue::null()));
    assert!(rt; has_fields(alloc, none, "a", None, 0, None));
    assert!(rt; Scalar::bool(true, NOT).as_struct_opt().is_none());
}

/// The struct of two fields of a scalar.
fn project_two(
    alloc: Global,
    scalar: &Scalar,
    first: &str,
    second: &str,
) -> Result<Scalar, ScalarError> {
    let mut names = Vec::new(alloc);
    for name in [first, second] {
        match FieldName::from_text(alloc, name) {
            Ok(name) => names.push(name)?,
            Err(_) => return Err(ScalarError::OutOfMemory),
        }
    }
    match scalar.as_struct_opt() {
        Some(view) => view.project(alloc, names.as_slice()),
        None => Err(ScalarError::WrongType),
    }
}

/// The numbers of the struct of two fields of a scalar.
fn projected(
    alloc: Global,
    scalar: Option<Scalar>,
    first: &str,
    second: &str,
) -> Result<(Option<i32>, Option<i32>), ScalarError> {
    match &scalar {
        Some(scalar) => {
            let projected = project_two(alloc, scalar, first, second)?;
            Ok(pair_of(alloc, &projected))
        }
        None => Err(ScalarError::DoesNotFit),
    }
}

fn pair_of(alloc: Global, scalar: &Scalar) -> (Option<i32>, Option<i32>) {
    match scalar.as_struct_opt() {
        Some(view) => (
            number_of(view.field_by_idx(alloc, 0)).flatten(),
            number_of(view.field_by_idx(alloc, 1)).flatten(),
        ),
        None => (None, None),
    }
}

#[test]
fn structs_are_projected(rt: HostRuntime) {
    let alloc = rt.alloc();
    let turned = made(struct_type(alloc, "a", "b"), numbers(alloc, 1, 2));
    assert_eq!(rt; projected(alloc, turned, "b", "a"), Ok((Some(2), Some(1))));
    let missing = made(struct_type(alloc, "a", "b"), numbers(alloc, 1, 2));
    let none = Err(ScalarError::FieldNotFound);
    assert_eq!(rt; projected(alloc, missing, "a", "c"), none);
    let null = made(struct_type(alloc, "a", "b"), Ok(ScalarValue::null()));
    assert_eq!(rt; projected(alloc, null, "b", "b"), Ok((None, None)));
}

/// The number of an extension's storage.
fn stored(
    alloc: Global,
    dtype: Result<DType, DTypeError>,
    value: ScalarValue,
) -> Result<Option<i32>, ScalarError> {
    match &dtype {
        Ok(dtype) => {
            let storage = ExtScalar::try_new(dtype, &value)?.storage(alloc)?;
            Ok(number_in(&storage))
        }
        Err(_) => Err(ScalarError::OutOfMemory),
    }
}

#[test]
fn extensions_are_viewed(rt: HostRuntime) {
    let alloc = rt.alloc();
    let seven = ScalarValue::from_pvalue(PValue::I32(7));
    assert_eq!(rt; stored(alloc, ext_type(alloc), seven), Ok(Some(7)));
    let truth = ScalarValue::from_bool(true);
    assert_eq!(rt;
        stored(alloc, ext_type(alloc), truth),
        Err(ScalarError::DoesNotFit)
    );
    let seven = ScalarValue::from_pvalue(PValue::I32(7));
    assert_eq!(rt;
        stored(alloc, list_type(alloc), seven),
        Err(ScalarError::WrongType)
    );
    assert!(rt; Scalar::bool(true, NOT).as_extension_opt().is_none());
}

/// The length of a text, and of the text that is shared.
fn text_lengths(
    alloc: Global,
    dtype: DType,
    value: Result<ScalarValue, ScalarError>,
) -> Result<(Option<usize>, Option<usize>), ScalarError> {
    let view = Utf8Scalar::from_scalar_value(&dtype, value?)?;
    let shared = view.value(alloc)?;
    let text = view.value_ref().map(str::len);
    Ok((text, shared.map(|text| text.len())))
}

/// The same of bytes.
fn bytes_lengths(
    alloc: Global,
    dtype: DType,
    value: Result<ScalarValue, ScalarError>,
) -> Result<(Option<usize>, Option<usize>), ScalarError> {
    let view = BinaryScalar::from_scalar_value(&dtype, value?)?;
    let shared = view.value(alloc)?;
    Ok((Some(view.len()), shared.map(|bytes| bytes.len())))
}

#[test]
fn texts_are_viewed(rt: HostRuntime) {
    let alloc = rt.alloc();
    let letter = ScalarValue::from_bytes(alloc, &[0xC3, 0xA9]);
    assert_eq!(rt;
        text_lengths(alloc, DType::Utf8(MAY), letter),
        Ok((Some(2), Some(2)))
    );
    let broken = ScalarValue::from_bytes(alloc, &[0xFF]);
    let refused = Err(ScalarError::DoesNotFit);
    assert_eq!(rt; text_lengths(alloc, DType::Utf8(MAY), broken), refused);
    let word = ScalarValue::from_text(alloc, "abc");
    let other = Err(ScalarError::WrongType);
    assert_eq!(rt; text_lengths(alloc, DType::Binary(MAY), word), other);
    let null = Ok(ScalarValue::null());
    assert_eq!(rt;
        text_lengths(alloc, DType::Utf8(MAY), null),
        Ok((None, None))
    );
}

#[test]
fn bytes_are_viewed(rt: HostRuntime) {
    let alloc = rt.alloc();
    let word = ScalarValue::from_text(alloc, "abc");
    assert_eq!(rt;
        bytes_lengths(alloc, DType::Binary(MAY), word),
        Ok((Some(3), Some(3)))
    );
    let byte = ScalarValue::from_bytes(alloc, &[0xFF]);
    assert_eq!(rt;
        bytes_lengths(alloc, DType::Binary(MAY), byte),
        Ok((Some(1), Some(1)))
    );
    let byte = ScalarValue::from_bytes(alloc, &[0xFF]);
    let other = Err(ScalarError::WrongType);
    assert_eq!(rt; bytes_lengths(alloc, DType::Utf8(NOT), byte), other);
}

/// How two texts compare as views.
fn texts_compare(
    a: Result<Scalar, ScalarError>,
    b: Result<Scalar, ScalarError>,
) -> Option<Ordering> {
    match (&a, &b) {
        (Ok(a), Ok(b)) => match (a.as_utf8_opt(), b.as_utf8_opt()) {
            (Some(a), Some(b)) => Some(a.cmp(&b)),
            _ => None,
        },
        _ => None,
    }
}

#[test]
fn texts_compare_as_bytes(rt: HostRuntime) {
    let alloc = rt.alloc();
    let (a, b) = (
        Scalar::utf8(alloc, "ab", NOT),
        Scalar::utf8(alloc, "b", MAY),
    );
    assert!(rt; texts_compare(a, b) == Some(Ordering::Less));
    let (a, b) = (
        Scalar::utf8(alloc, "", NOT),
        Ok(Scalar::null(DType::Utf8(MAY))),
    );
    assert!(rt; texts_compare(a, b) == Some(Ordering::Greater));
}
