//! Casts: what a scalar is under another type, and why it is refused.

use std::alloc::Global;
use std::rc::Rc;
use std::test::*;
use vortex_names::{DTypeError, DecimalDType, ExtID, Nullability};
use vortex_scalar::{Scalar, ScalarError, ScalarValue, ValueRef};
use vortex_types::{DType, Element, ExtDType};
use vortex_value::{DecimalValue, PType, PValue};

const NOT: Nullability = Nullability::NonNullable;

const MAY: Nullability = Nullability::Nullable;

/// What is found, or the number of the refusal; 100 where there is nothing to cast.
type Outcome = Result<Option<i128>, u8>;

const NULL: u8 = 4;

const KIND: u8 = 5;

const RANGE: u8 = 6;

const LENGTH: u8 = 7;

const FIELDS: u8 = 8;

fn whole(ptype: PType) -> Result<DType, DTypeError> {
    Ok(DType::from_ptype(ptype))
}

fn decimal(precision: u8, scale: i8) -> Result<DType, DTypeError> {
    Ok(DType::Decimal(DecimalDType::try_new(precision, scale)?, NOT))
}

fn list(alloc: Global, element: DType) -> Result<DType, DTypeError> {
    DType::list(alloc, element, NOT)
}

fn fixed(alloc: Global, ptype: PType, size: u32) -> Result<DType, DTypeError> {
    let element = Element::new(alloc, DType::from_ptype(ptype))?;
    Ok(DType::FixedSizeList(element, size, NOT))
}

fn one_field(alloc: Global, name: &str, ptype: PType) -> Result<DType, DTypeError> {
    DType::struct_(alloc, &[(name, DType::from_ptype(ptype))], MAY)
}

fn two_fields(alloc: Global, a: &str, p: PType, b: &str, q: PType) -> Result<DType, DTypeError> {
    let fields = [(a, DType::from_ptype(p)), (b, DType::from_ptype(q))];
    DType::struct_(alloc, &fields, MAY)
}

fn extension(alloc: Global, storage: DType) -> Result<DType, DTypeError> {
    let id = ExtID::from_text(alloc, "x")?;
    let ext = ExtDType::try_new(alloc, id, storage, None)?;
    Ok(DType::Extension(Rc::new(alloc, ext)?))
}

fn number(value: PValue) -> Result<ScalarValue, ScalarError> {
    Ok(ScalarValue::from_pvalue(value))
}

/// A list of two values, the second null where there is none.
fn values(alloc: Global, a: i32, b: Option<i32>) -> Result<ScalarValue, ScalarError> {
    let mut values = Vec::new(alloc);
    values.push(ScalarValue::from_pvalue(PValue::I32(a)))?;
    values.push(match b {
        Some(b) => ScalarValue::from_pvalue(PValue::I32(b)),
        None => ScalarValue::null(),
    })?;
    ScalarValue::from_list(alloc, values)
}

fn one_value(alloc: Global, a: i32) -> Result<ScalarValue, ScalarError> {
    let mut values = Vec::new(alloc);
    values.push(ScalarValue::from_pvalue(PValue::I32(a)))?;
    ScalarValue::from_list(alloc, values)
}

/// The number of a value, or of the last one inside it; none of others.
fn number_in(value: &ScalarValue) -> Option<i128> {
    match value.value_ref() {
        ValueRef::Primitive(value) => Some(value.as_i128()),
        ValueRef::Decimal(value) => Some(value.as_i128()),
        ValueRef::List(values) => match values.last() {
            Some(value) => match value.value_ref() {
                ValueRef::Primitive(value) => Some(value.as_i128()),
                _ => None,
            },
            None => None,
        },
        _ => None,
    }
}

/// What the scalar is under the type. The result is of this type.
fn cast(alloc: Global, scalar: &Scalar, target: &DType) -> Outcome {
    match scalar.cast(alloc, target) {
        Ok(found) if found.dtype() == target => Ok(number_in(found.value())),
        Ok(_) => Err(100),
        Err(error) => Err(error.number()),
    }
}

/// The same of a scalar that is made.
fn outcome(
    alloc: Global,
    dtype: Result<DType, DTypeError>,
    value: Result<ScalarValue, ScalarError>,
    target: Result<DType, DTypeError>,
) -> Outcome {
    match (dtype, value, target) {
        (Ok(dtype), Ok(value), Ok(target)) => match Scalar::try_new(dtype, value) {
            Ok(scalar) => cast(alloc, &scalar, &target),
            Err(_) => Err(100),
        },
        _ => Err(100),
    }
}

/// What the decimal of this precision, scale and number is under the type.
fn decimal_to(
    alloc: Global,
    precision: u8,
    scale: i8,
    number: i128,
    target: Result<DType, DTypeError>,
) -> Outcome {
    let value = ScalarValue::from_decimal(DecimalValue::I128(number));
    outcome(alloc, decimal(precision, scale), Ok(value), target)
}

#[test]
fn decimals_are_cast(rt: HostRuntime) {
    let alloc = rt.alloc();
    assert_eq!(rt; decimal_to(alloc, 3, 1, -5, whole(PType::U8)), Err(RANGE));
    assert_eq!(rt; decimal_to(alloc, 4, 1, 2559, whole(PType::U8)), Err(RANGE));
    assert_eq!(rt; decimal_to(alloc, 3, 1, 25, whole(PType::I8)), Ok(Some(2)));
    assert_eq!(rt; decimal_to(alloc, 3, 1, -5, whole(PType::I8)), Ok(Some(0)));
    assert_eq!(rt;
        decimal_to(alloc, 2, -2, 3, whole(PType::U16)),
        Ok(Some(300))
    );
    assert_eq!(rt; decimal_to(alloc, 76, 76, 1, whole(PType::U8)), Ok(Some(0)));
    assert_eq!(rt;
        decimal_to(alloc, 76, -128, 0, whole(PType::I8)),
        Ok(Some(0))
    );
    assert_eq!(rt;
        decimal_to(alloc, 76, -128, 1, whole(PType::I8)),
        Err(RANGE)
    );
    assert_eq!(rt; decimal_to(alloc, 3, 1, 25, decimal(5, 2)), Ok(Some(250)));
    assert_eq!(rt; decimal_to(alloc, 3, 1, 25, decimal(3, 0)), Err(RANGE));
}

#[test]
fn numbers_and_nulls_are_cast(rt: HostRuntime) {
    let alloc = rt.alloc();
    assert_eq!(rt;
        outcome(
            alloc,
            whole(PType::U64),
            number(PValue::U64(u64::MAX)),
            whole(PType::I64)
        ),
        Err(RANGE)
    );
    assert_eq!(rt;
        outcome(
            alloc,
            whole(PType::I32),
            number(PValue::I64(7)),
            whole(PType::U8)
        ),
        Ok(Some(7))
    );
    assert_eq!(rt;
        outcome(
            alloc,
            Ok(DType::Bool(NOT)),
            Ok(ScalarValue::from_bool(true)),
            whole(PType::U8)
        ),
        Err(KIND)
    );
    assert_eq!(rt;
        outcome(
            alloc,
            Ok(DType::Null),
            Ok(ScalarValue::null()),
            whole(PType::U8)
        ),
        Err(NULL)
    );
}

#[test]
fn structs_and_lists_are_cast(rt: HostRuntime) {
    let alloc = rt.alloc();
    assert_eq!(rt;
        outcome(
            alloc,
            one_field(alloc, "a", PType::I32),
            one_value(alloc, 300),
            one_field(alloc, "b", PType::U8)
        ),
        Err(RANGE)
    );
    assert_eq!(rt;
        outcome(
            alloc,
            one_field(alloc, "a", PType::I32),
            one_value(alloc, 300),
            two_fields(alloc, "b", PType::U8, "c", PType::U8)
        ),
        Err(FIELDS)
    );
    assert_eq!(rt;
        outcome(
            alloc,
            two_fields(alloc, "a", PType::I32, "b", PType::U8),
            values(alloc, 1, Some(2)),
            two_fields(alloc, "c", PType::I64, "d", PType::I8)
        ),
        Ok(Some(2))
    );
    assert_eq!(rt;
        outcome(
            alloc,
            one_field(alloc, "a", PType::I32),
            Ok(ScalarValue::null()),
            two_fields(alloc, "b", PType::U8, "c", PType::U8)
        ),
        Ok(None)
    );
    assert_eq!(rt;
        outcome(
            alloc,
            list(alloc, DType::from_ptype(PType::I32)),
            values(alloc, 1, Some(2)),
            fixed(alloc, PType::U8, 3)
        ),
        Err(LENGTH)
    );
    assert_eq!(rt;
        outcome(
            alloc,
            list(alloc, DType::from_ptype(PType::I32)),
            values(alloc, 1, Some(2)),
            fixed(alloc, PType::U8, 2)
        ),
        Ok(Some(2))
    );
}

/// What the extension over a list of 1 and null is under a list of these elements.
fn stored_list_to(alloc: Global, element: DType) -> Outcome {
    match list(alloc, DType::Primitive(PType::I32, MAY)) {
        Ok(storage) => outcome(
            alloc,
            extension(alloc, storage),
            values(alloc, 1, None),
            list(alloc, element),
        ),
        Err(_) => Err(100),
    }
}

#[test]
fn extensions_are_cast(rt: HostRuntime) {
    let alloc = rt.alloc();
    assert_eq!(rt;
        stored_list_to(alloc, DType::Primitive(PType::I32, NOT)),
        Err(NULL)
    );
    assert_eq!(rt;
        stored_list_to(alloc, DType::Primitive(PType::I32, MAY)),
        Ok(None)
    );
    assert_eq!(rt;
        stored_list_to(alloc, DType::Primitive(PType::I64, MAY)),
        Err(KIND)
    );
}
