//! Views of truth values, whole numbers and decimals: a value, null, another type, and what does
//! not fit.

use std::alloc::Global;
use std::cmp::Ordering;
use std::hash::{DefaultHasher, Hash, Hasher};
use std::test::*;
use vortex_names::{DecimalDType, Nullability};
use vortex_scalar::{DecimalScalar, PrimitiveScalar, Scalar, ScalarError, ScalarValue};
use vortex_types::DType;
use vortex_value::{DecimalValue, PType, PValue};

const NOT: Nullability = Nullability::NonNullable;

const MAY: Nullability = Nullability::Nullable;

fn hash_of<T: Hash>(value: &T) -> u64 {
    let mut hasher = DefaultHasher::new();
    value.hash(&mut hasher);
    hasher.finish()
}

/// Whether the views compare so. Equal ones are hashed alike.
fn compares<T: PartialOrd + Eq + Hash>(a: &T, b: &T, want: Option<Ordering>) -> bool {
    let equal = want == Some(Ordering::Equal);
    a.partial_cmp(b) == want && (a == b) == equal && (!equal || hash_of(a) == hash_of(b))
}

/// Whether the truth value is so, also in the scalar which is made of the view.
fn is_truth(scalar: &Scalar, want: Option<bool>, other: Option<bool>) -> bool {
    match scalar.as_bool_opt() {
        Some(view) => {
            view.law();
            let back = view.into_scalar();
            view.value() == want && view.invert().value() == other && back.as_bool().value() == want
        }
        None => false,
    }
}

#[test]
fn truth_values_are_viewed(rt: HostRuntime) {
    assert!(rt; is_truth(&Scalar::bool(true, NOT), Some(true), Some(false)));
    assert!(rt; is_truth(&Scalar::null(DType::Bool(MAY)), None, None));
    assert!(rt; Scalar::primitive(1u8, NOT).as_bool_opt().is_none());
}

fn order<T: Ord>(a: &T, b: &T) -> Ordering {
    a.cmp(b)
}

fn null_truth() -> Scalar {
    Scalar::null(DType::Bool(MAY))
}

/// Whether the views of truth values compare so.
fn truths_compare(a: &Scalar, b: &Scalar, want: Ordering) -> bool {
    match (a.as_bool_opt(), b.as_bool_opt()) {
        (Some(a), Some(b)) => order(&a, &b) == want && compares(&a, &b, Some(want)),
        _ => false,
    }
}

#[test]
fn truth_values_compare(rt: HostRuntime) {
    let (less, equal, greater) = (Ordering::Less, Ordering::Equal, Ordering::Greater);
    assert!(rt; truths_compare(&Scalar::bool(false, MAY), &Scalar::bool(true, NOT), less));
    assert!(rt; truths_compare(&Scalar::bool(false, MAY), &null_truth(), greater));
    assert!(rt; truths_compare(&null_truth(), &null_truth(), equal));
}

fn null_number(ptype: PType) -> Scalar {
    Scalar::null(DType::Primitive(ptype, MAY))
}

/// Whether a number that is there is of the kind.
fn is_own(value: Option<PValue>, ptype: PType) -> bool {
    match value {
        Some(value) => value.is_instance_of(&ptype),
        None => true,
    }
}

/// Whether the view has the kind, and the number as other native types is so.
fn casts(
    scalar: &Scalar,
    ptype: PType,
    narrow: Option<Option<i8>>,
    wide: Option<Option<u64>>,
) -> bool {
    match scalar.as_primitive_opt() {
        Some(view) => {
            view.ptype() == ptype
                && is_own(view.pvalue(), ptype)
                && view.as_opt::<i8>() == narrow
                && view.as_opt::<u64>() == wide
        }
        None => false,
    }
}

#[test]
fn whole_numbers_are_viewed(rt: HostRuntime) {
    assert!(rt;
        casts(
            &Scalar::primitive(-1i64, NOT),
            PType::I64,
            Some(Some(-1)),
            None
        )
    );
    assert!(rt;
        casts(
            &Scalar::primitive(200u8, NOT),
            PType::U8,
            None,
            Some(Some(200))
        )
    );
    assert!(rt; casts(&null_number(PType::I16), PType::I16, Some(None), Some(None)));
    assert!(rt; Scalar::bool(true, NOT).as_primitive_opt().is_none());
}

/// Whether the number of a scalar of `i64` is so, also in the scalar which is made of the view.
fn is_typed(scalar: &Scalar, want: Option<i64>) -> bool {
    match scalar.as_primitive_opt() {
        Some(view) => {
            view.law();
            let back = view.into_scalar();
            let same = back.as_primitive().as_opt::<i64>() == Some(want);
            match view.ptype() {
                PType::I64 => view.typed_value::<i64>() == want && same,
                _ => false,
            }
        }
        None => false,
    }
}

#[test]
fn whole_numbers_have_their_type(rt: HostRuntime) {
    assert!(rt; is_typed(&Scalar::primitive(-1i64, NOT), Some(-1)));
    assert!(rt; is_typed(&null_number(PType::I64), None));
    assert!(rt; !is_typed(&Scalar::primitive(200u8, NOT), Some(200)));
}

/// The number of a scalar as `u16`, where it is in range.
fn narrowed(scalar: &Scalar) -> Option<u16> {
    match scalar.as_primitive_opt() {
        Some(view) => match view.as_opt::<u16>() {
            Some(_) => view.as_::<u16>(),
            None => None,
        },
        None => None,
    }
}

#[test]
fn whole_numbers_are_narrowed(rt: HostRuntime) {
    assert!(rt; narrowed(&Scalar::primitive(65535u64, NOT)) == Some(65535));
    assert!(rt; narrowed(&Scalar::primitive(65536u64, NOT)).is_none());
}

fn int(number: i64) -> ScalarValue {
    ScalarValue::from_pvalue(PValue::I64(number))
}

/// The kind and the number that are kept of a value.
fn kept(
    ptype: PType,
    nullability: Nullability,
    value: &ScalarValue,
) -> Result<Option<(PType, i128)>, ScalarError> {
    kept_of(&DType::Primitive(ptype, nullability), value)
}

/// The same under any type.
fn kept_of(dtype: &DType, value: &ScalarValue) -> Result<Option<(PType, i128)>, ScalarError> {
    match PrimitiveScalar::try_new(dtype, value) {
        Ok(view) => match view.pvalue() {
            Some(value) => Ok(Some((value.ptype(), value.as_i128()))),
            None => Ok(None),
        },
        Err(e) => Err(e),
    }
}

#[test]
fn whole_numbers_fit_or_not(rt: HostRuntime) {
    let refused = Err(ScalarError::DoesNotFit);
    assert!(rt; kept(PType::U8, NOT, &int(5)) == Ok(Some((PType::U8, 5))));
    assert!(rt; kept(PType::U8, NOT, &int(-1)) == refused);
    assert!(rt; kept(PType::U8, NOT, &ScalarValue::null()) == refused);
    assert!(rt; kept(PType::I64, MAY, &ScalarValue::null()) == Ok(None));
    assert!(rt; kept_of(&DType::Bool(MAY), &int(5)) == Err(ScalarError::WrongType));
}

/// Whether the views of whole numbers compare so.
fn numbers_compare(a: &Scalar, b: &Scalar, want: Option<Ordering>) -> bool {
    match (a.as_primitive_opt(), b.as_primitive_opt()) {
        (Some(a), Some(b)) => compares(&a, &b, want),
        _ => false,
    }
}

fn smalls_compare(number: i16, other: &Scalar, want: Option<Ordering>) -> bool {
    numbers_compare(&Scalar::primitive(number, NOT), other, want)
}

#[test]
fn whole_numbers_compare(rt: HostRuntime) {
    let (one, two, wide) = (1i16, 2i16, 1i64);
    assert!(rt; smalls_compare(one, &Scalar::primitive(two, MAY), Some(Ordering::Less)));
    assert!(rt; smalls_compare(one, &null_number(PType::I16), Some(Ordering::Greater)));
    assert!(rt; smalls_compare(one, &Scalar::primitive(one, NOT), Some(Ordering::Equal)));
    assert!(rt; smalls_compare(one, &Scalar::primitive(wide, NOT), None));
}

fn number_of(view: &DecimalScalar<'_>) -> Option<i128> {
    match view.decimal_value() {
        Some(value) => Some(value.as_i128()),
        None => None,
    }
}

/// The number of a decimal, from its view and from the scalar which is made of that.
fn decimals(dtype: &DType, value: &ScalarValue) -> Result<[Option<i128>; 2], ScalarError> {
    let view = DecimalScalar::try_new(dtype, value)?;
    view.law();
    let back = view.into_scalar();
    Ok([number_of(&view), number_of(&back.as_decimal())])
}

fn money(nullability: Nullability) -> DType {
    DType::Decimal(DecimalDType::new(5, 2), nullability)
}

fn hundredths(number: i16) -> ScalarValue {
    ScalarValue::from_decimal(DecimalValue::I16(number))
}

/// The same of bytes.
fn decimals_of_bytes(alloc: Global, bytes: &[u8]) -> Result<[Option<i128>; 2], ScalarError> {
    match ScalarValue::from_bytes(alloc, bytes) {
        Ok(value) => decimals(&money(NOT), &value),
        Err(e) => Err(e),
    }
}

#[test]
fn decimals_are_viewed(rt: HostRuntime) {
    let alloc = rt.alloc();
    let refused = Err(ScalarError::DoesNotFit);
    assert!(rt; decimals(&money(NOT), &hundredths(-125)) == Ok([Some(-125), Some(-125)]));
    assert!(rt; decimals_of_bytes(alloc, &[131, 255]) == Ok([Some(-125), Some(-125)]));
    assert!(rt; decimals_of_bytes(alloc, &[1, 2, 3]) == refused);
    assert!(rt; decimals(&money(NOT), &int(-125)) == refused);
    assert!(rt; decimals(&money(NOT), &ScalarValue::null()) == refused);
    assert!(rt; decimals(&money(MAY), &ScalarValue::null()) == Ok([None, None]));
    assert!(rt; decimals(&DType::Null, &hundredths(1)) == Err(ScalarError::WrongType));
}

/// Whether the views of decimals compare so.
fn decimals_compare(a: &Scalar, b: &Scalar, want: Option<Ordering>) -> bool {
    match (a.as_decimal_opt(), b.as_decimal_opt()) {
        (Some(a), Some(b)) => {
            compares(&a, &b, want) && a.decimal_value().is_some() && b.decimal_value().is_some()
        }
        _ => false,
    }
}

fn decimal(value: DecimalValue, dtype: DecimalDType) -> Scalar {
    Scalar::decimal(value, dtype, MAY)
}

/// How 0.01 compares.
fn decimal_compares(other: &Scalar, want: Option<Ordering>) -> bool {
    let low = Scalar::decimal(DecimalValue::I8(1), DecimalDType::new(5, 2), NOT);
    decimals_compare(&low, other, want)
}

#[test]
fn decimals_compare_by_the_number(rt: HostRuntime) {
    let (same, other) = (DecimalDType::new(5, 2), DecimalDType::new(5, 1));
    let (one, two) = (DecimalValue::I64(1), DecimalValue::I128(2));
    assert!(rt; decimal_compares(&decimal(two, same), Some(Ordering::Less)));
    assert!(rt; decimal_compares(&decimal(one, same), Some(Ordering::Equal)));
    assert!(rt; decimal_compares(&decimal(one, other), None));
    assert!(rt; !decimal_compares(&Scalar::bool(true, NOT), None));
}
