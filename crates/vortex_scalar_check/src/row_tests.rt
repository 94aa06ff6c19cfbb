//! Which values fit a type, how their rows compare, and what is hashed of them.

ghost use Rattle.std.specs.Prelude.{◌≡◌, is_some};
ghost use Rattle.vortex_types.specs.DTypes.{term_of};
ghost use Rattle.vortex_value_rows.specs.RowOf.{fitting_row};

use std::alloc::Global;
use std::cmp::Ordering;
use std::hash::{DefaultHasher, Hasher};
use std::rc::Rc;
use std::test::*;
use vortex_names::{DTypeError, DecimalDType, ExtID, FieldNames, Nullability};
use vortex_scalar::{Scalar, ScalarError, ScalarValue};
use vortex_types::{DType, Element, ExtDType, FieldDType, StructFields};
use vortex_value::{DecimalValue, PType, PValue};
use vortex_value_rows::{compare, fits, hash_row};

const NOT: Nullability = Nullability::NonNullable;

const MAY: Nullability = Nullability::Nullable;

fn int(number: i64) -> ScalarValue {
    ScalarValue::from_pvalue(PValue::I64(number))
}

fn list(alloc: Global, numbers: &[i64]) -> Result<ScalarValue, ScalarError> {
    let mut values = Vec::new(alloc);
    for number in numbers {
        values.push(int(*number))?;
    }
    ScalarValue::from_list(alloc, values)
}

fn fixed(alloc: Global, size: u32) -> Result<DType, DTypeError> {
    let element = Element::new(alloc, DType::from_ptype(PType::I16))?;
    Ok(DType::FixedSizeList(element, size, NOT))
}

fn fit(dtype: &DType, value: &ScalarValue) -> bool
    ensures { result ≡ is_some (fitting_row (term_of dtype.now) value.now) }
{
    fits(dtype.type_ref(), value)
}

/// Whether there is a value, and it fits.
fn fit_made(dtype: DType, value: Result<ScalarValue, ScalarError>) -> Option<bool> {
    match value {
        Ok(value) => Some(fit(&dtype, &value)),
        Err(_) => None,
    }
}

/// The same of a type that is made.
fn fit_both(
    dtype: Result<DType, DTypeError>,
    value: Result<ScalarValue, ScalarError>,
) -> Option<bool> {
    match dtype {
        Ok(dtype) => fit_made(dtype, value),
        Err(_) => None,
    }
}

fn fit_number(ptype: PType, number: PValue) -> bool {
    fit(&DType::from_ptype(ptype), &ScalarValue::from_pvalue(number))
}

#[test]
fn numbers_fit_by_range(rt: HostRuntime) {
    assert!(rt; !fit_number(PType::U8, PValue::I64(-1)));
    assert!(rt; fit_number(PType::U8, PValue::I64(255)));
    assert!(rt; !fit_number(PType::U8, PValue::I64(256)));
    assert!(rt; fit_number(PType::I8, PValue::U64(5)));
    assert!(rt; !fit_number(PType::I8, PValue::U64(128)));
    assert!(rt; !fit(&DType::from_ptype(PType::I8), &ScalarValue::from_bool(true)));
}

#[test]
fn nulls_fit_nullable_types(rt: HostRuntime) {
    assert!(rt; fit(&DType::Null, &ScalarValue::null()));
    assert!(rt; fit(&DType::Bool(MAY), &ScalarValue::null()));
    assert!(rt; !fit(&DType::Bool(NOT), &ScalarValue::null()));
    assert!(rt; !fit(&DType::Null, &ScalarValue::from_bool(false)));
}

#[test]
fn bytes_fit_by_type(rt: HostRuntime) {
    let alloc = rt.alloc();
    let byte = ScalarValue::from_bytes(alloc, &[255]);
    assert_eq!(rt; fit_made(DType::Utf8(NOT), byte), Some(false));
    let byte = ScalarValue::from_bytes(alloc, &[97]);
    assert_eq!(rt; fit_made(DType::Utf8(NOT), byte), Some(true));
    let text = ScalarValue::from_text(alloc, "a");
    assert_eq!(rt; fit_made(DType::Utf8(NOT), text), Some(true));
    let byte = ScalarValue::from_bytes(alloc, &[255]);
    assert_eq!(rt; fit_made(DType::Binary(NOT), byte), Some(true));
    let text = ScalarValue::from_text(alloc, "a");
    assert_eq!(rt; fit_made(DType::Binary(NOT), text), Some(true));
}

fn decimal() -> DType {
    DType::Decimal(DecimalDType::new(10, 2), NOT)
}

#[test]
fn decimals_fit_by_length(rt: HostRuntime) {
    let alloc = rt.alloc();
    let hundredth = ScalarValue::from_decimal(DecimalValue::I8(-1));
    assert_eq!(rt; fit_made(decimal(), Ok(hundredth)), Some(true));
    assert_eq!(rt; fit_made(decimal(), Ok(int(1))), Some(false));
    let three = ScalarValue::from_bytes(alloc, &[0; 3]);
    assert_eq!(rt; fit_made(decimal(), three), Some(false));
    let sixteen = ScalarValue::from_bytes(alloc, &[255; 16]);
    assert_eq!(rt; fit_made(decimal(), sixteen), Some(true));
}

/// A struct of a 16-bit number and a text, with a nullable extension of bytes behind them.
fn three_fields(alloc: Global) -> Result<DType, DTypeError> {
    let names = FieldNames::from_texts(alloc, &["a", "b", "c"])?;
    let id = ExtID::from_text(alloc, "x")?;
    let ext = ExtDType::try_new(alloc, id, DType::Binary(MAY), None)?;
    let dtypes = vec![in alloc;
        FieldDType::from_ptype(PType::I16),
        FieldDType::from_dtype(DType::Utf8(NOT)),
        FieldDType::from_dtype(DType::Extension(Rc::new(alloc, ext)?)),
    ]?;
    let fields = StructFields::from_fields(alloc, names, dtypes)?;
    Ok(DType::Struct(fields, NOT))
}

/// A number, a text and null, or the first two of them.
fn row(alloc: Global, number: i64, whole: bool) -> Result<ScalarValue, ScalarError> {
    let text = ScalarValue::from_text(alloc, "b")?;
    let mut values = vec![in alloc; int(number), text]?;
    if whole {
        values.push(ScalarValue::null())?;
    }
    ScalarValue::from_list(alloc, values)
}

#[test]
fn lists_fit_by_parts(rt: HostRuntime) {
    let alloc = rt.alloc();
    assert_eq!(rt;
        fit_both(fixed(alloc, 3), list(alloc, &[1, 2])),
        Some(false)
    );
    assert_eq!(rt; fit_both(fixed(alloc, 2), list(alloc, &[1, 2])), Some(true));
    assert_eq!(rt;
        fit_both(fixed(alloc, 2), list(alloc, &[1, 32_768])),
        Some(false)
    );
    assert_eq!(rt;
        fit_both(three_fields(alloc), row(alloc, 1, true)),
        Some(true)
    );
    assert_eq!(rt;
        fit_both(three_fields(alloc), row(alloc, 1, false)),
        Some(false)
    );
    assert_eq!(rt;
        fit_both(three_fields(alloc), row(alloc, 32_768, true)),
        Some(false)
    );
}

/// How values that fit compare.
#[tactic(auto, using(crate::proofs::Fitting::fitting_has_row))]
fn order(dtype: &DType, a: &ScalarValue, b: &ScalarValue) -> Option<Ordering> {
    if !fit(dtype, a) || !fit(dtype, b) {
        return None;
    }
    Some(compare(dtype.type_ref(), a, b))
}

/// The same of what is made.
fn order_made(
    dtype: Result<DType, DTypeError>,
    a: Result<ScalarValue, ScalarError>,
    b: Result<ScalarValue, ScalarError>,
) -> Option<Ordering> {
    match (dtype, a, b) {
        (Ok(dtype), Ok(a), Ok(b)) => order(&dtype, &a, &b),
        _ => None,
    }
}

/// A truth value, or null.
fn truth(value: Option<bool>) -> ScalarValue {
    match value {
        Some(value) => ScalarValue::from_bool(value),
        None => ScalarValue::null(),
    }
}

fn order_truths(a: Option<bool>, b: Option<bool>) -> Option<Ordering> {
    order(&DType::Bool(MAY), &truth(a), &truth(b))
}

/// Five, of another kind than its type.
fn five() -> ScalarValue {
    ScalarValue::from_pvalue(PValue::U64(5))
}

#[test]
fn rows_are_in_order(rt: HostRuntime) {
    let alloc = rt.alloc();
    let (less, equal, greater) = (Ordering::Less, Ordering::Equal, Ordering::Greater);
    assert_eq!(rt; order_truths(None, Some(false)), Some(less));
    assert_eq!(rt; order_truths(Some(true), Some(false)), Some(greater));
    assert_eq!(rt; order_truths(None, None), Some(equal));
    assert_eq!(rt;
        order(&DType::from_ptype(PType::I8), &int(-1), &five()),
        Some(less)
    );
    assert_eq!(rt;
        order_made(items(alloc), list(alloc, &[1]), list(alloc, &[1, 2])),
        Some(less)
    );
    assert_eq!(rt;
        order_made(items(alloc), list(alloc, &[2]), list(alloc, &[1, 2])),
        Some(greater)
    );
    assert_eq!(rt;
        order_made(
            Ok(DType::Binary(NOT)),
            ScalarValue::from_bytes(alloc, &[97]),
            ScalarValue::from_text(alloc, "a")
        ),
        Some(Ordering::Equal)
    );
    assert_eq!(rt;
        order_made(
            three_fields(alloc),
            row(alloc, 1, true),
            row(alloc, 2, true)
        ),
        Some(Ordering::Less)
    );
}

/// Lists of 16-bit numbers.
fn items(alloc: Global) -> Result<DType, DTypeError> {
    DType::list(alloc, DType::from_ptype(PType::I16), NOT)
}

/// The hash of a value that fits.
#[tactic(auto, using(crate::proofs::Fitting::fitting_has_row))]
fn hashed(dtype: &DType, value: &ScalarValue) -> Option<u64> {
    if !fit(dtype, value) {
        return None;
    }
    let mut state = DefaultHasher::new();
    hash_row(dtype.type_ref(), value, &mut state);
    Some(state.finish())
}

/// Whether what is made hashes alike.
fn hash_alike(
    dtype: Result<DType, DTypeError>,
    a: Result<ScalarValue, ScalarError>,
    b: Result<ScalarValue, ScalarError>,
) -> Option<bool> {
    match (dtype, a, b) {
        (Ok(dtype), Ok(a), Ok(b)) => Some(hashed(&dtype, &a)? == hashed(&dtype, &b)?),
        _ => None,
    }
}

/// Whether numbers of 8 bits hash alike.
fn numbers_alike(a: &ScalarValue, b: &ScalarValue) -> bool {
    let dtype = DType::from_ptype(PType::I8);
    hashed(&dtype, a) == hashed(&dtype, b)
}

/// Whether true hashes as true and as false.
fn truths_hash() -> [bool; 2] {
    let dtype = DType::Bool(NOT);
    let hash = hashed(&dtype, &truth(Some(true)));
    [
        hash == hashed(&dtype, &truth(Some(true))),
        hash == hashed(&dtype, &truth(Some(false))),
    ]
}

#[test]
fn equal_rows_hash_alike(rt: HostRuntime) {
    let alloc = rt.alloc();
    assert!(rt; numbers_alike(&int(5), &five()));
    assert!(rt; !numbers_alike(&int(5), &int(6)));
    assert!(rt; truths_hash() == [true, false]);
    assert_eq!(rt;
        hash_alike(
            Ok(DType::Utf8(NOT)),
            ScalarValue::from_text(alloc, "a"),
            ScalarValue::from_text(alloc, "b")
        ),
        Some(false)
    );
    assert_eq!(rt;
        hash_alike(
            Ok(DType::Binary(NOT)),
            ScalarValue::from_bytes(alloc, &[97]),
            ScalarValue::from_text(alloc, "a")
        ),
        Some(true)
    );
    assert_eq!(rt;
        hash_alike(items(alloc), list(alloc, &[1]), list(alloc, &[1, 2])),
        Some(false)
    );
    assert_eq!(rt;
        hash_alike(
            three_fields(alloc),
            row(alloc, 1, true),
            row(alloc, 1, true)
        ),
        Some(true)
    );
}

#[test]
fn bytes_that_are_no_text_are_refused(rt: HostRuntime) {
    let refusal = Scalar::try_utf8(rt.alloc(), &[0xFF], NOT).err();
    assert_eq!(rt; refusal, Some(ScalarError::WrongType));
}
