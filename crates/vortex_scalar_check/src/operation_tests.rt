//! Operators on numbers, and bounds of texts and of bytes.

ghost use Rattle.vortex_scalar.specs.Arithmetic.{AreOfOneKind};
ghost use Rattle.vortex_scalar.specs.Views.{primitive_term};

use std::alloc::Global;
use std::test::*;
use vortex_buffer::ByteBuffer;
use vortex_names::Nullability;
use vortex_scalar::{PrimitiveScalar, Scalar};
use vortex_types::DType;
use vortex_value::{NumericOperator, PType};

const NOT: Nullability = Nullability::NonNullable;

const MAY: Nullability = Nullability::Nullable;

fn null_number() -> Scalar {
    Scalar::null(DType::Primitive(PType::I8, MAY))
}

/// The result on two scalars of `i8`, `Some(None)` being null, and whether it may be null.
fn result(op: NumericOperator, one: &Scalar, other: &Scalar) -> (Option<Option<i8>>, bool) {
    match (one.as_primitive_opt(), other.as_primitive_opt()) {
        (Some(one), Some(other)) => {
            if one.ptype() != other.ptype() {
                return (None, false);
            }
            match one.checked_binary_numeric(&other, op) {
                Some(result) => (result.as_opt::<i8>(), result.dtype().is_nullable()),
                None => (None, false),
            }
        }
        _ => (None, false),
    }
}

/// The result on two numbers of `i8`, the second of a nullable type.
fn on_numbers(op: NumericOperator, one: i8, other: i8) -> (Option<Option<i8>>, bool) {
    result(
        op,
        &Scalar::primitive(one, NOT),
        &Scalar::primitive(other, MAY),
    )
}

#[test]
fn operators_are_exact(rt: HostRuntime) {
    assert_eq!(rt; on_numbers(NumericOperator::Div, -128, -1), (None, false));
    assert_eq!(rt;
        on_numbers(NumericOperator::Div, 7, -2),
        (Some(Some(-3)), true)
    );
    assert_eq!(rt;
        on_numbers(NumericOperator::RSub, 7, 9),
        (Some(Some(2)), true)
    );
    assert_eq!(rt; on_numbers(NumericOperator::Mul, 64, 2), (None, false));
    assert_eq!(rt;
        result(
            NumericOperator::Add,
            &null_number(),
            &Scalar::primitive(1i8, NOT)
        ),
        (Some(None), true)
    );
    assert_eq!(rt;
        result(
            NumericOperator::Add,
            &Scalar::primitive(1i8, NOT),
            &Scalar::primitive(2i8, NOT)
        ),
        (Some(Some(3)), false)
    );
}

/// The sum by the call, where the operator has the same.
#[tactic(auto, using(crate::proofs::Operating::can_combine))]
fn sum_of<'a>(one: &PrimitiveScalar<'a>, other: &PrimitiveScalar<'a>) -> Option<Option<i8>>
    requires { AreOfOneKind (primitive_term one.now) (primitive_term other.now) }
{
    let sum = one.checked_add(other)?;
    if sum == *one + *other {
        sum.as_opt::<i8>()
    } else {
        None
    }
}

/// The difference by the call, where the operator has the same.
#[tactic(auto, using(crate::proofs::Operating::can_combine))]
fn difference_of<'a>(one: &PrimitiveScalar<'a>, other: &PrimitiveScalar<'a>) -> Option<Option<i8>>
    requires { AreOfOneKind (primitive_term one.now) (primitive_term other.now) }
{
    let difference = one.checked_sub(other)?;
    if difference == *one - *other {
        difference.as_opt::<i8>()
    } else {
        None
    }
}

/// The sum and the difference of two numbers of one kind.
fn sums(one: &Scalar, other: &Scalar) -> [Option<Option<i8>>; 2] {
    match (one.as_primitive_opt(), other.as_primitive_opt()) {
        (Some(one), Some(other)) => {
            if one.ptype() != other.ptype() {
                return [None, None];
            }
            [sum_of(&one, &other), difference_of(&one, &other)]
        }
        _ => [None, None],
    }
}

#[test]
fn sums_are_those_of_the_operators(rt: HostRuntime) {
    let (sum, difference) = (Some(Some(16)), Some(Some(-2)));
    assert!(rt;
        sums(&Scalar::primitive(7i8, NOT), &Scalar::primitive(9i8, MAY)) == [sum, difference]
    );
    assert!(rt;
        sums(&Scalar::primitive(127i8, NOT), &Scalar::primitive(1i8, MAY))
            == [None, Some(Some(126))]
    );
}

/// Whether the scalar of a text has this lower bound, and this upper one or none.
fn texts_are(
    alloc: Global,
    scalar: &Scalar,
    n: usize,
    lower: Option<&str>,
    upper: Option<&str>,
) -> bool {
    match (scalar.as_utf8_opt(), scalar.as_utf8_opt()) {
        (Some(one), Some(other)) => {
            let below = match one.lower_bound(alloc, n) {
                Ok(bound) => bound.value_ref() == lower,
                Err(_) => false,
            };
            let above = match other.upper_bound(alloc, n) {
                Ok(Some(bound)) => bound.value_ref() == upper,
                Ok(None) => upper.is_none(),
                Err(_) => false,
            };
            below && above
        }
        _ => false,
    }
}

/// Whether a text has these bounds.
fn text_lies(alloc: Global, text: &str, n: usize, lower: &str, upper: Option<&str>) -> bool {
    match Scalar::utf8(alloc, text, MAY) {
        Ok(scalar) => texts_are(alloc, &scalar, n, Some(lower), upper),
        Err(_) => false,
    }
}

#[test]
fn texts_have_bounds(rt: HostRuntime) {
    assert!(rt; text_lies(rt.alloc(), "abc", 2, "ab", Some("ac")));
    assert!(rt; text_lies(rt.alloc(), "é", 1, "", None));
    assert!(rt; text_lies(rt.alloc(), "zé", 2, "z", Some("{")));
    assert!(rt; text_lies(rt.alloc(), "\u{7f}\u{7f}", 1, "\u{7f}", None));
    assert!(rt; text_lies(rt.alloc(), "a\u{d7ff}x", 4, "a\u{d7ff}", Some("b")));
    assert!(rt; text_lies(rt.alloc(), "", 0, "", Some("")));
    assert!(rt; texts_are(rt.alloc(), &Scalar::null(DType::Utf8(MAY)), 0, None, None));
}

/// Whether the scalar of bytes has this lower bound, and this upper one or none.
fn bytes_are(
    alloc: Global,
    scalar: &Scalar,
    n: usize,
    lower: Option<&[u8]>,
    upper: Option<&[u8]>,
) -> bool {
    match (scalar.as_binary_opt(), scalar.as_binary_opt()) {
        (Some(one), Some(other)) => {
            let below = match one.lower_bound(alloc, n) {
                Ok(bound) => bound.value_ref() == lower,
                Err(_) => false,
            };
            let above = match other.upper_bound(alloc, n) {
                Ok(Some(bound)) => bound.value_ref() == upper,
                Ok(None) => upper.is_none(),
                Err(_) => false,
            };
            below && above
        }
        _ => false,
    }
}

/// Whether bytes have these bounds.
fn bytes_lie(alloc: Global, bytes: &[u8], n: usize, lower: &[u8], upper: Option<&[u8]>) -> bool {
    match ByteBuffer::from_slice(alloc, bytes) {
        Ok(buffer) => bytes_are(alloc, &Scalar::binary(buffer, MAY), n, Some(lower), upper),
        Err(_) => false,
    }
}

#[test]
fn bytes_have_bounds(rt: HostRuntime) {
    assert!(rt;
        bytes_lie(
            rt.alloc(),
            &[1, 255, 255, 5],
            3,
            &[1, 255, 255],
            Some(&[2, 0, 0])
        )
    );
    assert!(rt; bytes_lie(rt.alloc(), &[255, 255, 255], 2, &[255, 255], None));
    assert!(rt; bytes_lie(rt.alloc(), b"abc", 3, b"abc", Some(b"abc")));
    assert!(rt; bytes_are(rt.alloc(), &Scalar::null(DType::Binary(MAY)), 0, None, None));
}
