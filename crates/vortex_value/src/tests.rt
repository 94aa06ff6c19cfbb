//! One happy path of each call, the limits of each width, and each generic item through its bound.
ghost use Rattle.std.specs.Prelude.{◌≡◌, ◌<◌};

use crate::{
    DecimalValue, DecimalValueType, NativeDecimalType, NativePType, NumericOperator, Operator,
    PType, PValue, PhysicalPType, ToBytes, ValueError,
};
use std::alloc::{AllocError, Global};
use std::cmp::Ordering;
use std::fmt::Display;
use std::hash::{DefaultHasher, Hash, Hasher};
use std::marker::Brand;
use std::sync::ledger::{Blank, Ledger};
use std::test::Fail;
use vortex_steps::Steps;

fn writes<T: ToBytes>(alloc: Global, value: &T, want: &[u8]) -> Result<bool, ValueError> {
    let mut out = Vec::new(alloc);
    value.push_le(&mut out)?;
    Ok(out.as_slice() == want)
}

fn shows<T: Display>(alloc: Global, value: &T, want: &str) -> Result<bool, AllocError> {
    let text = format!(in alloc; "{value}")?;
    Ok(text.as_str() == want)
}

fn order<T: Ord>(a: &T, b: &T) -> Ordering {
    a.cmp(b)
}

fn partial_order<T: PartialOrd>(a: &T, b: &T) -> Option<Ordering> {
    a.partial_cmp(b)
}

fn same<T: Eq>(a: &T, b: &T) -> bool {
    a == b
}

fn hash_of<T: Hash>(x: &T) -> u64 {
    let mut state = DefaultHasher::new();
    x.hash(&mut state);
    state.finish()
}

fn compares<T: Ord + Hash>(a: &T, b: &T, want: Ordering) -> bool {
    let equal = want == Ordering::Equal;
    order(a, b) == want
        && partial_order(a, b) == Some(want)
        && same(a, b) == equal
        && (hash_of(a) == hash_of(b)) == equal
}

fn value_from<T: Into<PValue>>(number: T) -> PValue {
    number.into()
}

fn decimal_from<T: Into<DecimalValue>>(number: T) -> DecimalValue {
    number.into()
}

fn native<T: NativePType>(a: T, b: T, want: Ordering) -> bool {
    let wrong = a.is_nan() || a.is_infinite();
    !wrong
        && a.total_compare(b) == want
        && a.is_le(b) == want.is_le()
        && a.is_lt(b) == want.is_lt()
        && a.is_ge(b) == want.is_ge()
        && a.is_gt(b) == want.is_gt()
        && a.is_eq(b) == want.is_eq()
        && a.to_pvalue().ptype() == T::PTYPE
}

#[test]
fn natives_have_the_order_of_the_numbers(rt: HostRuntime) {
    assert!(rt; native(0, u8::MAX, Ordering::Less));
    assert!(rt; native(u16::MAX, u16::MAX, Ordering::Equal));
    assert!(rt; native(u32::MAX, 1, Ordering::Greater));
    assert!(rt; native(0, u64::MAX, Ordering::Less));
    assert!(rt; native(i8::MIN, i8::MAX, Ordering::Less));
    assert!(rt; native(i16::MIN, 0, Ordering::Less));
    assert!(rt; native(i32::MAX, i32::MIN, Ordering::Greater));
    assert!(rt; native(-1i64, 1, Ordering::Less));
}

fn physical<T: PhysicalPType>() -> PType {
    T::Physical::PTYPE
}

#[test]
fn physical_types_have_no_sign(rt: HostRuntime) {
    assert_eq!(rt;
        (physical::<u8>(), physical::<i8>()),
        (PType::U8, PType::U8)
    );
    assert_eq!(rt;
        (physical::<u16>(), physical::<i16>()),
        (PType::U16, PType::U16)
    );
    assert_eq!(rt;
        (physical::<u32>(), physical::<i32>()),
        (PType::U32, PType::U32)
    );
    assert_eq!(rt;
        (physical::<u64>(), physical::<i64>()),
        (PType::U64, PType::U64)
    );
}

#[test]
fn values_convert_within_the_range(rt: HostRuntime) {
    let below = PValue::I16(-1);
    let above = PValue::U16(256);
    let most = PValue::U64(u64::MAX);
    assert_eq!(rt;
        (below.as_u8(), below.as_u64(), below.as_i8()),
        (None, None, Some(-1))
    );
    assert_eq!(rt;
        (above.as_u8(), above.as_u16(), above.as_i8()),
        (None, Some(256), None)
    );
    assert_eq!(rt;
        (most.as_u64(), most.as_i64(), most.as_u32()),
        (Some(u64::MAX), None, None)
    );
    assert_eq!(rt;
        (PValue::U8(128).as_i8(), PValue::U8(127).as_i8()),
        (None, Some(127))
    );
    assert_eq!(rt;
        (PValue::I64(-32769).as_i16(), PValue::I64(-32768).as_i16()),
        (None, Some(i16::MIN))
    );
    assert_eq!(rt;
        (PValue::I64(2147483648).as_i32(), PValue::I64(7).as_i32()),
        (None, Some(7))
    );
    assert_eq!(rt; below.try_usize(), Err(ValueError::OutOfRange));
    assert_eq!(rt; most.try_usize(), Ok(usize::MAX));
    assert_eq!(rt; PValue::I64(9).as_primitive::<u8>(), 9);
    assert_eq!(rt; above.as_primitive_opt::<u8>(), None);
}

#[test]
fn values_keep_their_bits(rt: HostRuntime) {
    assert!(rt; PValue::U8(255).reinterpret_cast(PType::I8).as_i8() == Some(-1));
    assert!(rt; PValue::I16(i16::MIN).reinterpret_cast(PType::U16).as_u16() == Some(32768));
    assert!(rt; PValue::U32(7).reinterpret_cast(PType::U32).as_u32() == Some(7));
    assert!(rt; PValue::I64(-1).reinterpret_cast(PType::U64).as_u64() == Some(u64::MAX));
    assert!(rt; PValue::zero(PType::I32).is_instance_of(&PType::I32));
    assert!(rt; !PValue::zero(PType::I32).is_instance_of(&PType::U32));
    assert_eq!(rt; PValue::zero(PType::U64).as_i128(), 0);
}

#[test]
fn values_compare_by_their_numbers(rt: HostRuntime) {
    assert!(rt; compares(&value_from(5u8), &value_from(5i64), Ordering::Equal));
    assert!(rt; compares(&value_from(-1i8), &value_from(0u64), Ordering::Less));
    assert!(rt;
        compares(
            &value_from(u64::MAX),
            &value_from(i64::MAX),
            Ordering::Greater
        )
    );
    assert!(rt; compares(&value_from(300u16), &value_from(300i16), Ordering::Equal));
    assert!(rt; compares(&value_from(7u32), &value_from(7usize), Ordering::Equal));
    assert!(rt; compares(&value_from(-7i32), &value_from(7u32), Ordering::Less));
}

#[test]
fn values_have_texts_and_bytes(rt: HostRuntime) -> Result<(), Fail> {
    assert!(rt; shows(rt.alloc(), &PValue::U8(5), "5u8")?);
    assert!(rt; shows(rt.alloc(), &PValue::I64(-3), "-3i64")?);
    assert!(rt; shows(rt.alloc(), &DecimalValue::I8(5), "decimal8(5)")?);
    assert!(rt; shows(rt.alloc(), &DecimalValue::I128(-7), "decimal128(-7)")?);
    assert!(rt; shows(rt.alloc(), &NumericOperator::RSub, "RSub")?);
    assert!(rt; writes(rt.alloc(), &PValue::U16(258), &[2, 1])?);
    assert!(rt; writes(rt.alloc(), &DecimalValue::I16(-1), &[255, 255])?);
    Ok(())
}

#[test]
fn decimals_compare_by_their_numbers(rt: HostRuntime) {
    assert!(rt;
        compares(
            &DecimalValue::I128(10),
            &DecimalValue::I8(11),
            Ordering::Less
        )
    );
    assert!(rt;
        compares(
            &DecimalValue::I128(-1000),
            &DecimalValue::I8(1),
            Ordering::Less
        )
    );
    assert!(rt; compares(&decimal_from(5u8), &decimal_from(5i8), Ordering::Equal));
    assert!(rt;
        compares(
            &decimal_from(u16::MAX),
            &decimal_from(i16::MAX),
            Ordering::Greater
        )
    );
    assert!(rt;
        compares(
            &decimal_from(u32::MAX),
            &decimal_from(i32::MAX),
            Ordering::Greater
        )
    );
    assert!(rt;
        compares(
            &decimal_from(u64::MAX),
            &decimal_from(i64::MAX),
            Ordering::Greater
        )
    );
    assert!(rt; compares(&decimal_from(1i128), &decimal_from(1i64), Ordering::Equal));
}

fn casts<T: NativeDecimalType + Eq>(value: DecimalValue, want: Option<T>, own: Option<T>) -> bool {
    value.cast::<T>() == want && T::maybe_from(value) == own
}

#[test]
fn decimals_convert_within_the_range(rt: HostRuntime) {
    assert!(rt; casts(DecimalValue::I128(127), Some(127i8), None));
    assert!(rt; casts(DecimalValue::I128(128), None::<i8>, None));
    assert!(rt; casts(DecimalValue::I16(-3), Some(-3i16), Some(-3)));
    assert!(rt; casts(DecimalValue::I64(2147483648), None::<i32>, None));
    assert!(rt; casts(DecimalValue::I32(4), Some(4i64), None));
    assert!(rt;
        casts(
            DecimalValue::I128(i128::MIN),
            Some(i128::MIN),
            Some(i128::MIN)
        )
    );
    assert_eq!(rt; DecimalValue::I64(1).values_type(), DecimalValueType::I64);
}

#[test]
fn widths_have_numbers(rt: HostRuntime) {
    for number in 0u32..5 {
        assert_eq!(rt;
            DecimalValueType::from_number(number).map(|width| width.number() as u32),
            Some(number)
        );
    }
    assert_eq!(rt; DecimalValueType::from_number(5), None);
    assert_eq!(rt;
        order(&DecimalValueType::I8, &DecimalValueType::I128),
        Ordering::Less
    );
}

fn relations<L: Ledger>(blank: Blank) -> [bool; 6]
    requires name { blank.name ≡ L.name }
    requires parts { blank.parts ≡ L.parts }
    requires some { 0 < blank.parts }
{
    let mut steps = Steps::<L>::new(blank);
    [
        Operator::Eq.holds(Ordering::Less, &mut steps),
        Operator::NotEq.holds(Ordering::Less, &mut steps),
        Operator::Lt.holds(Ordering::Equal, &mut steps),
        Operator::Lte.holds(Ordering::Equal, &mut steps),
        Operator::Gt.holds(Ordering::Greater, &mut steps),
        Operator::Gte.holds(Ordering::Less, &mut steps),
    ]
}

#[test]
fn operators(rt: HostRuntime) {
    assert_eq!(rt;
        relations::<Brand>(Blank::new(1)),
        [false, true, false, true, true, false]
    );
    for (operator, want) in [
        (NumericOperator::Add, NumericOperator::Add),
        (NumericOperator::Sub, NumericOperator::RSub),
        (NumericOperator::RSub, NumericOperator::Sub),
        (NumericOperator::Mul, NumericOperator::Mul),
        (NumericOperator::Div, NumericOperator::RDiv),
        (NumericOperator::RDiv, NumericOperator::Div),
    ] {
        assert_eq!(rt; operator.swap(), want);
    }
}
