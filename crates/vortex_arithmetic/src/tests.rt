//! Worked rows.
use crate::{checked_binary, rescale, to_whole};
use vortex_value::{NumericOperator, PType, PValue};

// Whether the answer is this value, of this kind.
fn is(answer: Option<PValue>, want: PValue) -> bool {
    match answer {
        Some(value) => value == want && value.ptype() == want.ptype(),
        None => false,
    }
}

#[test]
fn operators_on_one_byte(rt: HostRuntime) {
    let least = PValue::I8(-128);
    let minus = PValue::I8(-1);
    let seven = PValue::I8(7);
    let two = PValue::I8(-2);
    let zero = PValue::I8(0);
    assert_eq!(rt; checked_binary(NumericOperator::Div, least, minus), None);
    assert_eq!(rt; checked_binary(NumericOperator::Div, seven, zero), None);
    assert_eq!(rt; checked_binary(NumericOperator::RDiv, zero, seven), None);
    assert_eq!(rt; checked_binary(NumericOperator::Sub, least, seven), None);
    assert!(rt;
        is(
            checked_binary(NumericOperator::Div, seven, two),
            PValue::I8(-3)
        )
    );
    assert!(rt;
        is(
            checked_binary(NumericOperator::RDiv, seven, two),
            PValue::I8(0)
        )
    );
    assert!(rt;
        is(
            checked_binary(NumericOperator::Add, seven, two),
            PValue::I8(5)
        )
    );
    assert!(rt;
        is(
            checked_binary(NumericOperator::Sub, seven, two),
            PValue::I8(9)
        )
    );
    assert!(rt;
        is(
            checked_binary(NumericOperator::RSub, seven, two),
            PValue::I8(-9)
        )
    );
    assert!(rt;
        is(
            checked_binary(NumericOperator::Mul, seven, two),
            PValue::I8(-14)
        )
    );
}

#[test]
fn operators_on_eight_bytes(rt: HostRuntime) {
    let most = PValue::U64(u64::MAX);
    let one = PValue::U64(1);
    assert_eq!(rt; checked_binary(NumericOperator::Mul, most, most), None);
    assert_eq!(rt; checked_binary(NumericOperator::Sub, one, most), None);
    assert!(rt;
        is(
            checked_binary(NumericOperator::Mul, most, one),
            PValue::U64(u64::MAX)
        )
    );
}

#[test]
fn decimals_at_other_scales(rt: HostRuntime) {
    assert_eq!(rt; rescale(25, 1, 2), Some(250));
    assert_eq!(rt; rescale(25, 1, 0), None);
    assert_eq!(rt; rescale(-250, 2, 1), Some(-25));
    assert_eq!(rt; rescale(0, -128, 76), Some(0));
    assert_eq!(rt; rescale(0, 76, -128), Some(0));
    assert_eq!(rt; rescale(1, -128, 76), None);
    assert_eq!(rt; rescale(1, 76, -128), None);
    assert_eq!(rt;
        rescale(1, 0, 38),
        Some(100_000_000_000_000_000_000_000_000_000_000_000_000)
    );
    assert_eq!(rt; rescale(1, 0, 39), None);
}

#[test]
fn decimals_as_whole_numbers(rt: HostRuntime) {
    assert_eq!(rt; to_whole(-5, 1, PType::U8), None);
    assert_eq!(rt; to_whole(2559, 1, PType::U8), None);
    assert_eq!(rt; to_whole(-1285, 1, PType::I8), None);
    assert_eq!(rt; to_whole(3, -3, PType::U8), None);
    assert!(rt; is(to_whole(2550, 1, PType::U8), PValue::U8(255)));
    assert!(rt; is(to_whole(-1280, 1, PType::I8), PValue::I8(-128)));
    assert!(rt; is(to_whole(25, 1, PType::I8), PValue::I8(2)));
    assert!(rt; is(to_whole(-25, 1, PType::I8), PValue::I8(-2)));
    assert!(rt; is(to_whole(3, -2, PType::U16), PValue::U16(300)));
    assert!(rt; is(to_whole(5, 76, PType::U8), PValue::U8(0)));
}
