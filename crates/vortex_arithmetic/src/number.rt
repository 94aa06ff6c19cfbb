//! The operators of arithmetic on whole numbers.
ghost use Rattle.std.specs.Prelude.{◌≡◌, ◌+ℤ◌, ◌-ℤ◌, ◌*ℤ◌, Some, None, pos, neg_ℤ};
ghost use Rattle.std.specs.Int.{w128};
ghost use Rattle.std.specs.Option.{option_map};
ghost use Rattle.vortex_number.specs.Format.{signed};
ghost use Rattle.vortex_number.specs.PType.{format_of};
ghost use Rattle.vortex_number.specs.declared.ptype.PType.TheVariants as kind;
ghost use Rattle.vortex_value.specs.PValue.{kind_of, number_of, value_of};
ghost use Rattle.vortex_arithmetic.specs.Operated.{within, quotient_of, operated, operated_within};

use vortex_value::{NumericOperator, PType, PValue};

/// The result of the operator on two values of one kind, as a value of that kind. `None` where the
/// kind does not have the result, or the divisor is 0. Quotients are rounded toward zero.
pub fn checked_binary(op: NumericOperator, a: PValue, b: PValue) -> Option<PValue>
    requires { kind_of a ≡ kind_of b }
    ensures { result ≡ option_map (value_of (kind_of a))
        (operated_within (kind_of a) op (number_of a) (number_of b)) }
{
    binary(op, a.ptype(), a.as_i128(), b.as_i128())
}

fn binary(op: NumericOperator, ptype: PType, a: i128, b: i128) -> Option<PValue>
    ensures { result ≡ option_map (value_of ptype) (operated_within ptype op a b) }
{
    value_in(ptype, exact(op, a, b)?)
}

/// Worked results of the operators. It does nothing when the program runs.
pub fn operators_are_worked()
    ensures quotient { operated_within kind.I8 NumericOperator.Div (pos 7) (neg_ℤ (pos 2))
        ≡ Some (neg_ℤ (pos 3)) }
    ensures turned { operated_within kind.I8 NumericOperator.RDiv (neg_ℤ (pos 2)) (pos 7)
        ≡ Some (neg_ℤ (pos 3)) }
    ensures difference { operated_within kind.I8 NumericOperator.Sub (pos 7) (pos 9)
        ≡ Some (neg_ℤ (pos 2)) }
    ensures turned_difference { operated_within kind.I8 NumericOperator.RSub (pos 7) (pos 9)
        ≡ Some (pos 2) }
    ensures outside { operated_within kind.I8 NumericOperator.Div (neg_ℤ (pos 128)) (neg_ℤ (pos 1))
        ≡ None }
    ensures both_above { operated NumericOperator.Div (pos 7) (pos 2) ≡ Some (pos 3) }
    ensures both_below { operated NumericOperator.Div (neg_ℤ (pos 7)) (neg_ℤ (pos 2)) ≡ Some (pos 3) }
    ensures dividend_below { operated NumericOperator.Div (neg_ℤ (pos 7)) (pos 2)
        ≡ Some (neg_ℤ (pos 3)) }
    ensures sum { operated NumericOperator.Add (pos 7) (pos 9) ≡ Some (pos 16) }
    ensures product { operated NumericOperator.Mul (pos 7) (neg_ℤ (pos 9)) ≡ Some (neg_ℤ (pos 63)) }
    ensures no_divisor { operated NumericOperator.Div (pos 7) (pos 0) ≡ None }
    ensures no_turned_divisor { operated NumericOperator.RDiv (pos 0) (pos 7) ≡ None }
{}

/// The number as a value of the kind. `None` where it is not in range.
pub fn value_in(ptype: PType, number: i128) -> Option<PValue>
    ensures { result ≡ option_map (value_of ptype) (within (format_of ptype) (Some number)) }
{
    match ptype {
        PType::U8 => u8::try_from(number).ok().map(PValue::U8),
        PType::U16 => u16::try_from(number).ok().map(PValue::U16),
        PType::U32 => u32::try_from(number).ok().map(PValue::U32),
        PType::U64 => u64::try_from(number).ok().map(PValue::U64),
        PType::I8 => i8::try_from(number).ok().map(PValue::I8),
        PType::I16 => i16::try_from(number).ok().map(PValue::I16),
        PType::I32 => i32::try_from(number).ok().map(PValue::I32),
        PType::I64 => i64::try_from(number).ok().map(PValue::I64),
    }
}

// The result, where it has a place in 128 bits.
fn exact(op: NumericOperator, a: i128, b: i128) -> Option<i128>
    ensures { result ≡ within (signed w128) (operated op a b) }
{
    match op {
        NumericOperator::Add => sum(a, b),
        NumericOperator::Sub => difference(a, b),
        NumericOperator::RSub => difference(b, a),
        NumericOperator::Mul => product(a, b),
        NumericOperator::Div => quotient(a, b),
        NumericOperator::RDiv => quotient(b, a),
    }
}

fn sum(a: i128, b: i128) -> Option<i128>
    ensures { result ≡ within (signed w128) (Some (a +ℤ b)) }
{
    a.checked_add(b)
}

fn difference(a: i128, b: i128) -> Option<i128>
    ensures { result ≡ within (signed w128) (Some (a -ℤ b)) }
{
    a.checked_sub(b)
}

pub(crate) fn product(a: i128, b: i128) -> Option<i128>
    ensures { result ≡ within (signed w128) (Some (a *ℤ b)) }
{
    a.checked_mul(b)
}

fn quotient(a: i128, b: i128) -> Option<i128>
    ensures { result ≡ within (signed w128) (quotient_of a b) }
{
    a.checked_div(b)
}
