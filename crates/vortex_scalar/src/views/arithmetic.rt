//! Arithmetic on views of whole numbers.

ghost use Rattle.std.specs.Prelude.{◌≡◌, Some, IfSome};
ghost use Rattle.std.specs.Option.{ForSome, option_map};
ghost use Rattle.vortex_terms.specs.Row.{whole_row};
ghost use Rattle.vortex_types.specs.DTypes.{term_of};
ghost use Rattle.vortex_value.specs.PValue.{kind_of, number_of};
ghost use Rattle.vortex_value.specs.declared.numeric_operator.NumericOperator.TheVariants as ops;
ghost use Rattle.vortex_arithmetic.specs.Operated.{operated_within};
ghost use Rattle.vortex_scalar.specs.ViewRows.{or_null};
ghost use Rattle.vortex_scalar.specs.Views.{primitive_term};
ghost use Rattle.vortex_scalar.specs.Arithmetic.{nullable_one, operated_row};
ghost use Rattle.vortex_scalar.specs.Arithmetic.{AreOfOneKind, combined, CanCombine};

use super::primitive::PrimitiveScalar;
use std::ops::{Add, Sub};
use vortex_arithmetic::checked_binary;
use vortex_number::PType;
use vortex_types::DType;
use vortex_value::{NumericOperator, PValue};

impl<'a> PrimitiveScalar<'a> {
    /// The result of the operator on two numbers of one kind, and null where one of them is null.
    /// `None` where both are there and the kind does not have the result, or the divisor is 0.
    /// Quotients are rounded toward zero. The type is this one where it is nullable, and else the
    /// other.
    pub fn checked_binary_numeric(
        &self,
        other: &PrimitiveScalar<'a>,
        op: NumericOperator,
    ) -> Option<PrimitiveScalar<'a>>
        requires { AreOfOneKind (primitive_term self.now) (primitive_term other.now) }
        ensures { option_map primitive_term result
            ≡ combined op (primitive_term self.now) (primitive_term other.now) }
    {
        let pvalue = operated(op, self.ptype, self.pvalue, other.pvalue)?;
        Some(PrimitiveScalar {
            dtype: nullable_one(self.dtype, other.dtype),
            ptype: self.ptype,
            pvalue,
        })
    }

    /// The sum, as [`PrimitiveScalar::checked_binary_numeric`] has it.
    pub fn checked_add(&self, other: &PrimitiveScalar<'a>) -> Option<PrimitiveScalar<'a>>
        requires { AreOfOneKind (primitive_term self.now) (primitive_term other.now) }
        ensures { option_map primitive_term result
            ≡ combined NumericOperator.Add (primitive_term self.now) (primitive_term other.now) }
    {
        self.checked_binary_numeric(other, NumericOperator::Add)
    }

    /// The difference, as [`PrimitiveScalar::checked_binary_numeric`] has it.
    pub fn checked_sub(&self, other: &PrimitiveScalar<'a>) -> Option<PrimitiveScalar<'a>>
        requires { AreOfOneKind (primitive_term self.now) (primitive_term other.now) }
        ensures { option_map primitive_term result
            ≡ combined NumericOperator.Sub (primitive_term self.now) (primitive_term other.now) }
    {
        self.checked_binary_numeric(other, NumericOperator::Sub)
    }
}

impl<'a> Add for PrimitiveScalar<'a> {
    type Output = PrimitiveScalar<'a>;

    ghost can_add = { λ a b. CanCombine ops.Add (primitive_term a) (primitive_term b) };

    ghost add_gives = { λ a b r. Some (primitive_term r)
        ≡ combined ops.Add (primitive_term a) (primitive_term b) };

    fn add(self, rhs: PrimitiveScalar<'a>) -> PrimitiveScalar<'a> {
        self.checked_add(&rhs).unwrap()
    }
}

impl<'a> Sub for PrimitiveScalar<'a> {
    type Output = PrimitiveScalar<'a>;

    ghost can_sub = { λ a b. CanCombine ops.Sub (primitive_term a) (primitive_term b) };

    ghost sub_gives = { λ a b r. Some (primitive_term r)
        ≡ combined ops.Sub (primitive_term a) (primitive_term b) };

    fn sub(self, rhs: PrimitiveScalar<'a>) -> PrimitiveScalar<'a> {
        self.checked_sub(&rhs).unwrap()
    }
}

/// The result on two numbers of a kind that may be null.
fn operated(
    op: NumericOperator,
    ptype: PType,
    a: Option<PValue>,
    b: Option<PValue>,
) -> Option<Option<PValue>>
    requires left { ForSome a (λ v. kind_of v ≡ ptype) }
    requires right { ForSome b (λ v. kind_of v ≡ ptype) }
    ensures row { let x = or_null (λ v. whole_row (number_of v)) a in
        option_map (or_null (λ v. whole_row (number_of v))) result
        ≡ operated_row ptype op x (or_null (λ v. whole_row (number_of v)) b) }
    ensures kind { IfSome result (λ o. ForSome o (λ v. kind_of v ≡ ptype)) }
{
    match (a, b) {
        (Some(a), Some(b)) => result_of(op, ptype, a, b).map(Some),
        _ => Some(None),
    }
}

/// The result on two numbers of a kind.
fn result_of(op: NumericOperator, ptype: PType, a: PValue, b: PValue) -> Option<PValue>
    requires left { kind_of a ≡ ptype }
    requires right { kind_of b ≡ ptype }
    ensures number { option_map number_of result
        ≡ operated_within ptype op (number_of a) (number_of b) }
    ensures kind { IfSome result (λ v. kind_of v ≡ ptype) }
{
    checked_binary(op, a, b)
}

/// The first type where it is nullable, and else the second.
fn nullable_one<'a>(one: &'a DType, other: &'a DType) -> &'a DType
    ensures { term_of result.now ≡ nullable_one (term_of one.now) (term_of other.now) }
{
    if one.is_nullable() { one } else { other }
}
