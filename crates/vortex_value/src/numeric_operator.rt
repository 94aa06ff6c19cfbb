//! The operators of arithmetic.
ghost use Rattle.std.specs.Prelude.{◌≡◌, Some};
ghost use Rattle.vortex_value.specs.NumericOperator.{swapped, operator_text};

use std::fmt;

/// An operator of arithmetic. The ones with an `R` take their operands the other way round.
#[derive(Clone, Copy, Debug, PartialEq, Eq)]
pub enum NumericOperator {
    Add,
    Sub,
    RSub,
    Mul,
    Div,
    RDiv,
}

impl NumericOperator {
    /// The operator that means the same once its operands have changed places.
    pub fn swap(self) -> NumericOperator
        ensures { result ≡ swapped self }
    {
        match self {
            NumericOperator::Add => NumericOperator::Add,
            NumericOperator::Sub => NumericOperator::RSub,
            NumericOperator::RSub => NumericOperator::Sub,
            NumericOperator::Mul => NumericOperator::Mul,
            NumericOperator::Div => NumericOperator::RDiv,
            NumericOperator::RDiv => NumericOperator::Div,
        }
    }
}

impl fmt::Display for NumericOperator {
    ghost output = { λ operator. Some (operator_text operator) };

    ghost styled_output = { λ operator _. Some (operator_text operator) };

    fn fmt<W: fmt::Write>(&self, f: &mut fmt::Formatter<W>) -> fmt::Result {
        f.write_str(match self {
            NumericOperator::Add => "Add",
            NumericOperator::Sub => "Sub",
            NumericOperator::RSub => "RSub",
            NumericOperator::Mul => "Mul",
            NumericOperator::Div => "Div",
            NumericOperator::RDiv => "RDiv",
        })
    }
}
