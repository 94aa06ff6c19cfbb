//! The relations between two values.
ghost use Rattle.std.specs.Prelude.{◌≡◌, ◌+◌};
ghost use Rattle.vortex_value.specs.Operator.{bears};

use std::cmp::Ordering;
use std::sync::ledger::Ledger;
use vortex_steps::Steps;

/// A relation between two values that have an order.
#[derive(Clone, Copy, Debug, PartialEq, Eq)]
pub enum Operator {
    Eq,
    NotEq,
    Lt,
    Lte,
    Gt,
    Gte,
}

impl Operator {
    /// Whether two values in this order stand in the relation. It is one step.
    pub fn holds<L: Ledger>(self, order: Ordering, steps: &mut Steps<L>) -> bool
        ensures answer { result ≡ bears self order }
        ensures step { steps.new ≡ steps.old + 1 }
    {
        steps.tick();
        match self {
            Operator::Eq => order.is_eq(),
            Operator::NotEq => order.is_ne(),
            Operator::Lt => order.is_lt(),
            Operator::Lte => order.is_le(),
            Operator::Gt => order.is_gt(),
            Operator::Gte => order.is_ge(),
        }
    }
}
