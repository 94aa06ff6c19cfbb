//! Numbers compared with one number, in a loop of their own.

ghost use Rattle.std.specs.Prelude.{◌≡◌, ◌+◌, ◌≤◌, ◌<◌, length, IfOk, IfSome, IsOkUnless, IsTrue};
ghost use Rattle.std.specs.List.{list_any};
ghost use Rattle.vortex_terms.specs.FromColumns.{masked};
ghost use Rattle.vortex_terms.specs.Row.{whole_row};
ghost use Rattle.vortex_leaves.specs.Numbers.{number_rows};
ghost use Rattle.vortex_array_compare.specs.inner.ComparedRows.{row_in, row_truth, row_truths};

use std::alloc::Global;
use std::sync::ledger::Ledger;
use vortex_array_data::{ArrayError, is_unmasked};
use vortex_leaves::Numbers;
use vortex_mask::{Mask, MaskBuilder};
use vortex_steps::Steps;
use vortex_value::Operator;

/// Whether number `i` is not null and the relation holds of it and the value.
fn number_truth<L: Ledger>(
    numbers: &Numbers,
    validity: &Option<Mask>,
    i: usize,
    value: i128,
    operator: Operator,
    steps: &mut Steps<L>,
) -> bool
    requires place { i < numbers.now.count }
    requires mask { IfSome validity.now (λ m. i < length m) }
    ensures truth { result ≡ row_truth operator (whole_row value)
        (row_in (masked validity.now (number_rows numbers.now)) i) }
    ensures rise { steps.old ≤ steps.new }
    ensures most { steps.new ≤ steps.old + 1 }
    ensures least { IsTrue result → steps.old < steps.new }
{
    if !is_unmasked(validity, i) {
        return false;
    }
    operator.holds(numbers.number(i).cmp(&value), steps)
}

/// The same of each number.
pub(crate) fn number_truths<L: Ledger>(
    alloc: Global,
    numbers: &Numbers,
    validity: &Option<Mask>,
    value: i128,
    operator: Operator,
    steps: &mut Steps<L>,
) -> Result<Mask, ArrayError>
    requires mask { IfSome validity.now (λ m. length m ≡ numbers.now.count) }
    requires long { length (masked validity.now (number_rows numbers.now)) ≡ numbers.now.count }
    ensures truths { IfOk result (λ m. m ≡ row_truths operator (whole_row value)
        (masked validity.now (number_rows numbers.now))) }
    ensures memory { IsOkUnless result ArrayError.OutOfMemory }
    ensures rise { steps.old ≤ steps.new }
    ensures most { steps.new ≤ steps.old + numbers.now.count }
    ensures least { IfOk result (λ m. IsTrue (list_any (λ b. b) m) → steps.old < steps.new) }
{
    let count = numbers.len();
    let Ok(mut truths) = MaskBuilder::with_capacity(alloc, count) else {
        return Err(ArrayError::OutOfMemory);
    };
    for i in 0..count {
        let truth = number_truth(numbers, validity, i, value, operator, steps);
        let Ok(()) = truths.push(truth) else {
            return Err(ArrayError::OutOfMemory);
        };
    }
    match truths.finish() {
        Ok(truths) => Ok(truths),
        Err(_) => Err(ArrayError::OutOfMemory),
    }
}
