//! Texts and bytes compared with one of them, in a loop of their own.

ghost use Rattle.std.specs.Prelude.{◌≡◌, ◌+◌, ◌≤◌, ◌<◌, length, map, IfOk, IfSome, IsOkUnless, IsTrue};
ghost use Rattle.std.specs.List.{list_any};
ghost use Rattle.vortex_terms.specs.FromColumns.{masked};
ghost use Rattle.vortex_terms.specs.Row.{bytes_row};
ghost use Rattle.vortex_leaves.specs.Texts.{text_pieces};
ghost use Rattle.vortex_array_compare.specs.inner.ComparedRows.{row_in, row_truth, row_truths};

use std::alloc::Global;
use std::sync::ledger::Ledger;
use vortex_array_data::{ArrayError, is_unmasked};
use vortex_leaves::Texts;
use vortex_mask::{Mask, MaskBuilder};
use vortex_steps::Steps;
use vortex_value::Operator;

/// Whether piece `i` is not null and the relation holds of it and the bytes.
fn text_truth<L: Ledger>(
    texts: &Texts,
    validity: &Option<Mask>,
    i: usize,
    value: &[u8],
    operator: Operator,
    steps: &mut Steps<L>,
) -> bool
    requires place { i < length (text_pieces texts.now) }
    requires mask { IfSome validity.now (λ m. i < length m) }
    ensures truth { result ≡ row_truth operator (bytes_row value.now)
        (row_in (masked validity.now (map bytes_row (text_pieces texts.now))) i) }
    ensures rise { steps.old ≤ steps.new }
    ensures most { steps.new ≤ steps.old + 1 }
    ensures least { IsTrue result → steps.old < steps.new }
{
    if !is_unmasked(validity, i) {
        return false;
    }
    operator.holds(texts.piece(i).cmp(value), steps)
}

/// The same of each piece.
pub(crate) fn text_truths<L: Ledger>(
    alloc: Global,
    texts: &Texts,
    validity: &Option<Mask>,
    value: &[u8],
    operator: Operator,
    steps: &mut Steps<L>,
) -> Result<Mask, ArrayError>
    requires mask { IfSome validity.now (λ m. length m ≡ length (text_pieces texts.now)) }
    requires long { length (masked validity.now (map bytes_row (text_pieces texts.now)))
        ≡ length (text_pieces texts.now) }
    ensures truths { IfOk result (λ m. m ≡ row_truths operator (bytes_row value.now)
        (masked validity.now (map bytes_row (text_pieces texts.now)))) }
    ensures memory { IsOkUnless result ArrayError.OutOfMemory }
    ensures rise { steps.old ≤ steps.new }
    ensures most { steps.new ≤ steps.old + length (text_pieces texts.now) }
    ensures least { IfOk result (λ m. IsTrue (list_any (λ b. b) m) → steps.old < steps.new) }
{
    let count = texts.len();
    let Ok(mut truths) = MaskBuilder::with_capacity(alloc, count) else {
        return Err(ArrayError::OutOfMemory);
    };
    for i in 0..count {
        let truth = text_truth(texts, validity, i, value, operator, steps);
        let Ok(()) = truths.push(truth) else {
            return Err(ArrayError::OutOfMemory);
        };
    }
    match truths.finish() {
        Ok(truths) => Ok(truths),
        Err(_) => Err(ArrayError::OutOfMemory),
    }
}
