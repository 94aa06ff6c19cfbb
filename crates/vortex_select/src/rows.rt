//! The rows of a column that are kept.

ghost use Rattle.std.specs.Prelude.{◌≡◌, ◌≤◌, ◌++◌, length, take, filter, OnOk};
ghost use Rattle.std.specs.Ordering.{int_cmp};
ghost use Rattle.vortex_value.specs.Operator.{bears};
ghost use Rattle.vortex_select.specs.inner.KeptRows.{keeps, kept_region};

use crate::words::Query;
use std::alloc::AllocError;
use std::cmp::Ordering;
use vortex_value::Operator;

/// How many rows are looked at before what is kept of them is appended.
const BLOCK: usize = 256;

/// Whether two values in this order stand in the relation, without a step.
fn bears(operator: Operator, order: Ordering) -> bool
    ensures { result ≡ bears operator order }
{
    match operator {
        Operator::Eq => order.is_eq(),
        Operator::NotEq => order.is_ne(),
        Operator::Lt => order.is_lt(),
        Operator::Lte => order.is_le(),
        Operator::Gt => order.is_gt(),
        Operator::Gte => order.is_ge(),
    }
}

/// Whether a row is kept.
fn is_kept(query: &Query, row: i64) -> bool
    ensures { result ≡ bears query.now.operator (int_cmp row query.now.constant) }
{
    bears(query.operator, row.cmp(&query.constant))
}

/// Moves the rows that are kept to the front of `block`, and tells how many they are.
fn keep(query: &Query, rows: &[[u8; 8]], block: &mut [[u8; 8]]) -> usize
    requires { length rows.now ≤ length block.old }
    ensures kept { take result block.new ≡ filter (keeps query.now) rows.now }
    ensures bound { result ≤ length rows.now }
{
    let mut count = 0;
    for row in rows {
        block[count] = *row;
        count += usize::from(is_kept(query, i64::from_le_bytes(*row)));
    }
    count
}

/// Appends the rows of 8 bytes that are kept.
pub(crate) fn push_kept(out: &mut Vec<u8>, query: &Query, rows: &[u8]) -> Result<(), AllocError>
    ensures { OnOk result (out.new.items ≡ out.old.items ++ kept_region query.now rows.now) }
{
    let (mut rest, _) = rows.as_chunks::<8>();
    let mut block = [[0u8; 8]; BLOCK];
    while !rest.is_empty() {
        let (piece, after) = rest.split_at(rest.len().min(BLOCK));
        let count = keep(query, piece, &mut block);
        out.extend_from_slice(block[..count].as_flattened())?;
        rest = after;
    }
    Ok(())
}
