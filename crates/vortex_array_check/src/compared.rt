//! Rows that are compared with a scalar.

ghost use Rattle.std.specs.Prelude.{◌≡◌, ◌<◌};

use crate::makers::{Kind, NOT, made};
use std::alloc::Global;
use std::marker::Brand;
use std::sync::ledger::{Blank, Ledger};
use vortex_array::{Array, ArrayError, Compare};
use vortex_scalar::Scalar;
use vortex_steps::Steps;
use vortex_value::Operator;

/// A kind of array, a row, what it is compared to (row by row, or a truth value), and the letter of
/// the answer: t, f, n of null, or the number of the refusal.
type Row = (Kind, usize, Operator, Option<usize>, u8);

const ROWS: [Row; 9] = [
    (Kind::Bytes, 0, Operator::Lt, Some(1), b't'),
    (Kind::Masked, 0, Operator::NotEq, Some(1), b'n'),
    (Kind::Words, 3, Operator::Lte, Some(0), b'f'),
    (
        Kind::Nulls(4_294_967_295),
        4_294_967_294,
        Operator::Eq,
        Some(0),
        b'n',
    ),
    (
        Kind::Sevens(4_294_967_295),
        4_294_967_294,
        Operator::Gte,
        Some(0),
        b't',
    ),
    (Kind::Nested, 3, Operator::Gt, Some(0), b't'),
    (Kind::Pairs, 1, Operator::Eq, Some(0), b'n'),
    (Kind::Records, 2, Operator::Gt, Some(0), b't'),
    (Kind::Bytes, 0, Operator::Eq, None, 2),
];

/// What the rows are compared to, over a ledger of their own.
fn counted<L: Ledger>(
    alloc: Global,
    array: &Array,
    scalar: &Scalar,
    operator: Operator,
    blank: Blank,
) -> Result<Array, ArrayError>
    requires name { blank.name ≡ L.name }
    requires parts { blank.parts ≡ L.parts }
    requires some { 0 < blank.parts }
{
    let mut steps = Steps::<L>::new(blank);
    array.compare(alloc, scalar, operator, &mut steps)
}

/// The letter of a row of truth values.
fn letter(alloc: Global, array: &Array, i: usize) -> u8 {
    if i >= array.len() {
        return b'?';
    }
    let Ok(scalar) = array.scalar_at(alloc, i) else {
        return b'?';
    };
    if scalar.is_null() {
        return b'n';
    }
    if scalar == Scalar::bool(true, NOT) {
        return b't';
    }
    b'f'
}

/// The scalar at a place, or the truth value.
fn other(alloc: Global, array: &Array, j: Option<usize>) -> Option<Scalar> {
    let Some(j) = j else {
        return Some(Scalar::bool(true, NOT));
    };
    if j >= array.len() {
        return None;
    }
    array.scalar_at(alloc, j).ok()
}

fn outcome(alloc: Global, row: Row) -> Option<u8> {
    let (kind, i, operator, j, _) = row;
    let array = made(alloc, kind)?;
    let scalar = other(alloc, &array, j)?;
    match counted::<Brand>(alloc, &array, &scalar, operator, Blank::new(1)) {
        Ok(array) => Some(letter(alloc, &array, i)),
        Err(error) => Some(error.number()),
    }
}

/// The first of these whose answer is another.
fn first_wrong(alloc: Global, rows: &[Row]) -> Option<usize> {
    for i in 0..rows.len() {
        if outcome(alloc, rows[i]) != Some(rows[i].4) {
            return Some(i);
        }
    }
    None
}

#[test]
fn rows_are_compared(rt: HostRuntime) {
    let alloc = rt.alloc();
    assert_eq!(rt; first_wrong(alloc, &ROWS), None);
}
