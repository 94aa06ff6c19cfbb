//! What the rows of arrays are printed as, and what is done to them.

use crate::makers::{Kind, made, mask};
use std::alloc::Global;
use vortex_array::Array;

/// What is done to an array before its rows are printed.
#[derive(Clone, Copy)]
pub(crate) enum Act {
    Nothing,
    Take([u32; 3]),
    /// Those at which the text has a 1.
    Filter(&'static str),
    Slice(usize, usize),
    /// A field of structs.
    Field(usize),
    /// The storage of extensions.
    Storage,
}

/// The array with a place behind it.
pub(crate) type Row = (Kind, Act, &'static str);

fn filtered(alloc: Global, array: &Array, digits: &str) -> Option<Array> {
    let mask = mask(alloc, digits)?;
    if mask.len() != array.len() {
        return None;
    }
    array.filter(alloc, &mask).ok()
}

fn taken(alloc: Global, array: &Array, places: [u32; 3]) -> Option<Array> {
    let n = array.len();
    let [a, b, c] = places;
    if a as usize >= n || b as usize >= n || c as usize >= n {
        return None;
    }
    array.take(alloc, &[a, b, c]).ok()
}

fn sliced(alloc: Global, array: &Array, from: usize, to: usize) -> Option<Array> {
    if from > to || to > array.len() {
        return None;
    }
    array.slice(alloc, from, to).ok()
}

/// The rows, each with a semicolon behind it.
fn printed(alloc: Global, array: &Array) -> Option<String> {
    let mut text = String::new(alloc);
    for i in 0..array.len() {
        let scalar = array.scalar_at(alloc, i).ok()?;
        let row = format!(in alloc; "{};", scalar.value()).ok()?;
        text.push_str(row.as_str()).ok()?;
    }
    Some(text)
}

/// Whether the rows are printed so.
pub(crate) fn prints(alloc: Global, array: &Array, want: &str) -> bool {
    match printed(alloc, array) {
        Some(text) => text.as_str() == want,
        None => false,
    }
}

fn lent(alloc: Global, array: Option<&Array>) -> Option<String> {
    printed(alloc, array?)
}

fn owned(alloc: Global, array: Option<Array>) -> Option<String> {
    printed(alloc, &array?)
}

fn acted(alloc: Global, array: &Array, act: Act) -> Option<String> {
    match act {
        Act::Nothing => printed(alloc, array),
        Act::Take(places) => owned(alloc, taken(alloc, array, places)),
        Act::Filter(digits) => owned(alloc, filtered(alloc, array, digits)),
        Act::Slice(from, to) => owned(alloc, sliced(alloc, array, from, to)),
        Act::Field(i) => lent(alloc, array.struct_field_opt(i)),
        Act::Storage => lent(alloc, array.ext_storage_opt()),
    }
}

/// Whether the rows are printed so.
fn reads(alloc: Global, row: Row) -> bool {
    let (kind, act, want) = row;
    let Some(array) = made(alloc, kind) else {
        return false;
    };
    match acted(alloc, &array, act) {
        Some(text) => text.as_str() == want,
        None => false,
    }
}

/// The first of these that is not so.
pub(crate) fn first_wrong(alloc: Global, rows: &[Row]) -> Option<usize> {
    for i in 0..rows.len() {
        if !reads(alloc, rows[i]) {
            return Some(i);
        }
    }
    None
}
