//! One happy path of each call.
ghost use Rattle.std.specs.Prelude.{◌<◌, length};

use crate::{Mask, MaskBuilder, MaskError};
use bytes::Bytes;
use std::alloc::{AllocError, AllocFailed, Global};
use std::test::Fail;

fn error_from<C: Into<MaskError>>(cause: C) -> MaskError {
    cause.into()
}

/// Whether the mask holds these truth values.
fn holds(mask: &Mask, wanted: &[bool]) -> bool {
    if mask.len() != wanted.len() {
        return false;
    }
    for (place, value) in wanted.iter().enumerate() {
        if mask.value(place) != *value {
            return false;
        }
    }
    true
}

fn is(made: Result<Mask, MaskError>, wanted: &[bool]) -> bool {
    match made {
        Ok(mask) => holds(&mask, wanted),
        Err(_) => false,
    }
}

/// What stands in bytes, in a part of it, and how many are true.
fn reads(alloc: Global, bytes: &[u8], len: usize, from: usize, part: &[bool], ones: usize) -> bool {
    let Ok(bytes) = Bytes::copy_from_slice(alloc, bytes) else {
        return false;
    };
    let Some(mask) = Mask::from_bits(bytes, len) else {
        return false;
    };
    if from > mask.len() {
        return false;
    }
    mask.true_count() == ones && is(mask.slice(from, mask.len()), part)
}

fn is_refused(alloc: Global, bytes: &[u8], len: usize) -> bool {
    match Bytes::copy_from_slice(alloc, bytes) {
        Ok(bytes) => Mask::from_bits(bytes, len).is_none(),
        Err(_) => false,
    }
}

/// The bytes of a mask, and its places of true.
fn lies(alloc: Global, values: &[bool], bytes: &[u8], places: &[usize]) -> Result<bool, MaskError> {
    let mask = Mask::from_bools(alloc, values)?;
    let laid = mask.to_bytes(alloc)?;
    let found = mask.indices(alloc)?;
    Ok(laid.as_slice() == bytes && found.as_slice() == places)
}

/// What is kept of a mask by another, and where both are true.
fn selects(mask: &Mask, keep: &Mask, alloc: Global, kept: &[bool], both: &[bool]) -> bool {
    if mask.len() != keep.len() {
        return false;
    }
    is(mask.filter(alloc, keep), kept) && is(mask.and(alloc, keep), both)
}

fn select(
    alloc: Global,
    values: &[bool],
    keep: &[bool],
    kept: &[bool],
    both: &[bool],
) -> Result<bool, MaskError> {
    let mask = Mask::from_bools(alloc, values)?;
    let keep = Mask::from_bools(alloc, keep)?;
    Ok(selects(&mask, &keep, alloc, kept, both))
}

fn all_alike(mask: &Mask, every: bool) -> bool {
    mask.all_true() == every && mask.all_false() != every && is(mask.try_clone(), &[every; 3])
}

fn builds(alloc: Global, value: bool) -> Result<bool, MaskError> {
    let mut builder = MaskBuilder::new(alloc);
    builder.push(value)?;
    Ok(is(builder.finish(), &[value]))
}

fn picks(
    alloc: Global,
    values: &[bool],
    first: u32,
    second: u32,
    wanted: &[bool],
) -> Result<bool, MaskError>
    requires first { first < length values.now }
    requires second { second < length values.now }
{
    let mask = Mask::from_bools(alloc, values)?;
    Ok(is(mask.take(alloc, &[first, second]), wanted))
}

#[test]
fn masks_in_bytes(rt: HostRuntime) -> Result<(), Fail> {
    let alloc = rt.alloc();
    let last = [false, true];
    assert!(rt; reads(alloc, &[5, 2], 10, 8, &last, 3));
    assert!(rt; reads(alloc, &[255, 254], 9, 7, &[true, false], 8));
    assert!(rt; reads(alloc, &[], 0, 0, &[], 0));
    assert!(rt; is_refused(alloc, &[255], 9));
    Ok(())
}

#[test]
fn masks_of_values(rt: HostRuntime) -> Result<(), Fail> {
    let alloc = rt.alloc();
    let nine = [false, false, false, false, false, false, false, true, true];
    assert_eq!(rt; lies(alloc, &nine, &[128, 1], &[7, 8]), Ok(true));
    assert_eq!(rt; lies(alloc, &[], &[], &[]), Ok(true));
    assert_eq!(rt; builds(alloc, true), Ok(true));
    assert!(rt; all_alike(&Mask::new_true(3), true));
    assert!(rt; all_alike(&Mask::new_false(3), false));
    assert!(rt; Mask::new_true(0).is_empty());
    Ok(())
}

#[test]
fn parts_of_masks(rt: HostRuntime) -> Result<(), Fail> {
    let alloc = rt.alloc();
    let values = [true, false, true];
    let keep = [false, true, true];
    let kept = [false, true];
    let both = [false, false, true];
    assert_eq!(rt; picks(alloc, &values, 2, 1, &[true, false]), Ok(true));
    assert_eq!(rt; select(alloc, &values, &keep, &kept, &both), Ok(true));
    assert!(rt;
        selects(
            &Mask::new_true(2),
            &Mask::new_false(2),
            alloc,
            &[],
            &[false, false]
        )
    );
    Ok(())
}

#[test]
fn errors(rt: HostRuntime) -> Result<(), Fail> {
    let error = error_from(AllocError);
    assert_eq!(rt; error, error_from(AllocFailed { value: 7u8 }));
    assert_eq!(rt;
        format!(in rt.alloc(); "{error}")?.as_str(),
        "out of memory"
    );
    Ok(())
}
