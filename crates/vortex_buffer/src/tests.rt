//! One happy path of each call, and each generic impl through its bound.
ghost use Rattle.std.specs.Prelude.{◌≤◌};

use crate::{Alignment, BufferError, BufferString, ByteBuffer};
use std::alloc::{AllocError, AllocFailed, Global};
use std::cmp::Ordering;
use std::hash::{DefaultHasher, Hash, Hasher};
use std::test::Fail;

fn order<T: Ord>(a: &T, b: &T) -> Ordering {
    a.cmp(b)
}

fn partial_order<T: PartialOrd>(a: &T, b: &T) -> Option<Ordering> {
    a.partial_cmp(b)
}

fn same<T: Eq>(a: &T, b: &T) -> bool {
    a == b
}

fn hash_of<T: Hash>(x: &T) -> u64 {
    let mut state = DefaultHasher::new();
    x.hash(&mut state);
    state.finish()
}

fn error_from<C: Into<BufferError>>(cause: C) -> BufferError {
    cause.into()
}

fn cut_is(alloc: Global, from: usize, to: usize, want: &[u8]) -> Result<bool, BufferError>
    requires range { from ≤ to }
    requires in_bounds { to ≤ 3 }
{
    let whole = ByteBuffer::from_slice(alloc, &[1, 2, 3])?;
    let part = whole.slice(alloc, from, to)?;
    Ok(part.as_slice() == want)
}

#[test]
fn cuts(rt: HostRuntime) -> Result<(), Fail> {
    assert!(rt; cut_is(rt.alloc(), 1, 3, &[2, 3])?);
    assert!(rt; cut_is(rt.alloc(), 3, 3, &[])?);
    assert!(rt; cut_is(rt.alloc(), 0, 3, &[1, 2, 3])?);
    Ok(())
}

#[test]
fn labels(rt: HostRuntime) -> Result<(), Fail> {
    let bytes = ByteBuffer::from_vec(rt.alloc(), vec![in rt.alloc(); 1, 2]?)?;
    let bytes = bytes.with_alignment(Alignment::from_exponent(200));
    assert_eq!(rt; bytes.try_clone(rt.alloc())?.alignment().exponent(), 200);
    assert_eq!(rt; bytes.len(), 2);
    assert!(rt; ByteBuffer::empty().is_empty());
    Ok(())
}

#[test]
fn bytes_that_are_no_text(rt: HostRuntime) -> Result<(), Fail> {
    match BufferString::try_new(ByteBuffer::from_slice(rt.alloc(), &[255])?) {
        Ok(_) => assert!(rt; false),
        Err(error) => assert_eq!(rt; error, BufferError::NotUtf8),
    }
    Ok(())
}

#[test]
fn texts(rt: HostRuntime) -> Result<(), Fail> {
    let text = BufferString::try_new(ByteBuffer::from_slice(rt.alloc(), &[195, 169])?)?;
    assert_eq!(rt; text.as_str(), "é");
    assert_eq!(rt; text.try_clone(rt.alloc())?.len(), 2);
    assert!(rt; !text.is_empty());
    assert_eq!(rt; text.into_inner().as_slice(), [195, 169].as_slice());
    Ok(())
}

fn compares(alloc: Global, left: &str, right: &str, want: Ordering) -> Result<bool, BufferError> {
    let a = BufferString::from_text(alloc, left)?;
    let b = BufferString::from_text(alloc, right)?;
    let equal = want == Ordering::Equal;
    let texts = order(&a, &b) == want
        && partial_order(&a, &b) == Some(want)
        && same(&a, &b) == equal
        && (hash_of(&a) == hash_of(&b)) == equal;
    let a = a.into_inner();
    let b = b.into_inner().with_alignment(Alignment::from_exponent(9));
    let bytes = order(&a, &b) == want
        && partial_order(&a, &b) == Some(want)
        && same(&a, &b) == equal
        && (hash_of(&a) == hash_of(&b)) == equal;
    Ok(texts && bytes)
}

#[test]
fn comparisons_look_at_the_bytes(rt: HostRuntime) -> Result<(), Fail> {
    for (left, right, want) in [
        ("a", "a", Ordering::Equal),
        ("a", "b", Ordering::Less),
        ("a", "aa", Ordering::Less),
        ("b", "aa", Ordering::Greater),
    ] {
        assert!(rt;
            compares(rt.alloc(), left, right, want)?,
            "{left} and {right}"
        );
    }
    Ok(())
}

#[test]
fn errors(rt: HostRuntime) -> Result<(), Fail> {
    assert_eq!(rt; BufferError::NotUtf8.number(), 1);
    assert_eq!(rt; error_from(AllocError).number(), 2);
    assert_eq!(rt; error_from(AllocFailed { value: 7u8 }).number(), 2);
    for (error, text) in [
        (BufferError::NotUtf8, "the bytes are not UTF-8"),
        (BufferError::OutOfMemory, "out of memory"),
    ] {
        assert_eq!(rt; format!(in rt.alloc(); "{error}")?.as_str(), text);
    }
    Ok(())
}
