use super::*;
use std::alloc::{AllocError, Global};
use std::test::*;

fn is_bytes(bound: Result<Option<Vec<u8>>, AllocError>, wanted: Option<&[u8]>) -> bool {
    match (bound, wanted) {
        (Ok(Some(bound)), Some(wanted)) => bound.as_slice() == wanted,
        (Ok(None), None) => true,
        _ => false,
    }
}

fn is_text(bound: Result<Option<String>, AllocError>, wanted: Option<&str>) -> bool {
    match (bound, wanted) {
        (Ok(Some(bound)), Some(wanted)) => bound.as_str() == wanted,
        (Ok(None), None) => true,
        _ => false,
    }
}

/// Whether these are the bounds of the bytes.
fn bytes_lie(alloc: Global, bytes: &[u8], n: usize, lower: &[u8], upper: Option<&[u8]>) -> bool {
    lower_bytes(bytes, n) == lower && is_bytes(upper_bytes(alloc, bytes, n), upper)
}

/// Whether these are the bounds of the text.
fn text_lies(alloc: Global, text: &str, n: usize, lower: &str, upper: Option<&str>) -> bool {
    lower_text(text, n) == lower && is_text(upper_text(alloc, text, n), upper)
}

#[test]
fn bounds_of_bytes_are_these(rt: HostRuntime) -> Result<(), Fail> {
    let alloc = rt.alloc();
    assert!(rt; bytes_lie(alloc, b"abc", 2, b"ab", Some(b"ac")));
    assert!(rt; bytes_lie(alloc, b"abc", 3, b"abc", Some(b"abc")));
    assert!(rt;
        bytes_lie(
            alloc,
            &[1, 255, 255, 5],
            3,
            &[1, 255, 255],
            Some(&[2, 0, 0])
        )
    );
    assert!(rt; bytes_lie(alloc, &[255, 255, 255], 2, &[255, 255], None));
    assert!(rt; bytes_lie(alloc, b"a", 0, b"", None));
    Ok(())
}

#[test]
fn bounds_of_texts_are_these(rt: HostRuntime) -> Result<(), Fail> {
    let alloc = rt.alloc();
    assert!(rt; text_lies(alloc, "abc", 2, "ab", Some("ac")));
    assert!(rt; text_lies(alloc, "é", 2, "é", Some("é")));
    assert!(rt; text_lies(alloc, "é", 1, "", None));
    assert!(rt; text_lies(alloc, "\u{7f}\u{7f}", 1, "\u{7f}", None));
    assert!(rt; text_lies(alloc, "a\u{d7ff}x", 4, "a\u{d7ff}", Some("b")));
    Ok(())
}
