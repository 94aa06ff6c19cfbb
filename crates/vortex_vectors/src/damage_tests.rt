use crate::plain_reader::expectation_of;
use crate::worked_tests::{STEADY, TYPE, outcome_of, patched, stream};
use std::alloc::{AllocError, Global};
use std::test::Fail;

// The message of an array of the rows 1 and 2 in a spelling that is not written, but read.
const UNUSUAL: [u8; 207] = [
    // length of the header, 85
    0x55, 0x00, 0x00, 0x00,
    // root place 4
    0x04, 0x00, 0x00, 0x00,
    // s -17; kind 1; body size 118; table 24 further on
    0xef, 0xff, 0xff, 0xff, 0x01, 0x76, 0x00, 0x00, 0x00, 0x00, 0x00, 0x00, 0x00, 0x18, 0x00, 0x00,
    0x00,
    // vtable behind its table: size 12, inline 17; version absent, kind at 4, table at 13, body
    // size at 5
    0x0c, 0x00, 0x11, 0x00, 0x00, 0x00, 0x04, 0x00, 0x0d, 0x00, 0x05, 0x00,
    // vtable: size 8, inline 12; row count at 4, names at 8
    0x08, 0x00, 0x0c, 0x00, 0x04, 0x00, 0x08, 0x00,
    // s 8; row count 2; names 4 further on
    0x08, 0x00, 0x00, 0x00, 0x02, 0x00, 0x00, 0x00, 0x04, 0x00, 0x00, 0x00,
    // two names, 8 and 4 further on
    0x02, 0x00, 0x00, 0x00, 0x08, 0x00, 0x00, 0x00, 0x04, 0x00, 0x00, 0x00,
    // 16 bytes
    0x10, 0x00, 0x00, 0x00, 0x76, 0x6f, 0x72, 0x74, 0x65, 0x78, 0x2e, 0x70, 0x72, 0x69, 0x6d, 0x69,
    0x74, 0x69, 0x76, 0x65,
    // region: padding 1, a buffer of 3 bytes, padding 2, two rows, a buffer of one byte
    0x09, 0x09, 0x09, 0x09, 0x09, 0x09, 0x01, 0x00, 0x00, 0x00, 0x00, 0x00, 0x00, 0x00, 0x02, 0x00,
    0x00, 0x00, 0x00, 0x00, 0x00, 0x00, 0x09,
    // root place 12
    0x0c, 0x00, 0x00, 0x00,
    // vtable: size 8, inline 12; node at 4, descriptors at 8
    0x08, 0x00, 0x0c, 0x00, 0x04, 0x00, 0x08, 0x00,
    // s 8; node 20, descriptors 43 further on
    0x08, 0x00, 0x00, 0x00, 0x14, 0x00, 0x00, 0x00, 0x2b, 0x00, 0x00, 0x00,
    // vtable of a node: size 12, inline 14; encoding at 12, metadata at 8, children absent, buffers
    // at 4
    0x0c, 0x00, 0x0e, 0x00, 0x0c, 0x00, 0x08, 0x00, 0x00, 0x00, 0x04, 0x00,
    // s 12; buffers 10, metadata 14 further on; encoding 1
    0x0c, 0x00, 0x00, 0x00, 0x0a, 0x00, 0x00, 0x00, 0x0e, 0x00, 0x00, 0x00, 0x01, 0x00,
    // one buffer, of descriptor 1
    0x01, 0x00, 0x00, 0x00, 0x01, 0x00, 0x00, 0x00,
    // one byte of metadata
    0x01, 0x00, 0x00, 0x00, 0xff,
    // three descriptors: padding 1, exponent 7, length 3; padding 2, length 16; length 1
    0x03, 0x00, 0x00, 0x00, 0x01, 0x00, 0x07, 0x00, 0x03, 0x00, 0x00, 0x00, 0x02, 0x00, 0x00, 0x00,
    0x10, 0x00, 0x00, 0x00, 0x00, 0x00, 0x00, 0x00, 0x01, 0x00, 0x00, 0x00,
    // length of the flat buffer, 91
    0x5b, 0x00, 0x00, 0x00,
];

// Whether the program does with a stream what the plain reader says: the status, the output and the
// note.
fn alike(alloc: Global, input: &[u8]) -> Result<bool, AllocError> {
    let got = outcome_of(alloc, &["select", ".", "ge", "i64:2"], input, &STEADY)?;
    let want = expectation_of(alloc, input)?;
    Ok(
        got.status == want.status
            && got.output.as_slice() == want.output.as_slice()
            && got.note.as_slice() == want.note.as_bytes(),
    )
}

fn values_beside(old: u8) -> [u8; 8] {
    let (more, less) = (old.wrapping_add(4), old.wrapping_sub(1));
    [0, 1, 4, 255, old ^ 1, old ^ 128, more, less]
}

// The first other value of the byte at a place with which the stream is not done alike.
fn first_value(alloc: Global, whole: &[u8], place: usize) -> Result<Option<u8>, AllocError> {
    let Some(old) = whole.get(place) else {
        return Ok(None);
    };
    for value in values_beside(*old) {
        if !alike(alloc, &patched(alloc, whole, place, &[value])?)? {
            return Ok(Some(value));
        }
    }
    Ok(None)
}

// What is not done alike first: a prefix of so many bytes, or the byte at a place with another
// value.
fn first_difference(
    alloc: Global,
    whole: &[u8],
) -> Result<Option<(usize, Option<u8>)>, AllocError> {
    for end in 0..=whole.len() {
        if !alike(alloc, &whole[..end])? {
            return Ok(Some((end, None)));
        }
    }
    for place in 0..whole.len() {
        if let Some(value) = first_value(alloc, whole, place)? {
            return Ok(Some((place, Some(value))));
        }
    }
    Ok(None)
}

#[test]
fn damaged_streams_are_done_as_the_plain_reader_says(rt: HostRuntime) -> Result<(), Fail> {
    let alloc = rt.alloc();
    let usual = stream(alloc, &[&[1, 2, 3], &[4]])?;
    let mut unusual = TYPE.to_vec(alloc)?;
    unusual.extend_from_slice(&UNUSUAL)?;
    for (whole, note) in [
        (usual.as_slice(), "arrays 2, read 4, kept 3\n"),
        (unusual.as_slice(), "arrays 1, read 2, kept 1\n"),
    ] {
        assert_eq!(rt; expectation_of(alloc, whole)?.note.as_str(), note);
        assert_eq!(rt;
            first_difference(alloc, whole)?,
            None,
            "in the stream of {note:?}"
        );
    }
    Ok(())
}
