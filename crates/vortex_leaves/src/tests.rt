use super::*;
use crate::chunk::number_at;
use crate::offsets::are_offsets;
use crate::texts::is_text;

/// Whether 1, 1 and 3 are two and one offsets up to the end.
fn are_two(end: usize) -> bool {
    are_offsets(&[1, 0, 0, 0, 1, 0, 0, 0, 3, 0, 0, 0], 2, end)
}

#[test]
fn numbers_in_bytes(rt: HostRuntime) {
    assert_eq!(rt; number_at(NumberFormat::U16, &[1, 2, 255, 255], 2, 0), 513);
    assert_eq!(rt;
        number_at(NumberFormat::U16, &[1, 2, 255, 255], 2, 1),
        65_535
    );
    assert_eq!(rt; number_at(NumberFormat::I16, &[1, 2, 255, 255], 2, 1), -1);
    assert_eq!(rt; number_at(NumberFormat::I8, &[128], 1, 0), -128);
}

#[test]
fn offsets_in_bytes(rt: HostRuntime) {
    assert_eq!(rt; are_two(3), true);
    assert_eq!(rt; are_two(2), false);
    assert_eq!(rt; are_offsets(&[2, 0, 0, 0, 1, 0, 0, 0], 1, 9), false);
    assert_eq!(rt; are_offsets(&[0, 0, 0, 0], 0, 0), true);
    assert_eq!(rt; are_offsets(&[0, 0, 0, 0, 0], 0, 0), false);
    assert_eq!(rt; are_offsets(&[], 0, 0), false);
}

#[test]
fn texts_in_bytes(rt: HostRuntime) {
    assert_eq!(rt; is_text(&[0xC3, 0xA9]), true);
    assert_eq!(rt; is_text(&[0xC3]), false);
    assert_eq!(rt; is_text(&[b'a'; 64]), true);
    assert_eq!(rt; is_text(&[0xFF; 64]), false);
    constants_are_copies();
}
