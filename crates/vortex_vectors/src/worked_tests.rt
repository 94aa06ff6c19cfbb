ghost use Rattle.std.specs.Prelude.{◌≡◌, ◌<◌};

use std::alloc::{AllocError, Global};
use std::marker::Brand;
use std::sync::ledger::{Blank, Ledger};
use std::test::Fail;
use vortex_select::*;
use vortex_steps::Steps;
use vortex_stream::{VecSink, VecSource};

// The message of a type: Primitive I64, never null.
pub(crate) const TYPE: [u8; 116] = [
    0x40, 0x00, 0x00, 0x00, 0x18, 0x00, 0x00, 0x00, 0x00, 0x00, 0x00, 0x00, 0x0c, 0x00, 0x16, 0x00,
    0x14, 0x00, 0x15, 0x00, 0x10, 0x00, 0x08, 0x00, 0x00, 0x00, 0x00, 0x00, 0x10, 0x00, 0x00, 0x00,
    0x00, 0x00, 0x00, 0x00, 0x30, 0x00, 0x00, 0x00, 0x00, 0x00, 0x00, 0x00, 0x10, 0x00, 0x00, 0x00,
    0x00, 0x03, 0x00, 0x00, 0x04, 0x00, 0x04, 0x00, 0x00, 0x00, 0x00, 0x00, 0x08, 0x00, 0x00, 0x00,
    0x00, 0x00, 0x00, 0x00, 0x10, 0x00, 0x00, 0x00, 0x00, 0x00, 0x00, 0x00, 0x08, 0x00, 0x09, 0x00,
    0x08, 0x00, 0x04, 0x00, 0x08, 0x00, 0x00, 0x00, 0x14, 0x00, 0x00, 0x00, 0x03, 0x00, 0x00, 0x00,
    0x00, 0x00, 0x00, 0x00, 0x08, 0x00, 0x06, 0x00, 0x04, 0x00, 0x05, 0x00, 0x08, 0x00, 0x00, 0x00,
    0x07, 0x00, 0x00, 0x00,
];

// The length and the header of a primitive array, whose body size stands at 36 and number of rows
// at 64.
const HEADER: [u8; 108] = [
    0x68, 0x00, 0x00, 0x00, 0x18, 0x00, 0x00, 0x00, 0x00, 0x00, 0x00, 0x00, 0x0c, 0x00, 0x16, 0x00,
    0x14, 0x00, 0x15, 0x00, 0x10, 0x00, 0x08, 0x00, 0x00, 0x00, 0x00, 0x00, 0x10, 0x00, 0x00, 0x00,
    0x00, 0x00, 0x00, 0x00, 0x00, 0x00, 0x00, 0x00, 0x00, 0x00, 0x00, 0x00, 0x10, 0x00, 0x00, 0x00,
    0x00, 0x01, 0x00, 0x00, 0x08, 0x00, 0x0c, 0x00, 0x04, 0x00, 0x08, 0x00, 0x08, 0x00, 0x00, 0x00,
    0x00, 0x00, 0x00, 0x00, 0x08, 0x00, 0x00, 0x00, 0x00, 0x00, 0x00, 0x00, 0x01, 0x00, 0x00, 0x00,
    0x04, 0x00, 0x00, 0x00, 0x10, 0x00, 0x00, 0x00, 0x76, 0x6f, 0x72, 0x74, 0x65, 0x78, 0x2e, 0x70,
    0x72, 0x69, 0x6d, 0x69, 0x74, 0x69, 0x76, 0x65, 0x00, 0x00, 0x00, 0x00,
];

// The flat buffer of a primitive array, whose buffer's length stands at 104, and its own length.
const FLAT: [u8; 116] = [
    0x10, 0x00, 0x00, 0x00, 0x00, 0x00, 0x00, 0x00, 0x08, 0x00, 0x0c, 0x00, 0x04, 0x00, 0x08, 0x00,
    0x08, 0x00, 0x00, 0x00, 0x1c, 0x00, 0x00, 0x00, 0x48, 0x00, 0x00, 0x00, 0x00, 0x00, 0x00, 0x00,
    0x0c, 0x00, 0x12, 0x00, 0x10, 0x00, 0x04, 0x00, 0x08, 0x00, 0x0c, 0x00, 0x00, 0x00, 0x00, 0x00,
    0x10, 0x00, 0x00, 0x00, 0x14, 0x00, 0x00, 0x00, 0x18, 0x00, 0x00, 0x00, 0x1c, 0x00, 0x00, 0x00,
    0x00, 0x00, 0x00, 0x00, 0x00, 0x00, 0x00, 0x00, 0x00, 0x00, 0x00, 0x00, 0x00, 0x00, 0x00, 0x00,
    0x00, 0x00, 0x00, 0x00, 0x00, 0x00, 0x00, 0x00, 0x01, 0x00, 0x00, 0x00, 0x00, 0x00, 0x00, 0x00,
    0x01, 0x00, 0x00, 0x00, 0x00, 0x00, 0x00, 0x00, 0x00, 0x00, 0x00, 0x00, 0x00, 0x00, 0x00, 0x00,
    0x70, 0x00, 0x00, 0x00,
];

/// Where a test's source, sink and note are short and fail.
#[derive(Clone, Copy)]
pub(crate) struct Outside {
    read_sizes: &'static [usize],
    read_failing: &'static [u64],
    write_sizes: &'static [usize],
    write_failing: &'static [u64],
    note_sizes: &'static [usize],
    note_failing: &'static [u64],
}

pub(crate) const STEADY: Outside = Outside {
    read_sizes: &[],
    read_failing: &[],
    write_sizes: &[],
    write_failing: &[],
    note_sizes: &[],
    note_failing: &[],
};

/// What a run did.
#[derive(Drop)]
pub(crate) struct Outcome {
    pub(crate) status: u8,
    counts: (u128, u128, u128),
    pub(crate) output: Vec<u8>,
    pub(crate) note: Vec<u8>,
    reads: u128,
    ends: u64,
    flushes: (u64, u64),
}

// The bytes with some of them replaced.
pub(crate) fn patched(
    alloc: Global,
    bytes: &[u8],
    at: usize,
    piece: &[u8],
) -> Result<Vec<u8>, AllocError> {
    let mut all = Vec::new(alloc);
    for (i, byte) in bytes.iter().enumerate() {
        let inside = at <= i && i - at < piece.len();
        all.push(if inside { piece[i - at] } else { *byte })?;
    }
    Ok(all)
}

// The message of a primitive array, whose rows are bytes.
pub(crate) fn array_of(alloc: Global, rows: &[u8]) -> Result<Vec<u8>, AllocError> {
    let len = rows.len() as u64;
    let sized = patched(alloc, &HEADER, 36, &len.saturating_add(116).to_le_bytes())?;
    let count = (len / 8 % 0x1_0000_0000) as u32;
    let mut all = patched(alloc, &sized, 64, &count.to_le_bytes())?;
    all.extend_from_slice(rows)?;
    let short = (len % 0x1_0000_0000) as u32;
    all.extend_from_slice(&patched(alloc, &FLAT, 104, &short.to_le_bytes())?)?;
    Ok(all)
}

fn array(alloc: Global, rows: &[i64]) -> Result<Vec<u8>, AllocError> {
    let mut bytes = Vec::new(alloc);
    for row in rows {
        bytes.extend_from_slice(&row.to_le_bytes())?;
    }
    array_of(alloc, &bytes)
}

// A stream of primitive arrays.
pub(crate) fn stream(alloc: Global, arrays: &[&[i64]]) -> Result<Vec<u8>, AllocError> {
    let mut all = TYPE.to_vec(alloc)?;
    for rows in arrays {
        all.extend_from_slice(&array(alloc, rows)?)?;
    }
    Ok(all)
}

fn ran<L: Ledger>(
    alloc: Global,
    blank: Blank,
    words: &[&str],
    input: &[u8],
    outside: &Outside,
) -> Result<Outcome, AllocError>
    requires name { blank.name ≡ L.name }
    requires parts { blank.parts ≡ L.parts }
    requires some { 0 < blank.parts }
{
    let mut texts = Vec::new(alloc);
    for word in words {
        texts.push(String::from_str(alloc, word)?)?;
    }
    let mut source = VecSource::new(
        input.to_vec(alloc)?,
        outside.read_sizes.to_vec(alloc)?,
        outside.read_failing.to_vec(alloc)?,
    );
    let mut sink = VecSink::new(
        alloc,
        outside.write_sizes.to_vec(alloc)?,
        outside.write_failing.to_vec(alloc)?,
    );
    let mut note = VecSink::new(
        alloc,
        outside.note_sizes.to_vec(alloc)?,
        outside.note_failing.to_vec(alloc)?,
    );
    let mut steps = Steps::<L>::new(blank);
    let report = run(alloc, &texts, &mut source, &mut sink, &mut note, &mut steps);
    Ok(Outcome {
        status: report.status,
        counts: (report.counts.arrays, report.counts.read, report.counts.kept),
        output: sink.written().to_vec(alloc)?,
        note: note.written().to_vec(alloc)?,
        reads: source.counts().reads,
        ends: source.counts().ends,
        flushes: (sink.counts().flushes, note.counts().flushes),
    })
}

pub(crate) fn outcome_of(
    alloc: Global,
    words: &[&str],
    input: &[u8],
    outside: &Outside,
) -> Result<Outcome, AllocError> {
    ran::<Brand>(alloc, Blank::new(1), words, input, outside)
}

#[test]
fn words_that_ask_for_nothing_are_refused_unread(rt: HostRuntime) -> Result<(), Fail> {
    let table: [(&[&str], u8); 14] = [
        (&["select", ".", "ge", "i64:2"], 0),
        (&["select", ".", "ge", "i64:007"], 0),
        (&["select", ".", "ge", "i64:-9223372036854775808"], 0),
        (&["select", ".", "ge", "i64:-0"], 0),
        (&[], 2),
        (&["select", ".", "ge", "i64:2", "x"], 2),
        (&["select", "a", "ge", "i64:2"], 2),
        (&["scan", ".", "ge", "i64:2"], 2),
        (&["select", ".", "GE", "i64:2"], 2),
        (&["select", ".", "ge", "i64:"], 2),
        (&["select", ".", "ge", "i64:+1"], 2),
        (&["select", ".", "ge", "i64:-"], 2),
        (&["select", ".", "ge", "i64:9223372036854775808"], 2),
        (&["select", ".", "ge", "i32:2"], 2),
    ];
    for (words, status) in table {
        let got = outcome_of(rt.alloc(), words, &TYPE, &STEADY)?;
        assert_eq!(rt; got.status, status, "at {words:?}");
        if status == 2 {
            assert_eq!(rt; got.reads, 0);
            assert_eq!(rt; got.output.len(), 0);
            assert_eq!(rt; got.note.as_slice(), b"error: BadWords\n".as_slice());
        }
    }
    Ok(())
}

#[test]
fn rows_are_kept_by_each_operator(rt: HostRuntime) -> Result<(), Fail> {
    const LEAST: i64 = i64::MIN;
    const MOST: i64 = i64::MAX;
    let all: [&[i64]; 3] = [&[LEAST, -1, 0], &[], &[1, 2, MOST]];
    let table: [(&str, &str, &[&[i64]]); 9] = [
        ("eq", "i64:0", &[&[0], &[], &[]]),
        ("ne", "i64:-1", &[&[LEAST, 0], &[], &[1, 2, MOST]]),
        ("lt", "i64:1", &[&[LEAST, -1, 0], &[], &[]]),
        ("le", "i64:1", &[&[LEAST, -1, 0], &[], &[1]]),
        ("gt", "i64:1", &[&[], &[], &[2, MOST]]),
        ("ge", "i64:1", &[&[], &[], &[1, 2, MOST]]),
        ("lt", "i64:-9223372036854775808", &[&[], &[], &[]]),
        ("le", "i64:-9223372036854775808", &[&[LEAST], &[], &[]]),
        ("ge", "i64:9223372036854775807", &[&[], &[], &[MOST]]),
    ];
    let input = stream(rt.alloc(), &all)?;
    for (operator, literal, kept) in table {
        let got = outcome_of(
            rt.alloc(),
            &["select", ".", operator, literal],
            &input,
            &STEADY,
        )?;
        let want = stream(rt.alloc(), kept)?;
        assert_eq!(rt; got.status, 0, "at {operator} {literal}");
        assert_eq!(rt;
            got.output.as_slice(),
            want.as_slice(),
            "at {operator} {literal}"
        );
    }
    Ok(())
}

#[test]
fn counts_and_notes_tell_what_was_done(rt: HostRuntime) -> Result<(), Fail> {
    let one = Outside {
        read_sizes: &[1],
        ..STEADY
    };
    let words = ["select", ".", "ge", "i64:2"];
    let input = stream(rt.alloc(), &[&[1, 2, 3]])?;
    let kept = stream(rt.alloc(), &[&[2, 3]])?;
    assert_eq!(rt; (input.len(), kept.len()), (364, 356));
    for outside in [&STEADY, &one] {
        let got = outcome_of(rt.alloc(), &words, &input, outside)?;
        assert_eq!(rt; got.status, 0);
        assert_eq!(rt; got.counts, (1, 3, 2));
        assert_eq!(rt; got.output.as_slice(), kept.as_slice());
        assert_eq!(rt;
            got.note.as_slice(),
            b"arrays 1, read 3, kept 2\n".as_slice()
        );
    }
    let got = outcome_of(rt.alloc(), &words, &TYPE, &one)?;
    assert_eq!(rt; got.output.as_slice(), TYPE.as_slice());
    assert_eq!(rt;
        got.note.as_slice(),
        b"arrays 0, read 0, kept 0\n".as_slice()
    );
    Ok(())
}

#[test]
fn faults_of_the_outside_have_their_status(rt: HostRuntime) -> Result<(), Fail> {
    let words = ["select", ".", "ge", "i64:2"];
    let read = Outside {
        read_failing: &[0],
        ..STEADY
    };
    let got = outcome_of(rt.alloc(), &words, &TYPE, &read)?;
    assert_eq!(rt; (got.status, got.output.len()), (7, 0));
    assert_eq!(rt; got.note.as_slice(), b"error: ReadFault\n".as_slice());
    let write = Outside {
        write_sizes: &[5],
        write_failing: &[1],
        ..STEADY
    };
    let got = outcome_of(rt.alloc(), &words, &TYPE, &write)?;
    assert_eq!(rt; (got.status, got.output.len()), (8, 5));
    assert_eq!(rt; got.note.as_slice(), b"error: WriteFault\n".as_slice());
    // The call behind the one write is the flush.
    let flush = Outside {
        write_failing: &[1],
        ..STEADY
    };
    let got = outcome_of(rt.alloc(), &words, &TYPE, &flush)?;
    assert_eq!(rt; (got.status, got.output.len()), (8, TYPE.len()));
    Ok(())
}

#[test]
fn a_source_is_read_once_more_than_it_gives(rt: HostRuntime) -> Result<(), Fail> {
    let words = ["select", ".", "ge", "i64:2"];
    let input = stream(rt.alloc(), &[&[1, 2, 3]])?;
    let table: [(&[usize], u128); 4] = [(&[], 2), (&[1], 365), (&[100], 5), (&[364], 2)];
    for (sizes, reads) in table {
        let outside = Outside {
            read_sizes: sizes,
            ..STEADY
        };
        let got = outcome_of(rt.alloc(), &words, &input, &outside)?;
        assert_eq!(rt;
            (got.status, got.reads, got.ends),
            (0, reads, 1),
            "at {sizes:?}"
        );
    }
    Ok(())
}

// What stands on the note, and how often sink and note were flushed.
#[test]
fn a_note_that_failed_is_left_as_it_is(rt: HostRuntime) -> Result<(), Fail> {
    let words = ["select", ".", "ge", "i64:2"];
    let line = b"arrays 0, read 0, kept 0\n";
    let table: [(&[u64], usize, (u64, u64)); 5] = [
        (&[], 25, (1, 1)),
        (&[0], 0, (1, 0)),
        (&[1], 7, (1, 0)),
        (&[3], 21, (1, 0)),
        (&[4], 25, (1, 0)),
    ];
    for (failing, written, flushes) in table {
        let outside = Outside {
            note_sizes: &[7],
            note_failing: failing,
            ..STEADY
        };
        let got = outcome_of(rt.alloc(), &words, &TYPE, &outside)?;
        assert_eq!(rt; (got.status, got.flushes), (0, flushes), "at {failing:?}");
        assert_eq!(rt; got.note.as_slice(), &line[..written], "at {failing:?}");
    }
    Ok(())
}

#[test]
fn what_has_not_the_form_is_refused(rt: HostRuntime) -> Result<(), Fail> {
    let alloc = rt.alloc();
    let words = ["select", ".", "ge", "i64:2"];
    let whole = stream(alloc, &[&[1, 2], &[3]])?;
    let table: [(&str, usize, &[u8]); 11] = [
        ("ptype I32", 112, &[6]),
        ("version", 45, &[1]),
        ("kind", 46, &[2]),
        ("a child", 116 + 108 + 16 + 80, &[1]),
        ("a second buffer", 116 + 108 + 16 + 88, &[2]),
        ("an encoding outside the names", 116 + 108 + 16 + 64, &[1]),
        ("another name", 116 + 88, b"u"),
        ("more rows than bytes", 116 + 64, &[255, 255, 255, 255]),
        ("compression", 116 + 108 + 16 + 103, &[1]),
        ("a buffer of 15 bytes", 116 + 108 + 16 + 104, &[15]),
        ("a body cut short", 116 + 36, &[131]),
    ];
    for (case, at, piece) in table {
        let input = patched(alloc, &whole, at, piece)?;
        let got = outcome_of(alloc, &words, &input, &STEADY)?;
        assert_eq!(rt; got.status, 10, "at {case}");
        assert_eq!(rt; got.output.len(), 0, "at {case}");
        assert_eq!(rt;
            got.note.as_slice(),
            b"error: Unbuilt\n".as_slice(),
            "at {case}"
        );
    }
    for end in 0..whole.len() {
        let got = outcome_of(alloc, &words, &whole[..end], &STEADY)?;
        let want = if end == 116 || end == 116 + 240 {
            0
        } else {
            10
        };
        assert_eq!(rt; got.status, want, "cut at {end}");
    }
    Ok(())
}

// Whether what a run wrote is given back by a run with the same words, which keeps each row that it
// reads.
fn stays(alloc: Global, words: &[&str], input: &[u8]) -> Result<bool, AllocError> {
    let once = outcome_of(alloc, words, input, &STEADY)?;
    let again = outcome_of(alloc, words, &once.output, &STEADY)?;
    let (arrays, _, kept) = once.counts;
    Ok(
        once.status == 0
            && again.status == 0
            && again.output.as_slice() == once.output.as_slice()
            && again.counts == (arrays, kept, kept),
    )
}

#[test]
fn selecting_again_changes_nothing(rt: HostRuntime) -> Result<(), Fail> {
    let input = stream(rt.alloc(), &[&[i64::MIN, -1, 0], &[], &[1, 0, i64::MAX]])?;
    for operator in ["eq", "ne", "lt", "ge"] {
        let words = ["select", ".", operator, "i64:0"];
        assert!(rt; stays(rt.alloc(), &words, &input)?, "at {operator}");
    }
    Ok(())
}
