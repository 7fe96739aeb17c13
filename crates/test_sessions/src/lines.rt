//! Lines, pieces and lengths.

use crate::frames::{ABSENT, AGREED, ENTRY_A, INIT, LOOKUP_A, LOOKUP_ZZ, lines_of, run_into};
use crate::row::{NOTHING, Otherwise, Row, run_bytes, run_row, run_rows};
use std::alloc::{AllocError, Global};
use std::test::Fail;

#[test]
fn empty_input(rt: HostRuntime) -> Result<(), Fail> {
    let row = Row {
        greets: false,
        ..NOTHING
    };
    run_row(&rt, rt.alloc(), &row)
}

/// Lengths below and above those of a frame, and lengths that a frame may have: then the input ends before the frame
/// does.
const LENGTHS: &[Row] = &[
    Row {
        says: "length 39",
        lines: &["27000000"],
        status: 3,
        fault: "mirrord: frame length 39 is not between 40 and 69632\n",
        ..NOTHING
    },
    Row {
        says: "length 69,633",
        lines: &["01100100"],
        status: 3,
        fault: "mirrord: frame length 69633 is not between 40 and 69632\n",
        ..NOTHING
    },
    Row {
        says: "length 0",
        lines: &["00000000"],
        status: 3,
        fault: "mirrord: frame length 0 is not between 40 and 69632\n",
        ..NOTHING
    },
    Row {
        says: "the greatest length",
        lines: &["ffffffff"],
        status: 3,
        fault: "mirrord: frame length 4294967295 is not between 40 and 69632\n",
        ..NOTHING
    },
    Row {
        says: "length 40",
        lines: &["28000000"],
        ..NOTHING
    },
    Row {
        says: "length 69,632",
        lines: &["00100100"],
        ..NOTHING
    },
    Row {
        says: "three bytes of a length",
        lines: &["270000"],
        ..NOTHING
    },
];

#[test]
fn bad_length(rt: HostRuntime) -> Result<(), Fail> {
    run_rows(&rt, rt.alloc(), LENGTHS)
}

/// What came before a bad length is answered, and what comes after it is not.
const BETWEEN_FRAMES: Row = Row {
    says: "a bad length between frames",
    lines: &[LOOKUP_ZZ, "27000000", LOOKUP_ZZ],
    status: 3,
    replies: &[ABSENT],
    fault: "mirrord: frame length 39 is not between 40 and 69632\n",
    ..NOTHING
};

#[test]
fn bad_length_between_frames(rt: HostRuntime) -> Result<(), Fail> {
    run_row(&rt, rt.alloc(), &BETWEEN_FRAMES)
}

/// If a bad length and a bad line both come next, the length is met first.
const BEFORE_A_BAD_LINE: Row = Row {
    says: "a bad length before a bad line",
    lines: &["27000000", "no digits"],
    status: 3,
    fault: "mirrord: frame length 39 is not between 40 and 69632\n",
    ..NOTHING
};

#[test]
fn bad_length_before_a_bad_line(rt: HostRuntime) -> Result<(), Fail> {
    run_row(&rt, rt.alloc(), &BEFORE_A_BAD_LINE)
}

/// The line of a frame, with a line break after that many of its bytes.
fn cut_after(alloc: Global, line: &[u8], bytes: usize) -> Result<Vec<u8>, AllocError> {
    let mut input = Vec::new(alloc);
    for (place, digit) in line.iter().enumerate() {
        if place / 2 == bytes && place % 2 == 0 {
            input.push(b'\n')?;
        }
        input.push(*digit)?;
    }
    Ok(input)
}

#[test]
fn frame_cut_anywhere(rt: HostRuntime) -> Result<(), Fail> {
    let line = lines_of(rt.alloc(), &[LOOKUP_A])?;
    for cut in 1..42usize {
        let pieces = cut_after(rt.alloc(), line.as_slice(), cut)?;
        run_bytes(&rt, rt.alloc(), pieces.as_slice(), &[ENTRY_A])?;
    }
    Ok(())
}

/// The input ends before the frame does: its last byte is missing.
const TRUNCATED: Row = Row {
    says: "a frame without its last byte",
    lines: &[
        "2a000000 01000000 0700000000000000 0100000000000000 00000000 00000000 00000000 00000000 61",
    ],
    ..NOTHING
};

#[test]
fn truncated_frame(rt: HostRuntime) -> Result<(), Fail> {
    run_row(&rt, rt.alloc(), &TRUNCATED)
}

/// LOOKUP `zz`, and no line break.
const WITHOUT_A_BREAK: Row = Row {
    says: "a last line without a line break",
    tail: b"2b0000000100000007000000000000000100000000000000000000000000000000000000000000007a7a00",
    replies: &[ABSENT],
    ..NOTHING
};

#[test]
fn last_line_without_a_break(rt: HostRuntime) -> Result<(), Fail> {
    run_row(&rt, rt.alloc(), &WITHOUT_A_BREAK)
}

/// LOOKUP `zz` in pieces, with upper-case digits and empty lines between them.
const IN_PIECES: Row = Row {
    says: "empty lines and digits of either case",
    lines: &[
        "",
        "2B000000 01000000 0700000000000000 0100000000000000 00000000 00000000 00000000 00000000",
        "",
        "7A7a00",
        "",
    ],
    replies: &[ABSENT],
    ..NOTHING
};

#[test]
fn empty_lines_and_digits_of_either_case(rt: HostRuntime) -> Result<(), Fail> {
    run_row(&rt, rt.alloc(), &IN_PIECES)
}

/// The fourth line is bad. The lines before it are served.
const BAD_LINE: Row = Row {
    says: "a bad line",
    lines: &[LOOKUP_ZZ, ""],
    status: 4,
    replies: &[ABSENT],
    fault: "mirrord: line 4 is not hexadecimal\n",
    ..NOTHING
};

/// An odd number of digits, a carriage return, a space, a prefix, bytes that are not UTF-8, and other letters.
const BAD_LINES: &[Row] = &[
    Row {
        says: "an odd number of digits",
        tail: b"2a0\n",
        ..BAD_LINE
    },
    Row {
        says: "a carriage return",
        tail: b"2a00\r\n",
        ..BAD_LINE
    },
    Row {
        says: "a space",
        tail: b"2a 00\n",
        ..BAD_LINE
    },
    Row {
        says: "a prefix",
        tail: b"0x2a\n",
        ..BAD_LINE
    },
    Row {
        says: "bytes that are no text",
        tail: b"\xff\xfe\n",
        ..BAD_LINE
    },
    Row {
        says: "letters that are no digits",
        tail: b"zz\n",
        ..BAD_LINE
    },
    Row {
        says: "a last line without a line break",
        tail: b"zz",
        ..BAD_LINE
    },
    Row {
        says: "the first line after INIT",
        lines: &["2g"],
        status: 4,
        fault: "mirrord: line 2 is not hexadecimal\n",
        ..NOTHING
    },
];

#[test]
fn lines_that_are_not_hexadecimal(rt: HostRuntime) -> Result<(), Fail> {
    run_rows(&rt, rt.alloc(), BAD_LINES)
}

/// The output has room for INIT's reply and one more: the link fails at the third.
#[test]
fn output_that_is_full(rt: HostRuntime) -> Result<(), Fail> {
    let input = lines_of(rt.alloc(), &[INIT, LOOKUP_ZZ, LOOKUP_ZZ, LOOKUP_ZZ])?;
    let mut room = [0; 201];
    let run = run_into(&rt, rt.alloc(), input.as_slice(), &mut room)?;
    let reply = lines_of(rt.alloc(), &[AGREED, ABSENT])?;
    let are_replies = room.starts_with(reply.as_slice());
    let is_fault = run.faults.as_slice() == b"mirrord: the link failed\n".as_slice();
    if run.status == 4 && are_replies && is_fault {
        return Ok(());
    }
    Err(Otherwise {
        says: "an output that is full",
        status: run.status,
        are_replies,
        is_fault,
    }
    .into())
}
