//! Short lists of answers.

use crate::scripts::compare::Row;
use backing::{Answer, Children};
use payload::{Details, Kind, Payload, Special, Time};
use std::alloc::{AllocError, Global};

/// How many answers are tried for each call.
const ANSWERS: u32 = 14;

/// How many lists of at most three of these there are.
const SHORT: u32 = 1 + ANSWERS + ANSWERS * ANSWERS + ANSWERS * ANSWERS * ANSWERS;

/// How many further answers are tried alone.
const ALONE: u32 = 4;

/// How many lists of answers there are.
pub const LISTS: u32 = SHORT + ALONE;

/// No two numbers are equal.
pub const DETAILS: Details = Details {
    ino: 0x0102030405060708,
    permissions: 0o4751,
    links: 9,
    uid: 1000,
    gid: 100,
    accessed: Time {
        seconds: 11,
        nanos: 999_999_999,
    },
    modified: Time {
        seconds: 0xffffffffffffffff,
        nanos: 22,
    },
    changed: Time {
        seconds: 33,
        nanos: 44,
    },
};

/// Something is there.
fn stands(kind: Kind, size: u64) -> Answer {
    Answer::Stat {
        kind,
        size,
        details: DETAILS,
    }
}

/// That many bytes.
fn long(alloc: Global, len: usize) -> Result<Answer, AllocError> {
    let mut bytes = Vec::with_capacity(alloc, len)?;
    bytes.resize(len, b'x')?;
    Ok(Answer::Bytes(Payload::new(bytes)))
}

/// An answer of each kind, of each shape, and with each sort of error number.
fn answer_of(alloc: Global, number: u32) -> Result<Answer, AllocError> {
    Ok(match number {
        0 => Answer::Done,
        1 => stands(Kind::File, 5),
        2 => stands(Kind::Folder, 0),
        3 => stands(Kind::Folder, 5),
        4 => Answer::Names(Children::from_vec(Vec::new(alloc))),
        5 => Answer::Bytes(Payload::new(Vec::from_slice(alloc, b"abcd")?)),
        6 => Answer::Bytes(Payload::new(Vec::from_slice(alloc, b"abcde")?)),
        7 => Answer::Wrote(2),
        8 => Answer::Wrote(3),
        9 => Answer::Fault(2),
        10 => Answer::Fault(0),
        11 => Answer::Fault(-2),
        12 => Answer::Fault(4095),
        13 => Answer::Fault(4096),
        14 => stands(Kind::Link, 5),
        15 => stands(Kind::Special(Special::Pipe), 0),
        16 => long(alloc, 4095)?,
        _ => long(alloc, 4096)?,
    })
}

/// The first answers of a row.
fn put_first(answers: &mut Vec<Answer>, alloc: Global, row: &Row<'_>) -> Result<(), AllocError> {
    for _ in 0..row.done {
        answers.push(Answer::Done)?;
    }
    for _ in 0..row.files {
        answers.push(answer_of(alloc, 1)?)?;
    }
    Ok(())
}

/// The answers of the list with that number, which is one of those with at most three.
fn put_short(answers: &mut Vec<Answer>, alloc: Global, number: u32) -> Result<(), AllocError> {
    let mut left = number;
    for _ in 0..3 {
        if left > 0 {
            let last = left - 1;
            answers.push(answer_of(alloc, last % ANSWERS)?)?;
            left = last / ANSWERS;
        }
    }
    Ok(())
}

/// The answers of the list with that number.
fn put_listed(answers: &mut Vec<Answer>, alloc: Global, number: u32) -> Result<(), AllocError> {
    if number >= SHORT {
        answers.push(answer_of(alloc, number - SHORT + ANSWERS)?)?;
        return Ok(());
    }
    put_short(answers, alloc, number)
}

/// The list of answers with that number, after the row's first ones: the first list is empty, then come those with one
/// answer, and so on. The last ones have one further answer each.
pub fn answers_of(alloc: Global, row: &Row<'_>, number: u32) -> Result<Vec<Answer>, AllocError> {
    let mut answers = Vec::new(alloc);
    put_first(&mut answers, alloc, row)?;
    put_listed(&mut answers, alloc, number)?;
    Ok(answers)
}
