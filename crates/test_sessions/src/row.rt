//! Runs of the program `hex` as rows: its input, and its expected output and end.

use crate::frames::{AGREED, INIT, lines_of, run_on};
use std::alloc::Global;
use std::random::RandomSource;
use std::sync::Wait;
use std::test::Fail;

/// A run with the sample names.
#[derive(Clone, Copy)]
pub struct Row<'a> {
    /// Names the row if it fails.
    pub says: &'a str,
    /// Whether INIT is the first line, and its reply the first.
    pub greets: bool,
    /// The further lines of the input. Their spaces are left out.
    pub lines: &'a [&'a str],
    /// What follows them in the input, unchanged.
    pub tail: &'a [u8],
    /// The exit status.
    pub status: u8,
    /// The further lines of the output. Their spaces are left out.
    pub replies: &'a [&'a str],
    /// What is written on standard error.
    pub fault: &'a str,
}

/// Only INIT is read, only its reply is written, and the status is 0.
pub const NOTHING: Row = Row {
    says: "nothing",
    greets: true,
    lines: &[],
    tail: b"",
    status: 0,
    replies: &[],
    fault: "",
};

/// The row failed: its status, and whether its output and its standard error were as it says.
#[derive(Debug, Drop)]
pub struct Otherwise<'a> {
    pub says: &'a str,
    pub status: u8,
    pub are_replies: bool,
    pub is_fault: bool,
}

/// Runs the program on a row.
pub fn run_row(rt: &(impl Wait + RandomSource), alloc: Global, row: &Row) -> Result<(), Fail> {
    let (first, reply): (&[&str], &[&str]) = if row.greets {
        (&[INIT], &[AGREED])
    } else {
        (&[], &[])
    };
    let mut input = lines_of(alloc, first)?;
    input.extend_from_slice(&lines_of(alloc, row.lines)?)?;
    input.extend_from_slice(row.tail)?;
    let mut replies = lines_of(alloc, reply)?;
    replies.extend_from_slice(&lines_of(alloc, row.replies)?)?;
    let run = run_on(rt, alloc, &input)?;
    let are_replies = run.output.as_slice() == replies.as_slice();
    let is_fault = run.faults.as_slice() == row.fault.as_bytes();
    if run.status == row.status && are_replies && is_fault {
        return Ok(());
    }
    Err(Otherwise {
        says: row.says,
        status: run.status,
        are_replies,
        is_fault,
    }
    .into())
}

/// Runs the program on these bytes, and checks that it writes the replies and ends with status 0.
pub fn run_bytes<'a>(
    rt: &(impl Wait + RandomSource),
    alloc: Global,
    tail: &'a [u8],
    replies: &'a [&'a str],
) -> Result<(), Fail> {
    let row = Row {
        says: "bytes and their replies",
        tail,
        replies,
        ..NOTHING
    };
    run_row(rt, alloc, &row)
}

/// Runs the program on each row. Fails at the first one that fails.
pub fn run_rows(rt: &(impl Wait + RandomSource), alloc: Global, rows: &[Row]) -> Result<(), Fail> {
    for row in rows {
        run_row(rt, alloc, row)?;
    }
    Ok(())
}
