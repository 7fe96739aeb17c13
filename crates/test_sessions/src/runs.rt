//! The whole program, from its words to its exit status.

use crate::frames::{
    ABSENT, AGREED, ENTRY_A, ENTRY_E_REBORN, FORGET_FIVE, FORGET_THREE, FULL, INIT, LOOKUP_A,
    LOOKUP_E, lines_of, run_from, run_words, tree_with,
};
use mirrord_programs::{Streams, hex_run};
use std::io;
use std::io::{ErrorKind, Write};
use std::test::Fail;
use table::Seeds;

// A LOOKUP of `a` finds it if the sample names were asked for.
#[test]
fn sample_names_or_none(rt: HostRuntime) -> Result<(), Fail> {
    let alloc = rt.alloc();
    let sample = run_words(&rt, &rt, &["mirrord", "hex", "--sample"], &[INIT, LOOKUP_A])?;
    assert_eq!(rt; sample.status, 0);
    assert!(rt; sample.output.as_slice() == lines_of(alloc, &[AGREED, ENTRY_A])?.as_slice());
    assert!(rt; sample.faults.is_empty());
    let bare = run_words(&rt, &rt, &["mirrord", "hex"], &[INIT, LOOKUP_A])?;
    assert_eq!(rt; bare.status, 0);
    assert!(rt; bare.output.as_slice() == lines_of(alloc, &[AGREED, ABSENT])?.as_slice());
    assert!(rt; bare.faults.is_empty());
    let input = lines_of(alloc, &[INIT, LOOKUP_A])?;
    let unasked = run_from(&rt, alloc, false, &input)?;
    assert!(rt; unasked.output.as_slice() == lines_of(alloc, &[AGREED, ABSENT])?.as_slice());
    Ok(())
}

/// With room for six postings: requests, and their replies.
const WITH_SIX: [(&[&str], &[&str]); 2] = [
    // A period ends before the third LOOKUP. The fourth has no room for its postings. After everything is forgotten
    // another period ends, and number 2 is born again with the next generation.
    (
        &[
            INIT,
            LOOKUP_A,
            LOOKUP_A,
            LOOKUP_A,
            LOOKUP_A,
            FORGET_THREE,
            LOOKUP_E,
        ],
        &[AGREED, ENTRY_A, ENTRY_A, ENTRY_A, FULL, ENTRY_E_REBORN],
    ),
    // A table alone has no room for the last of these.
    (
        &[INIT, LOOKUP_A, LOOKUP_A, FORGET_FIVE, LOOKUP_E],
        &[AGREED, ENTRY_A, ENTRY_A, ENTRY_E_REBORN],
    ),
];

#[test]
fn periods_end(rt: HostRuntime) -> Result<(), Fail> {
    let words = ["mirrord", "hex", "--sample", "--postings", "6"];
    for (asked, told) in WITH_SIX {
        let run = run_words(&rt, &rt, &words, asked)?;
        assert_eq!(rt; run.status, 0);
        assert!(rt; run.output.as_slice() == lines_of(rt.alloc(), told)?.as_slice());
        assert!(rt; run.faults.is_empty());
    }
    Ok(())
}

// A command line that is not understood serves nothing.
#[test]
fn bad_words(rt: HostRuntime) -> Result<(), Fail> {
    for words in [&["mirrord", "mount"], &["mirrord", "--smaple"]] {
        let run = run_words(&rt, &rt, words, &[LOOKUP_A])?;
        assert_eq!(rt; run.status, 2);
        assert!(rt; run.output.is_empty());
        assert!(rt; run.faults.starts_with(b"error: "));
    }
    Ok(())
}

// Help goes to the output, and no line is read.
#[test]
fn help(rt: HostRuntime) -> Result<(), Fail> {
    let run = run_words(&rt, &rt, &["mirrord", "--help"], &["no digits"])?;
    assert_eq!(rt; run.status, 0);
    assert!(rt;
        run.output.starts_with(b"A file system server that speaks the FUSE kernel protocol 7.31\n")
    );
    assert!(rt; run.faults.is_empty());
    Ok(())
}

// The faults of the input, each with its status and its line.
#[test]
fn faults_of_the_input(rt: HostRuntime) -> Result<(), Fail> {
    let words = ["mirrord", "hex"];
    let length = run_words(&rt, &rt, &words, &["27000000"])?;
    assert_eq!(rt; length.status, 3);
    assert!(rt;
        length.faults.as_slice()
            == b"mirrord: frame length 39 is not between 40 and 69632\n".as_slice()
    );
    let line = run_words(&rt, &rt, &words, &["", "2"])?;
    assert_eq!(rt; line.status, 4);
    assert!(rt; line.faults.as_slice() == b"mirrord: line 2 is not hexadecimal\n".as_slice());
    Ok(())
}

// A writer that takes nothing.
#[derive(Drop)]
struct Closed {
    kind: ErrorKind,
}

impl Write for Closed {
    fn write(&mut self, _bytes: &[u8]) -> io::Result<usize> {
        Err(io::Error::new(self.kind, "closed"))
    }

    fn flush(&mut self) -> io::Result<()> {
        Ok(())
    }
}

// A reply that cannot be written ends the run.
#[test]
fn broken_output(rt: HostRuntime) -> Result<(), Fail> {
    let alloc = rt.alloc();
    let input = lines_of(alloc, &[INIT, "no digits"])?;
    let mut faults = Vec::new(alloc);
    let broken = Closed {
        kind: ErrorKind::BrokenPipe,
    };
    let ended = hex_run(
        &rt,
        alloc,
        tree_with(true),
        Seeds::new(&rt)?,
        Streams {
            input: input.as_slice(),
            output: broken,
        },
        &mut faults,
    );
    assert_eq!(rt; ended.status, 4);
    assert!(rt; ended.told);
    assert!(rt; faults.as_slice() == b"mirrord: the link failed\n".as_slice());
    let mut lines = Vec::new(alloc);
    let full = Closed {
        kind: ErrorKind::OutOfMemory,
    };
    let ended = hex_run(
        &rt,
        alloc,
        tree_with(true),
        Seeds::new(&rt)?,
        Streams {
            input: input.as_slice(),
            output: full,
        },
        &mut lines,
    );
    assert_eq!(rt; ended.status, 4);
    assert!(rt; lines.as_slice() == b"mirrord: out of memory\n".as_slice());
    Ok(())
}

// If nothing can be written to standard error, the status does not change.
#[test]
fn broken_standard_error(rt: HostRuntime) -> Result<(), Fail> {
    let alloc = rt.alloc();
    let mut broken = Closed {
        kind: ErrorKind::BrokenPipe,
    };
    let ended = hex_run(
        &rt,
        alloc,
        tree_with(true),
        Seeds::new(&rt)?,
        Streams {
            input: b"2".as_slice(),
            output: Vec::new(alloc),
        },
        &mut broken,
    );
    assert_eq!(rt; ended.status, 4);
    assert!(rt; !ended.told);
    assert!(rt; ended.output.is_empty());
    Ok(())
}
