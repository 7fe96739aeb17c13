//! What tests ask: a memory tree, a handle to one, or a folder of any disk.

use crate::asking::ask;
use backing::{Answer, Call, Calls, MemTree, Shared};
use disk::Disk;
use disk_folder::Folder;
use std::alloc::{AllocError, Global};
use std::sync::Wait;
use std::test::Fail;

/// A directory as tests call it. Nothing is claimed of its answers, so that what is generic over it is checked for none of what a
/// disk or its system claims.
pub trait Asked {
    /// The answer to the call.
    fn answer(&mut self, call: Call<'_>) -> Answer;

    /// How many of its calls have failed.
    fn failed(&self) -> u64;
}

impl Asked for MemTree {
    fn answer(&mut self, call: Call<'_>) -> Answer {
        self.call(call)
    }

    fn failed(&self) -> u64 {
        self.failures()
    }
}

impl<H: Wait + Drop> Asked for Shared<H> {
    fn answer(&mut self, call: Call<'_>) -> Answer {
        self.call(call)
    }

    fn failed(&self) -> u64 {
        self.failures()
    }
}

/// Offers the folder the buffer, if there is one, and makes the call: its answer, and how many calls have failed by then. A struct
/// without type parameters holds the folder and makes this one call of it, since each function that meets a folder's whole type is
/// dear to check.
pub fn call_counted<D: Disk + Drop>(
    folder: &mut Folder<D>,
    room: Option<Vec<u8>>,
    call: Call<'_>,
) -> (Answer, u64) {
    if let Some(mut buffer) = room {
        folder.offer_room(&mut buffer);
    }
    let answer = folder.call(call);
    (answer, folder.failures())
}

/// Checks that the call has this answer.
pub fn expect<A: Asked>(
    alloc: Global,
    asked: &mut A,
    words: &str,
    wanted: &str,
) -> Result<(), Fail> {
    let told = ask(alloc, asked, words)?;
    if told.as_str() == wanted {
        return Ok(());
    }
    Err(Fail::from((words, told)))
}

/// Checks that that many failures were counted.
pub fn expect_count(told: u64, wanted: u64) -> Result<(), Fail> {
    if told == wanted {
        return Ok(());
    }
    Err(Fail::from(("counted", told)))
}

/// Checks that each call has its answer.
pub fn expect_rows<A: Asked>(
    alloc: Global,
    asked: &mut A,
    rows: &[(&str, &str)],
) -> Result<(), Fail> {
    for (words, wanted) in rows {
        expect(alloc, asked, words, wanted)?;
    }
    Ok(())
}

/// The same, by which so many calls are counted as failures.
pub fn expect_told<A: Asked>(
    alloc: Global,
    asked: &mut A,
    rows: &[(&str, &str)],
    failures: u64,
) -> Result<(), Fail> {
    expect_rows(alloc, asked, rows)?;
    expect_count(asked.failed(), failures)
}
