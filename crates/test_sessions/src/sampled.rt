//! Sessions with the sample names, with frames and replies in hexadecimal digits.

use crate::frames::{AGREED, INIT, lines_of};
use backing::PlannedFault;
use engine::Served;
use handles::Dirs;
use mirrord_programs::new_tree;
use ops::Settings;
use std::alloc::{AllocError, Global};
use std::random::RandomSource;
use std::sync::Wait;
use std::test::Fail;
use table::Limits;
use test_support::{Client, FIXED, Over, serve_client};

// Serves the sample names with these settings. The first call of their tree fails, if a fault is planned.
pub fn serve_samples_by<H: Wait + RandomSource>(
    rt: &H,
    alloc: Global,
    settings: Settings,
    planned: Option<PlannedFault>,
    client: &mut Client,
) -> Result<Over, AllocError> {
    let mut tree = new_tree(alloc, true)?;
    if let Some(fault) = planned {
        tree.fail_at(1, fault)?;
    }
    let dirs = Dirs::new(alloc)?;
    let mut served = Served {
        calls: tree,
        dirs: &dirs,
    };
    let limits = Limits::default();
    serve_client(rt, alloc, settings, limits, &mut served, client)
}

// The same with fixed attributes.
pub fn serve_samples<H: Wait + RandomSource>(
    rt: &H,
    alloc: Global,
    planned: Option<PlannedFault>,
    client: &mut Client,
) -> Result<Over, AllocError> {
    serve_samples_by(rt, alloc, FIXED, planned, client)
}

pub fn bytes_of(alloc: Global, line: &str) -> Result<Vec<u8>, Fail> {
    let digits = lines_of(alloc, &[line])?;
    let end = digits.len().saturating_sub(1);
    Ok(hex::decode(alloc, &digits[..end])?)
}

// A client that sends these frames after another one.
pub fn client_from(
    alloc: Global,
    first: &str,
    lines: &[&str],
    declined: u32,
) -> Result<Client, Fail> {
    let mut frames = Vec::new(alloc);
    frames.push(bytes_of(alloc, first)?)?;
    for line in lines {
        frames.push(bytes_of(alloc, line)?)?;
    }
    Ok(Client::new(alloc, frames, declined))
}

// A client that sends INIT and these frames.
pub fn client_of(alloc: Global, lines: &[&str], declined: u32) -> Result<Client, Fail> {
    client_from(alloc, INIT, lines, declined)
}

// Whether these replies were taken, after INIT's.
pub fn are_taken(alloc: Global, taken: &[u8], replies: &[&str]) -> Result<bool, Fail> {
    let mut bytes = bytes_of(alloc, AGREED)?;
    for reply in replies {
        bytes.extend_from_slice(&bytes_of(alloc, reply)?)?;
    }
    Ok(taken == bytes.as_slice())
}

/// What a client sends after INIT, and the replies, in hexadecimal digits.
#[derive(Clone, Copy)]
pub struct Lines {
    pub settings: Settings,
    pub lines: &'static [&'static str],
    pub replies: &'static [&'static str],
}

// Checks that a client that sends these lines gets these replies, with the sample names.
pub fn tell_lines<H: Wait + RandomSource>(rt: &H, alloc: Global, told: Lines) -> Result<(), Fail> {
    let mut client = client_of(alloc, told.lines, 0)?;
    serve_samples_by(rt, alloc, told.settings, None, &mut client)?;
    if are_taken(alloc, &client.taken, told.replies)? {
        return Ok(());
    }
    Err(Fail::from("the replies came otherwise"))
}
