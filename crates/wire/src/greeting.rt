//! How a client and the server agree on a version.

ghost use Rattle.std.specs.Prelude.{◌≡◌, ◌*◌};
ghost use Rattle.std.specs.Int.{bit_at};
ghost use Rattle.wire.specs.Negotiation.{agreed_flags, agreement, highest, negotiated};

use crate::reply::InitOut;

/// The major version that the server speaks.
const MAJOR: u32 = 7;

/// The highest minor version that the server speaks.
const MINOR: u32 = 31;

/// The lowest minor version that the server accepts (own).
const LEAST_MINOR: u32 = 23;

/// The limit on the bytes that a client may read ahead, and on those of one WRITE (own).
const MOST_BYTES: u32 = 65536;

/// The bit by which a client offers to be given a page limit (`FUSE_MAX_PAGES` of `fuse.h`).
const PAGES: u32 = 1 << 22;

/// The bits that are accepted if they are offered (own).
const FLAGS: u32 = 1 | 1 << 5 | 1 << 13 | 1 << 18 | PAGES;

/// How many pages one request may have (own).
const MAX_PAGES: u16 = 16;

/// The answer to an INIT.
#[derive(Clone, Copy, Debug, PartialEq, Eq)]
pub enum Negotiated {
    /// The client and the server agree on this.
    Use(InitOut),
    /// A higher major version was offered. The client is sent this and makes another offer.
    Again(InitOut),
    /// The version is too old. The client may offer another one.
    Refuse,
}

/// Those of the offered bits that are accepted.
fn agreed_flags(flags: u32) -> u32
    ensures { result ≡ agreed_flags flags }
{
    flags & FLAGS
}

fn max_pages(flags: u32) -> u16
    ensures { result ≡ 16 * bit_at flags 22 }
{
    if flags / PAGES % 2 == 1 { MAX_PAGES } else { 0 }
}

fn agreement(minor: u32, max_readahead: u32, flags: u32) -> InitOut
    ensures { result ≡ agreement minor max_readahead flags }
{
    InitOut {
        major: MAJOR,
        minor: minor.min(MINOR),
        max_readahead: max_readahead.min(MOST_BYTES),
        flags: agreed_flags(flags),
        max_background: 12,
        congestion_threshold: 9,
        max_write: MOST_BYTES,
        time_gran: 1,
        max_pages: max_pages(flags),
    }
}

fn highest() -> InitOut
    ensures { result ≡ highest }
{
    InitOut {
        major: MAJOR,
        minor: MINOR,
        max_readahead: 0,
        flags: 0,
        max_background: 0,
        congestion_threshold: 0,
        max_write: 0,
        time_gran: 0,
        max_pages: 0,
    }
}

/// The answer to an INIT with this offer. It does not allocate.
pub fn negotiate(major: u32, minor: u32, max_readahead: u32, flags: u32) -> Negotiated
    ensures { result ≡ negotiated major minor max_readahead flags }
{
    if major > MAJOR {
        return Negotiated::Again(highest());
    }
    if major < MAJOR || minor < LEAST_MINOR {
        return Negotiated::Refuse;
    }
    Negotiated::Use(agreement(minor, max_readahead, flags))
}
