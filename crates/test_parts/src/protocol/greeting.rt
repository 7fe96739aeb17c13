//! Versions that are offered, and the results.

use std::test::Fail;
use wire::{InitOut, Negotiated, negotiate};

/// The agreement for 7.31, more than 65,536 bytes read ahead, and no flags.
pub const AGREED: InitOut = InitOut {
    major: 7,
    minor: 31,
    max_readahead: 65536,
    flags: 0,
    max_background: 12,
    congestion_threshold: 9,
    max_write: 65536,
    time_gran: 1,
    max_pages: 0,
};

/// What a client with a higher major version is sent.
pub const OFFERED: InitOut = InitOut {
    max_readahead: 0,
    max_background: 0,
    congestion_threshold: 0,
    max_write: 0,
    time_gran: 0,
    ..AGREED
};

/// The major and minor version, bytes read ahead and flags of an offer, and the result.
#[derive(Clone, Copy)]
struct Negotiation(u32, u32, u32, u32, Negotiated);

const GREETINGS: &[Negotiation] = &[
    Negotiation(7, 31, 131072, 0, Negotiated::Use(AGREED)),
    Negotiation(8, 0, 131072, 0xffffffff, Negotiated::Again(OFFERED)),
    Negotiation(0xffffffff, 31, 0, 0, Negotiated::Again(OFFERED)),
    Negotiation(6, 31, 131072, 0, Negotiated::Refuse),
    Negotiation(7, 22, 131072, 0, Negotiated::Refuse),
    Negotiation(
        7,
        23,
        65535,
        0xffbbdfde,
        Negotiated::Use(InitOut {
            minor: 23,
            max_readahead: 65535,
            ..AGREED
        }),
    ),
    Negotiation(
        7,
        40,
        131072,
        0x00442020,
        Negotiated::Use(InitOut {
            flags: 0x00442020,
            max_pages: 16,
            ..AGREED
        }),
    ),
    Negotiation(
        7,
        31,
        0,
        0xffffffff,
        Negotiated::Use(InitOut {
            max_readahead: 0,
            flags: 0x00442021,
            max_pages: 16,
            ..AGREED
        }),
    ),
];

#[test]
fn versions_that_are_agreed_on(rt: HostRuntime) -> Result<(), Fail> {
    for greeting in GREETINGS {
        let Negotiation(major, minor, max_readahead, flags, answer) = *greeting;
        assert_eq!(rt; negotiate(major, minor, max_readahead, flags), answer);
    }
    Ok(())
}
