//! Hidden names, byte for byte.

use paths::reserved::{candidate, hidden_name, is_reserved};
use std::alloc::{AllocError, Global};
use std::test::Fail;

/// A number, a counter, how many candidates come before, and the name. The counter starts again after the last one.
const SPELT: &[(u64, u32, u32, &[u8])] = &[
    (2, 0, 0, b".fuse_hidden0000000200000000"),
    (3, 10, 0, b".fuse_hidden000000030000000a"),
    (4_294_967_297, u32::MAX, 2, b".fuse_hidden0000000100000001"),
    (u64::MAX, u32::MAX, 0, b".fuse_hiddenffffffffffffffff"),
];

/// Whether the name has these bytes, which are 28.
fn is_spelt(alloc: Global, number: u64, counter: u32, said: &[u8]) -> Result<bool, AllocError> {
    let name = hidden_name(alloc, number, counter)?;
    Ok(name.as_bytes() == said && name.len() == 28)
}

#[test]
fn hidden_names_are_spelt(rt: HostRuntime) -> Result<(), Fail> {
    for (number, counter, before, said) in SPELT {
        let counter = candidate(*counter, *before);
        if !is_spelt(rt.alloc(), *number, counter, said)? {
            return Err(Fail::from(("spelt otherwise", *number, counter)));
        }
    }
    Ok(())
}

/// A name, and whether it is reserved.
const BEGINNINGS: &[(&[u8], bool)] = &[
    (b".fuse_hidden", true),
    (b".fuse_hidden0000000200000000", true),
    (b".fuse_hidde", false),
    (b"a.fuse_hidden", false),
    (b".Fuse_hidden", false),
];

#[test]
fn names_with_that_beginning_are_reserved(_rt: HostRuntime) -> Result<(), Fail> {
    for (place, (name, reserved)) in BEGINNINGS.iter().enumerate() {
        if is_reserved(name) != *reserved {
            return Err(Fail::from(("reserved otherwise", place)));
        }
    }
    Ok(())
}
