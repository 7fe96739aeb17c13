//! What READLINK, SYMLINK and LINK begin with, and what faults are told, by the kinds of files that are shown.

use crate::scripts::setting::{FIXED, HOST};
use errno::{EINVAL, ENAMETOOLONG, ENOENT, ENOSYS, EPERM};
use ops::{Intent, Settings, Wanted, intent_of, refusal_errno};
use std::test::Fail;
use wire::{Caller, LINK, LOOKUP, Operation, READLINK, ReplyBody, Request, SYMLINK, WireFault};

/// Texts are the first bytes of these.
const BYTES: [u8; 5000] = [b'/'; 5000];

/// What a request for node 5 begins with.
#[derive(Clone, Copy, PartialEq, Eq)]
enum Begins {
    /// It is refused with this error number.
    Refused(i32),
    /// With its node.
    Node,
    /// With a name in it.
    Name,
    /// With node 3, and a name in it.
    Further,
}

use Begins::{Further, Name, Node, Refused};

/// By settings, the name of the link, and how many bytes its text has.
const MADE: &[(Settings, &[u8], usize, Begins)] = &[
    (HOST, b"a", 1, Name),
    (HOST, b"a", 4095, Name),
    (HOST, b"a", 0, Refused(ENOENT)),
    (HOST, b"a", 4096, Refused(ENAMETOOLONG)),
    (HOST, b"a", 5000, Refused(ENAMETOOLONG)),
    // A name that the server keeps for itself comes first.
    (HOST, b".fuse_hidden1", 1, Refused(EPERM)),
    (HOST, b".fuse_hidden1", 0, Refused(EPERM)),
    // Where no link is shown, nothing else is said.
    (FIXED, b"a", 1, Refused(ENOSYS)),
    (FIXED, b"a", 0, Refused(ENOSYS)),
    (FIXED, b"a", 5000, Refused(ENOSYS)),
    (FIXED, b".fuse_hidden1", 1, Refused(ENOSYS)),
];

fn begins_with(settings: Settings, operation: Operation<'_>) -> Option<Begins> {
    let request = Request {
        unique: 1,
        node: 5,
        caller: Caller { uid: 0, gid: 0 },
        operation,
    };
    match intent_of(settings, &request) {
        Intent::Reply(ReplyBody::Failed { errno }) => Some(Refused(errno)),
        Intent::Want(
            Wanted::Node {
                number: 5,
                handle: None,
            },
        ) => Some(Node),
        Intent::Want(Wanted::Name { parent: 5, .. }) => Some(Name),
        Intent::Want(
            Wanted::Link {
                number: 3,
                parent: 5,
                name: b"a",
            },
        ) => Some(Further),
        _ => None,
    }
}

#[test]
fn which_links_are_made(rt: HostRuntime) -> Result<(), Fail> {
    for (settings, name, len, begins) in MADE {
        let text = BYTES.get(..*len).unwrap_or(&[]);
        if begins_with(*settings, Operation::MakeLink { name, text }) != Some(*begins) {
            return Err(Fail::from(("begins otherwise", *len)));
        }
    }
    Ok(())
}

/// By settings.
const READ: &[(Settings, Begins)] = &[(HOST, Node), (FIXED, Refused(ENOSYS))];

#[test]
fn whether_links_are_read(rt: HostRuntime) -> Result<(), Fail> {
    for (settings, begins) in READ {
        if begins_with(*settings, Operation::ReadLink) != Some(*begins) {
            return Err(Fail::from("READLINK begins otherwise"));
        }
    }
    Ok(())
}

/// By settings, the old node and the new name.
const LINKED: &[(Settings, u64, &[u8], Begins)] = &[
    (HOST, 3, b"a", Further),
    // The root is a folder.
    (HOST, 1, b"a", Refused(EPERM)),
    (HOST, 3, b".fuse_hidden1", Refused(EPERM)),
    (HOST, 1, b".fuse_hidden1", Refused(EPERM)),
    // Where no link is shown, nothing else is said.
    (FIXED, 3, b"a", Refused(ENOSYS)),
    (FIXED, 1, b"a", Refused(ENOSYS)),
    (FIXED, 3, b".fuse_hidden1", Refused(ENOSYS)),
];

#[test]
fn what_gets_a_further_name(rt: HostRuntime) -> Result<(), Fail> {
    for (settings, old_node, name, begins) in LINKED {
        let operation = Operation::Link {
            old_node: *old_node,
            name,
        };
        if begins_with(*settings, operation) != Some(*begins) {
            return Err(Fail::from(("begins otherwise", *old_node)));
        }
    }
    Ok(())
}

/// By settings, opcode and fault.
const FAULTS: &[(Settings, u32, WireFault, i32)] = &[
    // An opcode that is not served is told in place of what is wrong with its body.
    (FIXED, SYMLINK, WireFault::Body, ENOSYS),
    (FIXED, SYMLINK, WireFault::NameLong, ENOSYS),
    (FIXED, SYMLINK, WireFault::NameBad, ENOSYS),
    (FIXED, READLINK, WireFault::Body, ENOSYS),
    (FIXED, LINK, WireFault::Body, ENOSYS),
    (FIXED, LINK, WireFault::NameLong, ENOSYS),
    (FIXED, LINK, WireFault::NameBad, ENOSYS),
    // The frame was tested first.
    (FIXED, SYMLINK, WireFault::Frame, EINVAL),
    (FIXED, READLINK, WireFault::Frame, EINVAL),
    (FIXED, LINK, WireFault::Frame, EINVAL),
    // One that is served.
    (HOST, SYMLINK, WireFault::Body, EINVAL),
    (HOST, SYMLINK, WireFault::NameLong, ENAMETOOLONG),
    (HOST, SYMLINK, WireFault::NameBad, EINVAL),
    (HOST, SYMLINK, WireFault::Frame, EINVAL),
    (HOST, LINK, WireFault::Body, EINVAL),
    (HOST, LINK, WireFault::NameLong, ENAMETOOLONG),
    (HOST, LINK, WireFault::NameBad, EINVAL),
    (HOST, LINK, WireFault::Frame, EINVAL),
    (FIXED, LOOKUP, WireFault::NameLong, ENAMETOOLONG),
    (FIXED, LOOKUP, WireFault::NameBad, EINVAL),
    (FIXED, LOOKUP, WireFault::Body, EINVAL),
    // One that never is.
    (FIXED, 7, WireFault::Opcode, ENOSYS),
    (HOST, 7, WireFault::Opcode, ENOSYS),
];

#[test]
fn what_faults_are_told(rt: HostRuntime) -> Result<(), Fail> {
    for (settings, opcode, fault, errno) in FAULTS {
        if refusal_errno(*settings, *opcode, *fault) != *errno {
            return Err(Fail::from(("told otherwise", *opcode)));
        }
    }
    Ok(())
}
