//! The attributes in replies, from each of the two sources.

ghost use Rattle.std.specs.Prelude.{◌≡◌};
ghost use Rattle.ops.specs.Replies.{attributes_of, details_of, epoch, fixed_details, fixed_links, fixed_permissions};

use crate::findings::FoundFile;
use payload::{Details, Kind, Time};
use terms::{AttributeSource, Settings};
use wire::Attributes;

/// The beginning of 1970.
const EPOCH: Time = Time {
    seconds: 0,
    nanos: 0,
};

/// The owner may change everything; everyone may read it and enter folders. A link has all bits, as on Linux, where
/// they say nothing.
fn fixed_permissions(kind: Kind) -> u32
    ensures { result ≡ fixed_permissions kind }
{
    match kind {
        Kind::Folder => 0o755,
        Kind::File | Kind::Special(_) => 0o644,
        Kind::Link => 0o777,
    }
}

/// A folder has its name, and `.` in itself.
fn fixed_links(kind: Kind) -> u32
    ensures { result ≡ fixed_links kind }
{
    match kind {
        Kind::Folder => 2,
        Kind::File | Kind::Link | Kind::Special(_) => 1,
    }
}

/// The details of every node of that kind. The inode number is that of the node.
fn fixed_details(uid: u32, gid: u32, node: u64, kind: Kind) -> Details
    ensures { result ≡ fixed_details uid gid node kind }
{
    Details {
        ino: node,
        permissions: fixed_permissions(kind),
        links: fixed_links(kind),
        uid,
        gid,
        accessed: EPOCH,
        modified: EPOCH,
        changed: EPOCH,
    }
}

/// The details of what was found, as those of that node.
fn details_of(source: AttributeSource, node: u64, found: FoundFile) -> Details
    ensures { result ≡ details_of source node found }
{
    match source {
        AttributeSource::Fixed { uid, gid } => fixed_details(uid, gid, node, found.kind),
        AttributeSource::Host => found.details,
    }
}

/// The attributes of what was found, as those of that node.
pub(crate) fn attributes_of(settings: Settings, node: u64, found: FoundFile) -> Attributes
    ensures { result ≡ attributes_of settings node found }
{
    Attributes {
        kind: found.kind,
        size: found.size,
        details: details_of(settings.attributes, node, found),
    }
}
