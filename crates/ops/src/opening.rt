//! What requests need that open a file, or use an open one.

ghost use Rattle.std.specs.Prelude.{◌≡◌};
ghost use Rattle.ops.specs.Intents.{access_of, by_handle, create_intent, intent_in, open_intent};

use crate::intents::{Intent, refused};
use crate::wanted::Wanted;
use errno::EINVAL;
use table_files::{Access, Need};
use table_requests::Handle;

/// The bits of an open's flags for the access mode (`O_ACCMODE` of `fcntl.h`).
const ACCESS_MODE: u32 = 3;

/// The access in the flags of OPEN and CREATE; the other bits are ignored.
fn access_of(flags: u32) -> Option<Access>
    ensures { result ≡ access_of flags }
{
    match flags & ACCESS_MODE {
        0 => Some(Access::Reading),
        1 => Some(Access::Writing),
        2 => Some(Access::Both),
        _ => None,
    }
}

/// OPEN. Flags without a valid access mode are EINVAL.
pub(crate) fn open_intent<'a>(node: u64, flags: u32) -> Intent<'a>
    ensures { intent_in result ≡ open_intent node (access_of flags) }
{
    match access_of(flags) {
        Some(access) => Intent::Want(Wanted::Open {
            number: node,
            access,
        }),
        None => refused(EINVAL),
    }
}

/// CREATE. Flags without a valid access mode are EINVAL.
pub(crate) fn create_intent<'a>(parent: u64, name: &'a [u8], flags: u32) -> Intent<'a>
    ensures { intent_in result ≡ create_intent parent name.now (access_of flags) }
{
    match access_of(flags) {
        Some(access) => Intent::Want(Wanted::Create {
            parent,
            name,
            access,
        }),
        None => refused(EINVAL),
    }
}

/// The request is about the node, through the handle of an open file of it.
pub(crate) fn by_handle<'a>(node: u64, fh: u64, need: Need) -> Intent<'a>
    ensures { intent_in result ≡ by_handle node fh need }
{
    Intent::Want(Wanted::Node {
        number: node,
        handle: Some(Handle { fh, need }),
    })
}
