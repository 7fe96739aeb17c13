//! What a request needs before its script can run.

ghost use Rattle.std.specs.Prelude.{◌≡◌};
ghost use Rattle.std.specs.List.{list_any};
ghost use Rattle.paths.specs.Hidden.{is_reserved};
ghost use Rattle.ops.specs.Intents.{intent_in, has_handle, intended, intent, names_of, needed_to_set, refused, reserved_errno, rename_intent, set_intent, sets_details, sets_other, sets_size};

use crate::links::{hard_link_intent, is_left_out, link_intent};
use crate::opening::{by_handle, create_intent, open_intent};
use crate::wanted::Wanted;
use errno::{EINVAL, ENOENT, ENOSYS, EPERM};
use paths::reserved::is_reserved;
use table_files::Need;
use terms::{AttributeSource, Settings};
use wire::{ForgetOne, Operation, ReplyBody, Request};

/// What a request needs.
#[derive(Debug, Drop)]
pub enum Intent<'a> {
    /// It is answered at once.
    Reply(ReplyBody),
    /// It begins with a want.
    Want(Wanted<'a>),
    /// It asks whether a file of its node is open under a handle, and needs no script.
    File { fh: u64 },
    /// It uses the folder that is open under a handle.
    Folder { fh: u64, usage: FolderUse },
    /// It forgets lookups of a node, and is not answered.
    Forget(ForgetOne),
    /// It forgets lookups of several nodes, pair by pair as `wire::split_pair` returns them, and is not answered.
    ForgetAll { pairs: &'a [u8] },
    /// INIT and DESTROY, which a session handles itself, and INTERRUPT, which is ignored.
    Nothing,
}

/// What a request does with an open folder.
#[derive(Clone, Copy, Debug, PartialEq, Eq)]
pub enum FolderUse {
    /// Returns its names from the entry at `offset`, which is an index, in at most `size` bytes.
    ReadNames { offset: u64, size: u32 },
    /// The same with the node and the attributes of each name, for which the table and the directory are asked.
    ReadEntries { offset: u64, size: u32 },
    /// Closes its handle.
    GiveUp,
    /// Writes it to the disk.
    Sync,
}

/// The bit of SETATTR's `valid` for the size (`FATTR_SIZE` of `fuse.h`).
const SIZE: u32 = 1 << 3;

/// The bit that says that the handle is valid (`FATTR_FH`).
const HANDLE: u32 = 1 << 6;

/// The bit for the lock owner (`FATTR_LOCKOWNER`). It is allowed and ignored.
const LOCK_OWNER: u32 = 1 << 9;

/// The lowest bit above that of the time of change (`FATTR_CTIME`). From here on, bits may ask for what the server does
/// not do.
const UNKNOWN: u32 = 1 << 11;

/// The flag of RENAME2 that forbids replacing (`RENAME_NOREPLACE` of `linux/fs.h`).
pub(crate) const NO_REPLACE: u32 = 1;

/// The flag of RENAME2 that exchanges two names (`RENAME_EXCHANGE`).
pub(crate) const EXCHANGE: u32 = 2;

/// Whether the operation has a reserved name.
fn names_reserved(operation: &Operation<'_>) -> bool
    ensures { result ≡ list_any (λ name. is_reserved name) (names_of operation.now) }
{
    match operation {
        Operation::Lookup { name }
        | Operation::MakeDir { name, .. }
        | Operation::MakeLink { name, .. }
        | Operation::Link { name, .. }
        | Operation::Unlink { name }
        | Operation::RemoveDir { name }
        | Operation::Create { name, .. } => is_reserved(name),
        Operation::Rename { name, new_name, .. } | Operation::Rename2 { name, new_name, .. } => {
            is_reserved(name) || is_reserved(new_name)
        }
        Operation::Forget { .. }
        | Operation::GetAttr
        | Operation::SetAttr { .. }
        | Operation::ReadLink
        | Operation::StatFs
        | Operation::Init { .. }
        | Operation::Open { .. }
        | Operation::Read { .. }
        | Operation::Write { .. }
        | Operation::Release { .. }
        | Operation::Sync { .. }
        | Operation::Flush { .. }
        | Operation::OpenDir
        | Operation::ReadDir { .. }
        | Operation::ReleaseDir { .. }
        | Operation::SyncDir { .. }
        | Operation::Interrupt
        | Operation::Destroy
        | Operation::BatchForget { .. }
        | Operation::ReadDirPlus { .. } => false,
    }
}

/// The error for a reserved name: a LOOKUP finds nothing there, and nothing may be made, removed or moved there (own).
fn reserved_errno(operation: &Operation<'_>) -> i32
    ensures { result ≡ reserved_errno operation.now }
{
    match operation {
        Operation::Lookup { .. } => ENOENT,
        _ => EPERM,
    }
}

/// Whether SETATTR asks for a size.
fn sets_size(valid: u32) -> bool
    ensures { result ≡ sets_size valid }
{
    valid & SIZE != 0
}

/// Whether SETATTR names a handle.
fn has_handle(valid: u32) -> bool
    ensures { result ≡ has_handle valid }
{
    valid & HANDLE != 0
}

/// Whether SETATTR asks for more than a size, a handle and a lock owner.
fn sets_details(valid: u32) -> bool
    ensures { result ≡ sets_details valid }
{
    valid & !(SIZE | HANDLE | LOCK_OWNER) != 0
}

/// Whether SETATTR asks for a field that is not set. With the host's attributes all fields are set except the time of
/// change (`FATTR_CTIME`). That one is ignored: kernels ask for it along with others, and the system sets it itself.
fn sets_other(source: AttributeSource, valid: u32) -> bool
    ensures { result ≡ sets_other source valid }
{
    match source {
        AttributeSource::Fixed { .. } => sets_details(valid),
        AttributeSource::Host => valid >= UNKNOWN,
    }
}

/// The access that a handle must have for a SETATTR. Without a size any will do, as for the system's own calls on a
/// descriptor.
fn needed_to_set(source: AttributeSource, valid: u32) -> Need
    ensures { result ≡ needed_to_set source valid }
{
    match source {
        AttributeSource::Host if !sets_size(valid) => Need::Any,
        AttributeSource::Fixed { .. } | AttributeSource::Host => Need::Writing,
    }
}

/// The request is refused at once.
pub(crate) fn refused<'a>(errno: i32) -> Intent<'a>
    ensures { intent_in result ≡ refused errno }
{
    Intent::Reply(ReplyBody::Failed { errno })
}

/// A SETATTR. Setting a field that is not supported is EPERM (own). If there is a handle, it must be open for what is
/// set.
fn set_intent<'a>(source: AttributeSource, node: u64, valid: u32, fh: u64) -> Intent<'a>
    ensures { intent_in result ≡ set_intent source node valid fh }
{
    if sets_other(source, valid) {
        return refused(EPERM);
    }
    if has_handle(valid) {
        return by_handle(node, fh, needed_to_set(source, valid));
    }
    Intent::Want(Wanted::Node {
        number: node,
        handle: None,
    })
}

/// A RENAME2, which moves a name, moves it without replacing anything, or exchanges two names. Other flags are EINVAL
/// (own), including both flags at once.
fn rename_intent<'a>(
    parent: u64,
    name: &'a [u8],
    new_parent: u64,
    flags: u32,
    new_name: &'a [u8],
) -> Intent<'a>
    ensures { intent_in result ≡ rename_intent parent name.now new_parent flags new_name.now }
{
    let keep = flags == NO_REPLACE;
    match flags {
        0 | NO_REPLACE => Intent::Want(Wanted::Move {
            parent,
            name,
            new_parent,
            new_name,
            keep,
        }),
        EXCHANGE => Intent::Want(Wanted::Exchange {
            parent,
            name,
            new_parent,
            new_name,
        }),
        _ => refused(EINVAL),
    }
}

/// What the operation needs, apart from reserved names.
fn intended<'a>(settings: Settings, node: u64, operation: Operation<'a>) -> Intent<'a>
    ensures { intent_in result ≡ intended settings node operation.entry }
{
    let parent = node;
    match operation {
        Operation::Lookup { name } | Operation::MakeDir { name, .. } => {
            Intent::Want(Wanted::Name { parent, name })
        }
        Operation::Forget { nlookup } => Intent::Forget(ForgetOne { node, nlookup }),
        Operation::BatchForget { pairs } => Intent::ForgetAll { pairs },
        Operation::MakeLink { name, text } => link_intent(parent, name, text),
        Operation::Link { old_node, name } => hard_link_intent(old_node, parent, name),
        Operation::GetAttr | Operation::ReadLink | Operation::OpenDir => Intent::Want(
            Wanted::Node {
                number: node,
                handle: None,
            },
        ),
        Operation::SetAttr { valid, fh, .. } => set_intent(settings.attributes, node, valid, fh),
        Operation::Open { flags } => open_intent(node, flags),
        Operation::Create { name, flags, .. } => create_intent(parent, name, flags),
        Operation::Read { fh, .. } => by_handle(node, fh, Need::Reading),
        Operation::Write { fh, .. } => by_handle(node, fh, Need::Writing),
        Operation::Sync { fh } => by_handle(node, fh, Need::Any),
        Operation::Flush { fh } => Intent::File { fh },
        Operation::Release { fh } => Intent::Want(Wanted::Release { number: node, fh }),
        // An open file may be hidden instead. Whether a file or a folder is there is for the directory to say.
        Operation::Unlink { name } => Intent::Want(Wanted::Remove {
            parent,
            name,
            may_hide: true,
        }),
        Operation::RemoveDir { name } => Intent::Want(Wanted::Remove {
            parent,
            name,
            may_hide: false,
        }),
        Operation::Rename {
            name,
            new_parent,
            new_name,
        } => rename_intent(parent, name, new_parent, 0, new_name),
        Operation::Rename2 {
            name,
            new_parent,
            flags,
            new_name,
        } => rename_intent(parent, name, new_parent, flags, new_name),
        Operation::StatFs => Intent::Reply(ReplyBody::StatFs),
        Operation::ReadDir { fh, offset, size } => Intent::Folder {
            fh,
            usage: FolderUse::ReadNames { offset, size },
        },
        Operation::ReadDirPlus { fh, offset, size } => Intent::Folder {
            fh,
            usage: FolderUse::ReadEntries { offset, size },
        },
        Operation::ReleaseDir { fh } => Intent::Folder {
            fh,
            usage: FolderUse::GiveUp,
        },
        Operation::SyncDir { fh } => Intent::Folder {
            fh,
            usage: FolderUse::Sync,
        },
        Operation::Init { .. } | Operation::Interrupt | Operation::Destroy => Intent::Nothing,
    }
}

/// What the request needs. It does not allocate: names stay in the request's frame.
///
/// These are refused at once: an operation that these settings do not serve, with ENOSYS; a reserved name, before
/// anything else, with ENOENT for LOOKUP and EPERM for any other (own); a SETATTR of a field that these settings do not
/// set, with EPERM (own); an OPEN or CREATE whose flags have no valid access mode, with EINVAL; a RENAME2 whose flags
/// are not 0, 1 or 2, with EINVAL (own); a SYMLINK whose text is empty, with ENOENT, or has 4,096 bytes or more, with
/// ENAMETOOLONG; and a LINK of the root, which is a folder, with EPERM.
pub fn intent_of<'a>(settings: Settings, request: &Request<'a>) -> Intent<'a>
    ensures { intent_in result ≡ intent settings request.now }
{
    if is_left_out(settings, &request.operation) {
        return refused(ENOSYS);
    }
    if names_reserved(&request.operation) {
        return refused(reserved_errno(&request.operation));
    }
    intended(settings, request.node, request.operation)
}
