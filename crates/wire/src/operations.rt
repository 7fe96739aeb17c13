//! Reading the body of a request by its opcode.

ghost use Rattle.std.specs.Prelude.{◌∷◌, []};
ghost use Rattle.wire.specs.Fields.{text, name};
ghost use Rattle.wire.specs.Reading.{Gives, values_at, operation_at, told};
ghost use Rattle.wire.specs.Requests.{new_attributes_layout, new_attributes_values};

use crate::fault::WireFault;
use crate::fronts::{counted_front, nothing_left, text_front, u32_front, u64_front, unread_front};
use crate::opcode::{
    BATCH_FORGET, CREATE, DESTROY, FLUSH, FORGET, FSYNC, FSYNCDIR, GETATTR, INIT, INTERRUPT, LINK,
    LOOKUP, MKDIR, OPEN, OPENDIR, READ, READDIR, READDIRPLUS, READLINK, RELEASE, RELEASEDIR,
    RENAME, RENAME2, RMDIR, SETATTR, STATFS, SYMLINK, UNLINK, WRITE,
};
use crate::opened::{
    create, flush, open, open_dir, read, read_dir, read_dir_plus, release, release_dir, sync,
    sync_dir, write,
};
use crate::request::{NewAttributes, Operation};
use payload::Time;

pub fn name_alone(body: &[u8]) -> Result<&[u8], WireFault>
    ensures { Gives (λ x. name x.now ∷ []) result (values_at (text ∷ []) body.now) }
{
    let (name, rest) = text_front(body)?;
    nothing_left(rest)?;
    Ok(name)
}

#[tactic(auto, unfolding(crate::specs::Reading::operation_at))]
fn forget(body: &[u8]) -> Result<Operation<'_>, WireFault>
    ensures { Gives told result (operation_at FORGET body.now) }
{
    let (nlookup, rest) = u64_front(body)?;
    nothing_left(rest)?;
    Ok(Operation::Forget { nlookup })
}

#[tactic(auto, unfolding(crate::specs::Reading::operation_at))]
fn get_attr(body: &[u8]) -> Result<Operation<'_>, WireFault>
    ensures { Gives told result (operation_at GETATTR body.now) }
{
    let rest = unread_front(body, 16)?;
    nothing_left(rest)?;
    Ok(Operation::GetAttr)
}

/// What a SETATTR may set besides the size, up to the end of the body. The lock owner and the time of the last change
/// are not read.
fn new_attributes(body: &[u8]) -> Result<NewAttributes, WireFault>
    ensures { Gives new_attributes_values result (values_at new_attributes_layout body.now) }
{
    let rest = unread_front(body, 8)?;
    let (accessed, rest) = u64_front(rest)?;
    let (modified, rest) = u64_front(rest)?;
    let rest = unread_front(rest, 8)?;
    let (accessed_nanos, rest) = u32_front(rest)?;
    let (modified_nanos, rest) = u32_front(rest)?;
    let rest = unread_front(rest, 4)?;
    let (mode, rest) = u32_front(rest)?;
    let rest = unread_front(rest, 4)?;
    let (uid, rest) = u32_front(rest)?;
    let (gid, rest) = u32_front(rest)?;
    let rest = unread_front(rest, 4)?;
    nothing_left(rest)?;
    Ok(NewAttributes {
        mode,
        uid,
        gid,
        accessed: Time {
            seconds: accessed,
            nanos: accessed_nanos,
        },
        modified: Time {
            seconds: modified,
            nanos: modified_nanos,
        },
    })
}

#[tactic(auto, unfolding(crate::specs::Reading::operation_at))]
fn set_attr(body: &[u8]) -> Result<Operation<'_>, WireFault>
    ensures { Gives told result (operation_at SETATTR body.now) }
{
    let (valid, rest) = u32_front(body)?;
    let rest = unread_front(rest, 4)?;
    let (fh, rest) = u64_front(rest)?;
    let (size, rest) = u64_front(rest)?;
    let attributes = new_attributes(rest)?;
    Ok(Operation::SetAttr {
        valid,
        fh,
        size,
        attributes,
    })
}

/// The text of the link is no name: it is not tested, and may have any length.
#[tactic(auto, unfolding(crate::specs::Reading::operation_at))]
fn make_link(body: &[u8]) -> Result<Operation<'_>, WireFault>
    ensures { Gives told result (operation_at SYMLINK body.now) }
{
    let (name, rest) = text_front(body)?;
    let (text, rest) = text_front(rest)?;
    nothing_left(rest)?;
    Ok(Operation::MakeLink { name, text })
}

#[tactic(auto, unfolding(crate::specs::Reading::operation_at))]
fn make_dir(body: &[u8]) -> Result<Operation<'_>, WireFault>
    ensures { Gives told result (operation_at MKDIR body.now) }
{
    let (mode, rest) = u32_front(body)?;
    let (umask, rest) = u32_front(rest)?;
    let name = name_alone(rest)?;
    Ok(Operation::MakeDir { name, mode, umask })
}

/// Two names, up to the end of the body.
fn two_names(body: &[u8]) -> Result<(&[u8], &[u8]), WireFault>
    ensures { Gives (λ x. name x.0.now ∷ name x.1.now ∷ []) result (values_at (text ∷ text ∷ []) body.now) }
{
    let (name, rest) = text_front(body)?;
    let (new_name, rest) = text_front(rest)?;
    nothing_left(rest)?;
    Ok((name, new_name))
}

#[tactic(auto, unfolding(crate::specs::Reading::operation_at))]
fn rename(body: &[u8]) -> Result<Operation<'_>, WireFault>
    ensures { Gives told result (operation_at RENAME body.now) }
{
    let (new_parent, rest) = u64_front(body)?;
    let (name, new_name) = two_names(rest)?;
    Ok(Operation::Rename {
        name,
        new_parent,
        new_name,
    })
}

#[tactic(auto, unfolding(crate::specs::Reading::operation_at))]
fn rename2(body: &[u8]) -> Result<Operation<'_>, WireFault>
    ensures { Gives told result (operation_at RENAME2 body.now) }
{
    let (new_parent, rest) = u64_front(body)?;
    let (flags, rest) = u32_front(rest)?;
    let rest = unread_front(rest, 4)?;
    let (name, new_name) = two_names(rest)?;
    Ok(Operation::Rename2 {
        name,
        new_parent,
        flags,
        new_name,
    })
}

#[tactic(auto, unfolding(crate::specs::Reading::operation_at))]
fn link(body: &[u8]) -> Result<Operation<'_>, WireFault>
    ensures { Gives told result (operation_at LINK body.now) }
{
    let (old_node, rest) = u64_front(body)?;
    let name = name_alone(rest)?;
    Ok(Operation::Link { old_node, name })
}

#[tactic(auto, unfolding(crate::specs::Reading::operation_at))]
fn stat_fs(body: &[u8]) -> Result<Operation<'_>, WireFault>
    ensures { Gives told result (operation_at STATFS body.now) }
{
    nothing_left(body)?;
    Ok(Operation::StatFs)
}

#[tactic(auto, unfolding(crate::specs::Reading::operation_at))]
fn init(body: &[u8]) -> Result<Operation<'_>, WireFault>
    ensures { Gives told result (operation_at INIT body.now) }
{
    let (major, rest) = u32_front(body)?;
    let (minor, rest) = u32_front(rest)?;
    let (max_readahead, rest) = u32_front(rest)?;
    let (flags, _) = u32_front(rest)?;
    Ok(Operation::Init {
        major,
        minor,
        max_readahead,
        flags,
    })
}

#[tactic(auto, unfolding(crate::specs::Reading::operation_at))]
fn batch_forget(body: &[u8]) -> Result<Operation<'_>, WireFault>
    ensures { Gives told result (operation_at BATCH_FORGET body.now) }
{
    let pairs = counted_front(body, 16, 4, u32::MAX)?;
    Ok(Operation::BatchForget { pairs })
}

#[tactic(auto, unfolding(crate::specs::Reading::operation_at))]
fn destroy(body: &[u8]) -> Result<Operation<'_>, WireFault>
    ensures { Gives told result (operation_at DESTROY body.now) }
{
    nothing_left(body)?;
    Ok(Operation::Destroy)
}

#[tactic(auto, unfolding(crate::specs::Reading::operation_at))]
pub fn operation_of(opcode: u32, body: &[u8]) -> Result<Operation<'_>, WireFault>
    ensures { Gives told result (operation_at opcode body.now) }
{
    match opcode {
        LOOKUP => Ok(Operation::Lookup {
            name: name_alone(body)?,
        }),
        FORGET => forget(body),
        GETATTR => get_attr(body),
        SETATTR => set_attr(body),
        READLINK => Ok(Operation::ReadLink),
        SYMLINK => make_link(body),
        MKDIR => make_dir(body),
        UNLINK => Ok(Operation::Unlink {
            name: name_alone(body)?,
        }),
        RMDIR => Ok(Operation::RemoveDir {
            name: name_alone(body)?,
        }),
        RENAME => rename(body),
        LINK => link(body),
        OPEN => open(body),
        READ => read(body),
        WRITE => write(body),
        STATFS => stat_fs(body),
        RELEASE => release(body),
        FSYNC => sync(body),
        FLUSH => flush(body),
        INIT => init(body),
        OPENDIR => open_dir(body),
        READDIR => read_dir(body),
        RELEASEDIR => release_dir(body),
        FSYNCDIR => sync_dir(body),
        CREATE => create(body),
        INTERRUPT => Ok(Operation::Interrupt),
        DESTROY => destroy(body),
        BATCH_FORGET => batch_forget(body),
        READDIRPLUS => read_dir_plus(body),
        RENAME2 => rename2(body),
        _ => Err(WireFault::Opcode),
    }
}
