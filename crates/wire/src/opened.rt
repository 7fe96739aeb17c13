//! Reading the body of a request about an open file or folder.

ghost use Rattle.std.specs.Prelude.{◌∷◌, []};
ghost use Rattle.wire.specs.Fields.{limited, u64, unread, num};
ghost use Rattle.wire.specs.Reading.{Gives, values_at, operation_at, told};

use crate::fault::WireFault;
use crate::fronts::{
    counted_front, limited_front, nothing_left, u32_front, u64_front, unread_front,
};
use crate::opcode::{
    CREATE, FLUSH, FSYNC, FSYNCDIR, OPEN, OPENDIR, READ, READDIR, READDIRPLUS, RELEASE, RELEASEDIR,
    WRITE,
};
use crate::operations::name_alone;
use crate::request::{MAX_READ_LEN, MAX_WRITE_LEN, Operation};

#[tactic(auto, unfolding(crate::specs::Reading::operation_at))]
pub fn open(body: &[u8]) -> Result<Operation<'_>, WireFault>
    ensures { Gives told result (operation_at OPEN body.now) }
{
    let (flags, rest) = u32_front(body)?;
    let rest = unread_front(rest, 4)?;
    nothing_left(rest)?;
    Ok(Operation::Open { flags })
}

#[tactic(auto, unfolding(crate::specs::Reading::operation_at))]
pub fn create(body: &[u8]) -> Result<Operation<'_>, WireFault>
    ensures { Gives told result (operation_at CREATE body.now) }
{
    let (flags, rest) = u32_front(body)?;
    let (mode, rest) = u32_front(rest)?;
    let (umask, rest) = u32_front(rest)?;
    let rest = unread_front(rest, 4)?;
    let name = name_alone(rest)?;
    Ok(Operation::Create {
        name,
        flags,
        mode,
        umask,
    })
}

#[tactic(auto, unfolding(crate::specs::Reading::operation_at))]
pub fn open_dir(body: &[u8]) -> Result<Operation<'_>, WireFault>
    ensures { Gives told result (operation_at OPENDIR body.now) }
{
    let rest = unread_front(body, 8)?;
    nothing_left(rest)?;
    Ok(Operation::OpenDir)
}

/// A handle, an offset and a size, and nothing else that is read.
fn page_alone(body: &[u8]) -> Result<(u64, u64, u32), WireFault>
    ensures { Gives (λ x. num x.0 ∷ num x.1 ∷ num x.2 ∷ []) result (values_at (u64 ∷ u64 ∷ limited MAX_READ_LEN ∷ unread 20 ∷ []) body.now) }
{
    let (fh, rest) = u64_front(body)?;
    let (offset, rest) = u64_front(rest)?;
    let (size, rest) = limited_front(rest, MAX_READ_LEN)?;
    let rest = unread_front(rest, 20)?;
    nothing_left(rest)?;
    Ok((fh, offset, size))
}

#[tactic(auto, unfolding(crate::specs::Reading::operation_at))]
pub fn read(body: &[u8]) -> Result<Operation<'_>, WireFault>
    ensures { Gives told result (operation_at READ body.now) }
{
    let (fh, offset, size) = page_alone(body)?;
    Ok(Operation::Read { fh, offset, size })
}

#[tactic(auto, unfolding(crate::specs::Reading::operation_at))]
pub fn read_dir(body: &[u8]) -> Result<Operation<'_>, WireFault>
    ensures { Gives told result (operation_at READDIR body.now) }
{
    let (fh, offset, size) = page_alone(body)?;
    Ok(Operation::ReadDir { fh, offset, size })
}

#[tactic(auto, unfolding(crate::specs::Reading::operation_at))]
pub fn read_dir_plus(body: &[u8]) -> Result<Operation<'_>, WireFault>
    ensures { Gives told result (operation_at READDIRPLUS body.now) }
{
    let (fh, offset, size) = page_alone(body)?;
    Ok(Operation::ReadDirPlus { fh, offset, size })
}

#[tactic(auto, unfolding(crate::specs::Reading::operation_at))]
pub fn write(body: &[u8]) -> Result<Operation<'_>, WireFault>
    ensures { Gives told result (operation_at WRITE body.now) }
{
    let (fh, rest) = u64_front(body)?;
    let (offset, rest) = u64_front(rest)?;
    let data = counted_front(rest, 1, 20, MAX_WRITE_LEN)?;
    Ok(Operation::Write { fh, offset, data })
}

/// A handle and sixteen bytes that are not read.
fn handle_alone(body: &[u8]) -> Result<u64, WireFault>
    ensures { Gives (λ x. num x ∷ []) result (values_at (u64 ∷ unread 16 ∷ []) body.now) }
{
    let (fh, rest) = u64_front(body)?;
    let rest = unread_front(rest, 16)?;
    nothing_left(rest)?;
    Ok(fh)
}

#[tactic(auto, unfolding(crate::specs::Reading::operation_at))]
pub fn release(body: &[u8]) -> Result<Operation<'_>, WireFault>
    ensures { Gives told result (operation_at RELEASE body.now) }
{
    let fh = handle_alone(body)?;
    Ok(Operation::Release { fh })
}

#[tactic(auto, unfolding(crate::specs::Reading::operation_at))]
pub fn flush(body: &[u8]) -> Result<Operation<'_>, WireFault>
    ensures { Gives told result (operation_at FLUSH body.now) }
{
    let fh = handle_alone(body)?;
    Ok(Operation::Flush { fh })
}

#[tactic(auto, unfolding(crate::specs::Reading::operation_at))]
pub fn release_dir(body: &[u8]) -> Result<Operation<'_>, WireFault>
    ensures { Gives told result (operation_at RELEASEDIR body.now) }
{
    let fh = handle_alone(body)?;
    Ok(Operation::ReleaseDir { fh })
}

/// A handle and eight bytes that are not read.
fn synced_alone(body: &[u8]) -> Result<u64, WireFault>
    ensures { Gives (λ x. num x ∷ []) result (values_at (u64 ∷ unread 8 ∷ []) body.now) }
{
    let (fh, rest) = u64_front(body)?;
    let rest = unread_front(rest, 8)?;
    nothing_left(rest)?;
    Ok(fh)
}

#[tactic(auto, unfolding(crate::specs::Reading::operation_at))]
pub fn sync(body: &[u8]) -> Result<Operation<'_>, WireFault>
    ensures { Gives told result (operation_at FSYNC body.now) }
{
    let fh = synced_alone(body)?;
    Ok(Operation::Sync { fh })
}

#[tactic(auto, unfolding(crate::specs::Reading::operation_at))]
pub fn sync_dir(body: &[u8]) -> Result<Operation<'_>, WireFault>
    ensures { Gives told result (operation_at FSYNCDIR body.now) }
{
    let fh = synced_alone(body)?;
    Ok(Operation::SyncDir { fh })
}
