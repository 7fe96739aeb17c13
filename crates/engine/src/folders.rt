//! What requests do with open folders.

ghost use Rattle.std.specs.Prelude.{◌≡◌, true, Some, IfOk, OnErr};
ghost use Rattle.ops.specs.Folders.{IsPaged};
ghost use Rattle.ops.specs.Pages.{Paged as Told};
ghost use Rattle.engine.specs.Folders.{given_up, ByCalls, IsAnsweredBy, LacksAnswer, PagesOf};

use errno::{EBADF, EINVAL};
use handles::{Folders, Listing, Loan, PageFault};
use ops::{FolderUse, Paged, names_reply};
use std::alloc::{AllocError, Global};
use wire::ReplyBody;

/// The answer to a request that uses an open folder.
#[derive(Drop)]
pub(crate) enum FolderAnswer {
    /// It is answered with this at once.
    Reply(ReplyBody),
    /// It begins, and returns these entries.
    Page(Paged),
}

/// The answer to a RELEASEDIR.
fn given_up(gone: bool) -> ReplyBody
    ensures { result ≡ given_up gone }
{
    if gone {
        ReplyBody::Done
    } else {
        ReplyBody::Failed { errno: EBADF }
    }
}

/// A page of the listing that owns its entries.
fn take_page(
    alloc: Global,
    listing: &Listing,
    offset: u64,
    size: u32,
) -> Result<FolderAnswer, AllocError>
    ensures ok { IfOk result (PagesOf listing.now.entries offset size) }
    ensures err { OnErr result ((page : Told) × IsPaged true listing.now.entries offset size (Some page.entries) × (page.from ≡ offset)) }
{
    match listing.page(offset, size, true) {
        Ok(page) => Ok(FolderAnswer::Page(Paged::copy_of(alloc, page)?)),
        Err(PageFault::Small) => Ok(FolderAnswer::Reply(ReplyBody::Failed { errno: EINVAL })),
    }
}

/// The answer to a request that uses the folder under a handle, if it is one of the node. The folder is no longer lent
/// when this returns. An error means that memory for the answer was refused.
pub(crate) fn use_folder<D: Folders>(
    alloc: Global,
    dirs: &mut D,
    node: u64,
    fh: u64,
    usage: FolderUse,
) -> Result<FolderAnswer, AllocError>
    ensures ok { IfOk result (λ answer. ByCalls D.keeps dirs.old dirs.new (λ folders. IsAnsweredBy node fh usage folders answer)) }
    ensures err { OnErr result (ByCalls D.keeps dirs.old dirs.new (λ folders. LacksAnswer node fh usage folders)) }
{
    let Some(lent) = dirs.lend(fh) else {
        return Ok(FolderAnswer::Reply(ReplyBody::Failed { errno: EBADF }));
    };
    if lent.listing().number() != node {
        return Ok(FolderAnswer::Reply(ReplyBody::Failed { errno: EBADF }));
    }
    match usage {
        FolderUse::ReadNames { offset, size } => {
            let body = names_reply(alloc, lent.listing(), offset, size)?;
            Ok(FolderAnswer::Reply(body))
        }
        FolderUse::ReadEntries { offset, size } => take_page(alloc, lent.listing(), offset, size),
        FolderUse::GiveUp => Ok(FolderAnswer::Reply(given_up(dirs.retire(fh)))),
        FolderUse::Sync => Ok(FolderAnswer::Reply(ReplyBody::Done)),
    }
}
