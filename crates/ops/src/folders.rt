//! Replies with the names of an open folder.

ghost use Rattle.std.specs.Prelude.{◌≡◌, ◌+◌, ◌^◌, ◌<◌, ◌++◌, false, length, List, Option, Some, IfOk, OnErr, OnOk};
ghost use Rattle.backing.specs.declared.call.Child.{Child};
ghost use Rattle.ops.specs.Folders.{CarriesAtMost, IsPaged, names_bytes, names_reply};

use backing::Child;
use errno::EINVAL;
use handles::{Listing, PageFault, page_len};
use payload::{HEADER_ROOM, Payload};
use std::alloc::{AllocError, Global};
use wire::{NO_INO, ReplyBody, encode_dirent};

/// An entry is written with a whole word of padding, of which what is too much is cut off: so the last one needs that much more memory.
const PADDING: usize = 8;

/// Room for the header of a reply, and after it no entries yet, with memory for these.
pub(crate) fn page_in(alloc: Global, entries: &[Child], plus: bool) -> Result<Vec<u8>, AllocError>
    ensures { IfOk result (λ page. length page.items ≡ HEADER_ROOM) }
{
    let Some(len) = page_len(entries, plus) else {
        return Err(AllocError);
    };
    let mut page = Vec::with_capacity(alloc, len.saturating_add(HEADER_ROOM + PADDING))?;
    page.extend_from_slice(&[0; HEADER_ROOM])?;
    Ok(page)
}

/// Appends entries to a vector. The first one has index `from`.
fn put_names(out: &mut Vec<u8>, from: u64, children: &[Child]) -> Result<(), AllocError>
    requires { from + length children.now < 2 ^ 64 }
    ensures { OnOk result (out.new.items ≡ out.old.items ++ names_bytes from children.now) }
{
    let mut next = from;
    for child in children {
        next += 1;
        encode_dirent(out, NO_INO, next, child.kind, child.name.as_bytes())?;
    }
    Ok(())
}

/// The answer to a READDIR: as many entries as fit, from an index on. If there is an entry there and it does not fit,
/// the answer is EINVAL (own).
pub fn names_reply(
    alloc: Global,
    listing: &Listing,
    offset: u64,
    size: u32,
) -> Result<ReplyBody, AllocError>
    ensures ok { IfOk result (λ body. (page : Option (List Child)) × IsPaged false listing.now.entries offset size page × (body ≡ names_reply offset page)) }
    ensures short { IfOk result (λ body. CarriesAtMost size body) }
    ensures err { OnErr result ((run : List Child) × IsPaged false listing.now.entries offset size (Some run)) }
{
    let page = match listing.page(offset, size, false) {
        Ok(page) => page,
        Err(PageFault::Small) => return Ok(ReplyBody::Failed { errno: EINVAL }),
    };
    let mut names = page_in(alloc, page.entries, false)?;
    put_names(&mut names, page.from, page.entries)?;
    Ok(ReplyBody::Data(Payload::behind(HEADER_ROOM, names)))
}
