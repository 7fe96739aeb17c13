//! The bytes of a file in memory, and the text of a link.

ghost use Rattle.std.specs.Prelude.{◌≡◌, ◌<◌, ◌≤◌, IfErr, IfOk, length, take, drop};
ghost use Rattle.backing.specs.declared.entries.Item.TheVariants.{Link};
ghost use Rattle.disk.specs.Spots.{item_of, HasPart, IsFailure};

use crate::error::DiskError;
use crate::spot::Content;
use errno::{EINVAL, ENOMEM};
use std::alloc::Global;

/// Reads so many bytes at most, or one where that is none.
pub fn read(
    content: &Content,
    buffer: &mut [u8],
    offset: u64,
    most: usize,
) -> Result<usize, DiskError>
    requires { 0 < length buffer.old }
    ensures within { IfOk result (λ n. n ≤ length buffer.new) }
    ensures bytes { IfOk result (λ n. HasPart (item_of content.now) offset n buffer.new) }
{
    match content {
        Content::Folder => Err(DiskError::IsFolder),
        Content::File(bytes) => Ok(read_part(bytes.as_slice(), buffer, offset, most)),
        Content::Link(_) | Content::Special(_) => Err(DiskError::Failed(EINVAL)),
    }
}

/// The text of the link, else EINVAL.
pub fn read_link(alloc: Global, content: &Content) -> Result<Vec<u8>, DiskError>
    ensures ok { IfOk result (λ text. item_of content.now ≡ Link text.items) }
    ensures err { IfErr result IsFailure }
{
    match content {
        Content::Link(text) => match Vec::from_slice(alloc, text.as_slice()) {
            Ok(text) => Ok(text),
            Err(_) => Err(DiskError::Failed(ENOMEM)),
        },
        Content::Folder | Content::File(_) | Content::Special(_) => Err(DiskError::Failed(EINVAL)),
    }
}

/// Reads so many bytes at most, or one where that is none.
fn read_part(bytes: &[u8], buffer: &mut [u8], offset: u64, most: usize) -> usize
    requires { 0 < length buffer.old }
    ensures within { result ≤ length buffer.new }
    ensures read { take result buffer.new ≡ take result (drop offset bytes.now) }
    ensures held { result ≤ length (drop offset bytes.now) }
    ensures end { result ≡ 0 → length bytes.now ≤ offset }
{
    if offset >= bytes.len() as u64 {
        return 0;
    }
    let rest = &bytes[offset as usize..];
    let n = rest.len().min(buffer.len()).min(most.max(1));
    buffer[..n].copy_from_slice(&rest[..n]);
    n
}
