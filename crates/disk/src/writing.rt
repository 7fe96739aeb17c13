//! Changes of a file's bytes in memory.

ghost use Rattle.std.specs.Prelude.{ℕ, List, ◌≡◌, ◌<◌, ◌≤◌, Some, IfErr, IfOk, OnErr, OnOk, length};
ghost use Rattle.backing.specs.Files.{written, resized};
ghost use Rattle.disk.specs.Answers.{Writes, Cuts};
ghost use Rattle.disk.specs.Spots.{tree_of, path_of, stands_in, IsLawful, IsFailure, NoneComes, ChangesAt, ChangesBytes};

use crate::error::DiskError;
use crate::finding::index_of;
use crate::spot::{Content, Spot};
use backing::MAX_FILE_LEN;
use errno::{EBADF, EFBIG, EINVAL, ENOMEM};

/// Writes so many bytes at most, or one where that is none.
pub fn write(
    spots: &mut Vec<Spot>,
    number: u64,
    bytes: &[u8],
    offset: u64,
    most: usize,
) -> Result<usize, DiskError>
    requires lawful { IsLawful spots.old.items }
    requires some { 0 < length bytes.now }
    ensures within { IfOk result (λ n. n ≤ length bytes.now) }
    ensures writes { (p : List (List ℕ)) → path_of spots.old.items number ≡ Some p → Writes (tree_of spots.old.items) (stands_in spots.old.items) p offset bytes.now result (tree_of spots.new.items) (stands_in spots.new.items) }
    ensures lawful { IsLawful spots.new.items }
    ensures none { NoneComes spots.old.items spots.new.items }
{
    let Some(i) = index_of(spots, number) else {
        return Err(DiskError::Failed(EBADF));
    };
    let n = bytes.len().min(most.max(1));
    match write_spot(spots, i, &bytes[..n], offset) {
        Ok(()) => Ok(n),
        Err(error) => Err(error),
    }
}

/// Writes all of them into that spot, or none.
fn write_spot(spots: &mut Vec<Spot>, i: usize, piece: &[u8], offset: u64) -> Result<(), DiskError>
    requires { i < length spots.old.items }
    ensures ok { OnOk result (ChangesAt spots.old.items i (λ bytes. written bytes offset piece.now) spots.new.items) }
    ensures err { OnErr result (spots.new.items ≡ spots.old.items) }
    ensures failure { IfErr result IsFailure }
{
    let spot = &mut spots[i];
    write_content(&mut spot.content, piece, offset)
}

/// Writes all of them, or none.
fn write_content(content: &mut Content, piece: &[u8], offset: u64) -> Result<(), DiskError>
    ensures ok { OnOk result (ChangesBytes content.old (λ bytes. written bytes offset piece.now) content.new) }
    ensures err { OnErr result (content.new ≡ content.old) }
    ensures failure { IfErr result IsFailure }
{
    if offset.saturating_add(piece.len() as u64) > MAX_FILE_LEN {
        return Err(DiskError::Failed(EFBIG));
    }
    match content {
        Content::Folder | Content::Link(_) | Content::Special(_) => Err(DiskError::Failed(EBADF)),
        Content::File(bytes) => match bytes.write(offset as usize, piece) {
            Ok(()) => Ok(()),
            Err(_) => Err(DiskError::Failed(ENOMEM)),
        },
    }
}

/// Cuts the file, or fills it with zeros.
pub fn set_len(spots: &mut Vec<Spot>, number: u64, size: u64) -> Result<(), DiskError>
    requires { IsLawful spots.old.items }
    ensures cuts { (p : List (List ℕ)) → path_of spots.old.items number ≡ Some p → Cuts (tree_of spots.old.items) (stands_in spots.old.items) p size result (tree_of spots.new.items) (stands_in spots.new.items) }
    ensures lawful { IsLawful spots.new.items }
    ensures none { NoneComes spots.old.items spots.new.items }
{
    let Some(i) = index_of(spots, number) else {
        return Err(DiskError::Failed(EBADF));
    };
    match cut_spot(spots, i, size) {
        Ok(()) => Ok(()),
        Err(error) => Err(error),
    }
}

/// Cuts the file of that spot.
fn cut_spot(spots: &mut Vec<Spot>, i: usize, size: u64) -> Result<(), DiskError>
    requires { i < length spots.old.items }
    ensures ok { OnOk result (ChangesAt spots.old.items i (λ bytes. resized size bytes) spots.new.items) }
    ensures err { OnErr result (spots.new.items ≡ spots.old.items) }
    ensures failure { IfErr result IsFailure }
{
    let spot = &mut spots[i];
    cut_content(&mut spot.content, size)
}

/// Cuts the bytes, or fills them with zeros.
fn cut_content(content: &mut Content, size: u64) -> Result<(), DiskError>
    ensures ok { OnOk result (ChangesBytes content.old (λ bytes. resized size bytes) content.new) }
    ensures err { OnErr result (content.new ≡ content.old) }
    ensures failure { IfErr result IsFailure }
{
    if size > MAX_FILE_LEN {
        return Err(DiskError::Failed(EFBIG));
    }
    match content {
        Content::Folder | Content::Link(_) | Content::Special(_) => Err(DiskError::Failed(EINVAL)),
        Content::File(bytes) => match bytes.set_len(size as usize) {
            Ok(()) => Ok(()),
            Err(_) => Err(DiskError::Failed(ENOMEM)),
        },
    }
}
