//! The calls that change a file's bytes.

ghost use Rattle.std.specs.Prelude.{◌≡◌, ◌<◌, ◌+◌, ◌^◌, OnOk, OnErr, length, slice_set, slice_index_or};
ghost use Rattle.backing.specs.Calls.{AskWrite, AskSetLen};
ghost use Rattle.backing.specs.Entries.{tree_of, IsEntryTree};
ghost use Rattle.backing.specs.Refusals.{Ends};
ghost use Rattle.backing.specs.declared.entries.TreeEntry.{TreeEntry};
ghost use Rattle.backing.specs.Items.{item_written, item_resized, entry_written, entry_resized};

use crate::call::Answer;
use crate::checks::{expect_file, expect_fits};
use crate::entries::{Item, TreeEntry};
use crate::refusal::Refusal;
use paths::Path;
use std::alloc::AllocError;

/// Writes the piece to the file.
pub fn write(
    entries: &mut Vec<TreeEntry>,
    path: &Path,
    offset: u64,
    piece: &[u8],
) -> Result<Answer, Refusal>
    requires { IsEntryTree entries.old.items }
    ensures ends { Ends (tree_of entries.old.items) (AskWrite path.now offset piece.now) result (tree_of entries.new.items) }
    ensures lawful { IsEntryTree entries.new.items }
{
    let i = expect_file(entries, path)?;
    if piece.is_empty() {
        return Ok(Answer::Wrote(0));
    }
    expect_fits(entries, offset.saturating_add(piece.len() as u64))?;
    write_at(entries, i, offset as usize, piece)?;
    Ok(Answer::Wrote(piece.len()))
}

/// Truncates the file, or extends it with zeros.
pub fn set_len(entries: &mut Vec<TreeEntry>, path: &Path, size: u64) -> Result<Answer, Refusal>
    requires { IsEntryTree entries.old.items }
    ensures ends { Ends (tree_of entries.old.items) (AskSetLen path.now size) result (tree_of entries.new.items) }
    ensures lawful { IsEntryTree entries.new.items }
{
    let i = expect_file(entries, path)?;
    expect_fits(entries, size)?;
    set_len_at(entries, i, size as usize)?;
    Ok(Answer::Done)
}

/// Writes the piece to the file of that entry.
fn write_at(
    entries: &mut Vec<TreeEntry>,
    i: usize,
    offset: usize,
    piece: &[u8],
) -> Result<(), AllocError>
    requires within { i < length entries.old.items }
    requires fits { offset + length piece.now < 2 ^ 64 }
    ensures ok { OnOk result ((d : TreeEntry) → entries.new.items ≡ slice_set entries.old.items i (entry_written (slice_index_or entries.old.items i d) offset piece.now)) }
    ensures err { OnErr result (entries.new.items ≡ entries.old.items) }
{
    let entry = &mut entries[i];
    write_item(&mut entry.item, offset, piece)
}

/// Sets the length of the file of that entry.
fn set_len_at(entries: &mut Vec<TreeEntry>, i: usize, size: usize) -> Result<(), AllocError>
    requires within { i < length entries.old.items }
    ensures ok { OnOk result ((d : TreeEntry) → entries.new.items ≡ slice_set entries.old.items i (entry_resized (slice_index_or entries.old.items i d) size)) }
    ensures err { OnErr result (entries.new.items ≡ entries.old.items) }
{
    let entry = &mut entries[i];
    resize_item(&mut entry.item, size)
}

/// Writes the piece to the bytes, if the item is a file.
fn write_item(item: &mut Item, offset: usize, piece: &[u8]) -> Result<(), AllocError>
    requires { offset + length piece.now < 2 ^ 64 }
    ensures ok { OnOk result (item.new ≡ item_written item.old offset piece.now) }
    ensures err { OnErr result (item.new ≡ item.old) }
{
    match item {
        Item::Folder | Item::Link(_) | Item::Special(_) => Ok(()),
        Item::File(bytes) => bytes.write(offset, piece),
    }
}

/// Sets the number of bytes, if the item is a file.
fn resize_item(item: &mut Item, size: usize) -> Result<(), AllocError>
    ensures ok { OnOk result (item.new ≡ item_resized item.old size) }
    ensures err { OnErr result (item.new ≡ item.old) }
{
    match item {
        Item::Folder | Item::Link(_) | Item::Special(_) => Ok(()),
        Item::File(bytes) => bytes.set_len(size),
    }
}
