//! Calls on what a file holds.

ghost use Rattle.std.specs.Prelude.{ℕ, List, ◌≡◌, ◌≤◌, ◌<◌, ◌+◌, ◌^◌, ◌++◌, [], Some, IfOk, IfErr, OnOk, length, take, drop, vec_len};
ghost use Rattle.paths.specs.Prefixes.{Names};
ghost use Rattle.backing.specs.declared.call.Answer.TheVariants.{Bytes, Done, Wrote};
ghost use Rattle.backing.specs.declared.entries.Item.TheVariants.{File};
ghost use Rattle.backing.specs.Calls.{AskRead, AskSetLen, AskWrite};
ghost use Rattle.backing.specs.Checks.{file_tests};
ghost use Rattle.backing.specs.Files.{read};
ghost use Rattle.disk_folder.specs.Ends.{Ends, IsRefused};
ghost use Rattle.disk_folder.specs.Standing.{AllStand};
ghost use Rattle.disk_folder.specs.Stays.{StaysOpen};
ghost use Rattle.disk_folder.specs.Suits.{Suits};
ghost use Rattle.disk_folder.specs.Troubles.{IsFailure};

use crate::finding::find_file;
use crate::look::look_open;
use crate::open_cache::OpenCache;
use crate::parts::{read_all, write_all};
use crate::stat::see;
use crate::trouble::{Reason, Trouble, failure};
use backing::Answer;
use disk::{Access, Disk};
use errno::{EINVAL, EIO};
use paths::Path;
use payload::{HEADER_ROOM, Kind, Payload};
use std::alloc::{AllocError, Global};
use std::mem::replace;

/// Fewer bytes than so many are copied in less time than a buffer is made anew.
const FEW: usize = 1024;

/// No file of the system is longer, in bytes.
const LONGEST: u64 = i64::MAX as u64;

/// A buffer of that length: the spare one where it is just as long, so that nothing is cleared which is overwritten, or else zeros.
fn buffer_of(alloc: Global, spare: &mut Vec<u8>, len: usize) -> Result<Vec<u8>, AllocError>
    ensures { IfOk result (λ buffer. vec_len buffer ≡ len) }
{
    if spare.len() == len {
        return Ok(replace(spare, Vec::new(alloc)));
    }
    vec![in alloc; 0u8; len]
}

/// So many bytes of what was read behind the room. A few of them are copied, and the buffer is kept: to clear another one takes longer.
fn cut(
    alloc: Global,
    spare: &mut Vec<u8>,
    mut buffer: Vec<u8>,
    count: usize,
) -> Result<Payload, AllocError>
    requires { HEADER_ROOM + count ≤ length buffer.items }
    ensures { IfOk result (λ payload. payload ≡ take count (drop HEADER_ROOM buffer.items)) }
{
    if count < FEW {
        let mut few = Vec::with_capacity(alloc, count)?;
        few.extend_from_slice(&buffer[HEADER_ROOM..HEADER_ROOM + count])?;
        *spare = buffer;
        return Ok(Payload::new(few));
    }
    buffer.truncate(HEADER_ROOM + count);
    Ok(Payload::behind(HEADER_ROOM, buffer))
}

/// Reads into the buffer behind the room, and cuts it where the file ends.
fn read_behind<D: Disk>(
    disk: &D,
    file: &D::Handle,
    spare: &mut Vec<u8>,
    mut buffer: Vec<u8>,
    offset: u64,
) -> Result<Answer, Trouble>
    requires room { HEADER_ROOM ≤ length buffer.items }
    requires fits { offset + length buffer.items < 2 ^ 64 }
    ensures ok { IfOk result (λ answer. (p : Names) (bytes : List ℕ) → D.stands disk.now file.now p → D.tree disk.now p ≡ Some (File bytes) → answer ≡ Bytes (read bytes offset (length (drop HEADER_ROOM buffer.items)))) }
    ensures short { IfOk result (λ answer. (bytes : List ℕ) × (answer ≡ Bytes bytes) × (length bytes ≤ length (drop HEADER_ROOM buffer.items))) }
    ensures err { IfErr result IsFailure }
{
    match read_all(disk, file, &mut buffer[HEADER_ROOM..], offset) {
        Ok(count) => {
            let bytes = cut(disk.alloc(), spare, buffer, count)?;
            Ok(Answer::Bytes(bytes))
        }
        Err(trouble) => Err(trouble),
    }
}

/// Reads where no file has that many bytes: the file's size tells that it has none there.
fn read_past<D: Disk>(disk: &D, file: &D::Handle, offset: u64) -> Result<Answer, Trouble>
    ensures ok { IfOk result (λ answer. (p : Names) (bytes : List ℕ) → D.stands disk.now file.now p → D.tree disk.now p ≡ Some (File bytes) → (length bytes ≤ offset) × (answer ≡ Bytes [])) }
    ensures none { IfOk result (λ answer. answer ≡ Bytes []) }
    ensures err { IfErr result IsFailure }
{
    match look_open(disk, file) {
        Ok(seen) => {
            if seen.size <= offset {
                Ok(Answer::Bytes(Payload::new(Vec::new(disk.alloc()))))
            } else {
                Err(Trouble::Failed(EINVAL))
            }
        }
        Err(_) => Err(Trouble::Failed(EIO)),
    }
}

/// Reads an open file.
fn read_open<D: Disk>(
    disk: &D,
    file: &D::Handle,
    spare: &mut Vec<u8>,
    offset: u64,
    size: u32,
) -> Result<Answer, Trouble>
    ensures ok { IfOk result (λ answer. (p : Names) (bytes : List ℕ) → D.stands disk.now file.now p → D.tree disk.now p ≡ Some (File bytes) → answer ≡ Bytes (read bytes offset size)) }
    ensures short { IfOk result (λ answer. (bytes : List ℕ) × (answer ≡ Bytes bytes) × (length bytes ≤ size)) }
    ensures err { IfErr result IsFailure }
{
    if offset > LONGEST - u64::from(size) {
        return read_past(disk, file, offset);
    }
    let buffer = buffer_of(disk.alloc(), spare, HEADER_ROOM + size as usize)?;
    read_behind(disk, file, spare, buffer, offset)
}

/// Reads the file: one call of the system where it is kept open and gives all at once.
pub fn read<D: Disk>(
    disk: &D,
    cache: &mut OpenCache<D::Handle>,
    spare: &mut Vec<u8>,
    path: &Path,
    offset: u64,
    size: u32,
) -> Result<Answer, Trouble>
    ensures suits { IfOk result (Suits (AskRead path.now offset size)) }
    ensures ends { AllStand (D.tree disk.now) (D.stands disk.now) cache.old → Ends (D.tree disk.now) (AskRead path.now offset size) result (D.tree disk.now) }
    ensures stand { AllStand (D.tree disk.now) (D.stands disk.now) cache.old → AllStand (D.tree disk.now) (D.stands disk.now) cache.new }
{
    match find_file(disk, cache, path, Access::Read) {
        Ok(file) => read_open(disk, &cache.open(&file).handle, spare, offset, size),
        Err(trouble) => Err(trouble),
    }
}

/// A file stands there: one look.
fn see_file<D: Disk>(disk: &D, cache: &mut OpenCache<D::Handle>, path: &Path) -> Result<(), Trouble>
    ensures ok { AllStand (D.tree disk.now) (D.stands disk.now) cache.old → OnOk result ((bytes : List ℕ) × (D.tree disk.now path.now ≡ Some (File bytes))) }
    ensures err { AllStand (D.tree disk.now) (D.stands disk.now) cache.old → IfErr result (IsRefused (D.tree disk.now) (file_tests path.now)) }
    ensures stand { AllStand (D.tree disk.now) (D.stands disk.now) cache.old → AllStand (D.tree disk.now) (D.stands disk.now) cache.new }
{
    match see(disk, cache, path) {
        Ok(seen) => match seen.kind {
            Kind::File => Ok(()),
            Kind::Folder => Err(Trouble::Refused(Reason::Folder)),
            Kind::Link | Kind::Special(_) => Err(Trouble::Refused(Reason::NoFile)),
        },
        Err(trouble) => Err(trouble),
    }
}

/// Writes an open file.
fn write_open<D: Disk>(
    disk: &mut D,
    file: &D::Handle,
    offset: u64,
    bytes: &[u8],
) -> Result<Answer, Trouble>
    requires { 0 < length bytes.now }
    ensures suits { IfOk result (λ answer. answer ≡ Wrote (length bytes.now)) }
    ensures ends { (p : Names) (before : List ℕ) → D.stands disk.old file.now p → D.tree disk.old p ≡ Some (File before) → Ends (D.tree disk.old) (AskWrite p offset bytes.now) result (D.tree disk.new) }
    ensures stay { (p : Names) (before : List ℕ) → D.stands disk.old file.now p → D.tree disk.old p ≡ Some (File before) → StaysOpen (D.tree disk.old) (D.stands disk.old) (D.tree disk.new) (D.stands disk.new) }
{
    if offset.checked_add(bytes.len() as u64).is_none() {
        return Err(Trouble::Failed(EIO));
    }
    match write_all(disk, file, bytes, offset) {
        Ok(()) => Ok(Answer::Wrote(bytes.len())),
        Err(trouble) => Err(trouble),
    }
}

/// Lays the bytes over the file: one call of the system where it is kept open and takes all at once.
pub fn write<D: Disk>(
    disk: &mut D,
    cache: &mut OpenCache<D::Handle>,
    path: &Path,
    offset: u64,
    bytes: &[u8],
) -> Result<Answer, Trouble>
    ensures suits { IfOk result (Suits (AskWrite path.now offset bytes.now)) }
    ensures ends { AllStand (D.tree disk.old) (D.stands disk.old) cache.old → Ends (D.tree disk.old) (AskWrite path.now offset bytes.now) result (D.tree disk.new) }
    ensures stand { AllStand (D.tree disk.old) (D.stands disk.old) cache.old → AllStand (D.tree disk.new) (D.stands disk.new) cache.new }
{
    if bytes.is_empty() {
        return match see_file(disk, cache, path) {
            Ok(()) => Ok(Answer::Wrote(0)),
            Err(trouble) => Err(trouble),
        };
    }
    match find_file(disk, cache, path, Access::Write) {
        Ok(file) => write_open(disk, &cache.open(&file).handle, offset, bytes),
        Err(trouble) => Err(trouble),
    }
}

/// Gives an open file that length.
fn set_len_open<D: Disk>(disk: &mut D, file: &D::Handle, size: u64) -> Result<Answer, Trouble>
    ensures suits { IfOk result (λ answer. answer ≡ Done) }
    ensures ends { (p : Names) (before : List ℕ) → D.stands disk.old file.now p → D.tree disk.old p ≡ Some (File before) → Ends (D.tree disk.old) (AskSetLen p size) result (D.tree disk.new) }
    ensures stay { (p : Names) (before : List ℕ) → D.stands disk.old file.now p → D.tree disk.old p ≡ Some (File before) → StaysOpen (D.tree disk.old) (D.stands disk.old) (D.tree disk.new) (D.stands disk.new) }
{
    match disk.set_len(file, size) {
        Ok(()) => Ok(Answer::Done),
        Err(error) => Err(failure(error)),
    }
}

/// Gives the file that length: one call of the system where it is kept open.
pub fn set_len<D: Disk>(
    disk: &mut D,
    cache: &mut OpenCache<D::Handle>,
    path: &Path,
    size: u64,
) -> Result<Answer, Trouble>
    ensures suits { IfOk result (Suits (AskSetLen path.now size)) }
    ensures ends { AllStand (D.tree disk.old) (D.stands disk.old) cache.old → Ends (D.tree disk.old) (AskSetLen path.now size) result (D.tree disk.new) }
    ensures stand { AllStand (D.tree disk.old) (D.stands disk.old) cache.old → AllStand (D.tree disk.new) (D.stands disk.new) cache.new }
{
    match find_file(disk, cache, path, Access::Write) {
        Ok(file) => set_len_open(disk, &cache.open(&file).handle, size),
        Err(trouble) => Err(trouble),
    }
}
