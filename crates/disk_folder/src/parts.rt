//! Reads and writes of an open file, of which each may be of a part only.

ghost use Rattle.std.specs.Prelude.{ℕ, List, ◌≡◌, ◌≤◌, ◌<◌, ◌+◌, ◌^◌, Some, IfOk, IfErr, OnOk, length, take, drop};
ghost use Rattle.paths.specs.Prefixes.{Names};
ghost use Rattle.backing.specs.declared.entries.Item.TheVariants.{File};
ghost use Rattle.backing.specs.Files.{read};
ghost use Rattle.disk.specs.Answers.{AllStay, ReadsPart, Stays, WritesPart};
ghost use Rattle.disk_folder.specs.Parts.{WroteSoFar};
ghost use Rattle.disk_folder.specs.Troubles.{IsFailure};

use crate::trouble::{Trouble, failure};
use disk::Disk;
use errno::EIO;

/// Reads a part: how many bytes.
fn read_part<D: Disk>(
    disk: &D,
    file: &D::Handle,
    buffer: &mut [u8],
    offset: u64,
) -> Result<usize, Trouble>
    requires { 0 < length buffer.old }
    ensures within { IfOk result (λ n. n ≤ length buffer.new) }
    ensures bytes { IfOk result (λ n. (p : Names) → D.stands disk.now file.now p → ReadsPart (D.tree disk.now) p offset n buffer.new) }
    ensures err { IfErr result IsFailure }
{
    match disk.read_at(file, buffer, offset) {
        Ok(n) => Ok(n),
        Err(error) => Err(failure(error)),
    }
}

/// Reads until the buffer is full or the file ends: how many bytes.
pub fn read_all<D: Disk>(
    disk: &D,
    file: &D::Handle,
    buffer: &mut [u8],
    offset: u64,
) -> Result<usize, Trouble>
    requires { offset + length buffer.old < 2 ^ 64 }
    ensures within { IfOk result (λ n. n ≤ length buffer.new) }
    ensures bytes { IfOk result (λ n. (p : Names) (bytes : List ℕ) → D.stands disk.now file.now p → D.tree disk.now p ≡ Some (File bytes) → take n buffer.new ≡ read bytes offset (length buffer.new)) }
    ensures err { IfErr result IsFailure }
{
    let mut count = 0usize;
    while count < buffer.len() {
        let more = read_part(disk, file, &mut buffer[count..], offset + count as u64)?;
        if more == 0 {
            return Ok(count);
        }
        count += more;
    }
    Ok(count)
}

/// Writes a part: how many bytes.
fn write_part<D: Disk>(
    disk: &mut D,
    file: &D::Handle,
    bytes: &[u8],
    offset: u64,
) -> Result<usize, Trouble>
    requires { 0 < length bytes.now }
    ensures within { IfOk result (λ n. n ≤ length bytes.now) }
    ensures ok { IfOk result (λ n. (p : Names) → D.stands disk.old file.now p → WritesPart (D.tree disk.old) (D.stands disk.old) p offset bytes.now n (D.tree disk.new) (D.stands disk.new)) }
    ensures err { IfErr result (λ trouble. IsFailure trouble × ((p : Names) → D.stands disk.old file.now p → Stays (D.tree disk.old) (D.stands disk.old) (D.tree disk.new) (D.stands disk.new))) }
{
    match disk.write_at(file, bytes, offset) {
        Ok(n) => Ok(n),
        Err(error) => Err(failure(error)),
    }
}

/// Writes all of the bytes, part by part. Where it fails, the first of them may stand in the file.
pub fn write_all<D: Disk>(
    disk: &mut D,
    file: &D::Handle,
    bytes: &[u8],
    offset: u64,
) -> Result<(), Trouble>
    requires { offset + length bytes.now < 2 ^ 64 }
    ensures stay { (p : Names) (before : List ℕ) → D.stands disk.old file.now p → D.tree disk.old p ≡ Some (File before) → AllStay (D.stands disk.old) (D.stands disk.new) }
    ensures ok { OnOk result ((p : Names) (before : List ℕ) → D.stands disk.old file.now p → D.tree disk.old p ≡ Some (File before) → WroteSoFar (D.tree disk.old) p before offset bytes.now (length bytes.now) (D.tree disk.new)) }
    ensures err { IfErr result (λ trouble. IsFailure trouble × ((p : Names) (before : List ℕ) → D.stands disk.old file.now p → D.tree disk.old p ≡ Some (File before) → (n : ℕ) × (n < length bytes.now) × WroteSoFar (D.tree disk.old) p before offset bytes.now n (D.tree disk.new))) }
{
    let mut count = 0usize;
    while count < bytes.len() {
        match write_part(disk, file, &bytes[count..], offset + count as u64) {
            Ok(0) => return Err(Trouble::Failed(EIO)),
            Ok(more) => count += more,
            Err(trouble) => return Err(trouble),
        }
    }
    Ok(())
}
