//! A folder with one file, which may have several names, in memory.

ghost use Rattle.std.specs.Prelude.{◌≡◌, ◌<◌, ◌≤◌, ◌++◌, ◌∷◌, [], IfOk, OnErr, OnOk, length, take, drop, filter, not};
ghost use Rattle.std.specs.List.{list_any};
ghost use Rattle.paths.specs.Prefixes.{is_name};

use backing::Bytes;
use paths::Name;
use std::alloc::{AllocError, Global};

/// What is open of it.
#[derive(Clone, Copy)]
pub enum FileHandle {
    Root,
    OfFile,
}

/// A folder with one file, which may have any number of names in the folder, or none. It shows that the clauses of a disk by objects can
/// be met, and that a LINK can be granted. What is not about the file's bytes and names it refuses.
#[derive(Drop)]
pub struct OneFile {
    pub(crate) alloc: Global,
    pub(crate) bytes: Bytes,
    pub(crate) names: Vec<Name>,
}

impl OneFile {
    ghost use Rattle.laws.specs.Objects.{HasOneName};
    ghost use Rattle.laws.specs.FileNames.{at_in};

    /// The file is empty, and has that name.
    pub fn new(alloc: Global, name: Name) -> Result<OneFile, AllocError>
        ensures { IfOk result (λ disk. HasOneName (at_in disk.names.items)) }
    {
        let mut names = Vec::new(alloc);
        names.push(name)?;
        Ok(OneFile {
            alloc,
            bytes: Bytes::new(alloc),
            names,
        })
    }
}

/// Whether both are the same name.
pub fn are_same(name: &Name, other: &Name) -> bool
    ensures { result ≡ is_name name.now other.now }
{
    name.is(other)
}

/// Whether it is one of the names.
pub fn has_name(names: &[Name], name: &Name) -> bool
    ensures { result ≡ list_any (λ other. is_name other name.now) names.now }
{
    names.iter().any(|other| are_same(other, name))
}

/// Adds a copy of the name. If memory is refused, the names do not change.
pub fn push_name(names: &mut Vec<Name>, name: &Name) -> Result<(), AllocError>
    ensures ok { OnOk result (names.new.items ≡ names.old.items ++ name.now ∷ []) }
    ensures err { OnErr result (names.new.items ≡ names.old.items) }
{
    let copy = name.copy()?;
    names.push(copy)?;
    Ok(())
}

/// Takes that name out of them.
pub fn drop_name(names: &mut Vec<Name>, name: &Name)
    ensures { names.new.items ≡ filter (λ other. not (is_name other name.now)) names.old.items }
{
    names.retain(|other| !are_same(other, name));
}

/// Reads bytes from the offset on to the buffer's start: how many.
pub fn read_part(bytes: &[u8], buffer: &mut [u8], offset: u64) -> usize
    requires { 0 < length buffer.old }
    ensures within { result ≤ length buffer.new }
    ensures read { take result buffer.new ≡ take result (drop offset bytes.now) }
    ensures held { result ≤ length (drop offset bytes.now) }
    ensures end { result ≡ 0 → length bytes.now ≤ offset }
{
    if offset >= bytes.len() as u64 {
        return 0;
    }
    let rest = &bytes[offset as usize..];
    let n = rest.len().min(buffer.len());
    buffer[..n].copy_from_slice(&rest[..n]);
    n
}
