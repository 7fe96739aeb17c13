//! Trees to start from.

use crate::asking::path_of;
use backing::MemTree;
use disk::MemoryDisk;
use std::alloc::{AllocError, Global};
use std::test::Fail;
use std::{env, fs, io, process};

/// The file `a` with the bytes `abc`, the folder `d` and the empty file `e`.
pub fn sample_tree(alloc: Global) -> Result<MemTree, Fail> {
    let mut tree = MemTree::new(alloc);
    let a = tree.put_file(&path_of(alloc, "a")?, b"abc");
    let d = tree.put_dir(&path_of(alloc, "d")?);
    let e = tree.put_file(&path_of(alloc, "e")?, b"");
    if (a, d, e) == (Ok(()), Ok(()), Ok(())) {
        return Ok(tree);
    }
    Err(Fail::from("not all of the sample was put"))
}

/// Puts the sample on a disk that is lent, so that nothing drops it where this fails.
fn put_sample(alloc: Global, disk: &mut MemoryDisk) -> Result<(), Fail> {
    disk.put_file(&path_of(alloc, "a")?, b"abc")?;
    disk.put_dir(&path_of(alloc, "d")?)?;
    disk.put_file(&path_of(alloc, "e")?, b"")?;
    Ok(())
}

/// The same sample on a disk in memory.
pub fn sample_disk(alloc: Global) -> Result<MemoryDisk, Fail> {
    let mut disk = MemoryDisk::new(alloc)?;
    put_sample(alloc, &mut disk)?;
    Ok(disk)
}

/// The path of the name in the folder.
pub fn place_of(alloc: Global, root: &str, name: &str) -> Result<String, AllocError> {
    format!(in alloc; "{root}/{name}")
}

/// A new empty folder for the test of that name, with nothing of an earlier run in it.
pub fn new_folder(rt: &HostRuntime, name: &str) -> io::Result<String> {
    let place = env::temp_dir(rt)?;
    let path = format!(in rt.alloc();
        "{}/backing-{name}-{}",
        place.as_str(),
        process::id(rt.process())
    )?;
    let _ = fs::remove_dir_all(rt, path.as_str());
    fs::create_dir(rt, path.as_str())?;
    Ok(path)
}

/// The same sample in a new real folder.
pub fn sample_folder(rt: &HostRuntime, name: &str) -> io::Result<String> {
    let root = new_folder(rt, name)?;
    let alloc = rt.alloc();
    fs::write(rt, place_of(alloc, root.as_str(), "a")?.as_str(), "abc")?;
    fs::create_dir(rt, place_of(alloc, root.as_str(), "d")?.as_str())?;
    fs::write(rt, place_of(alloc, root.as_str(), "e")?.as_str(), "")?;
    Ok(root)
}
