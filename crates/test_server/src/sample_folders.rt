//! Folders to begin with, and what is in them.

use crate::host::Host;
use std::alloc::{AllocError, Global};
use std::test::Fail;
use std::{env, fs, io, process};

/// The path of the name in the folder.
pub fn place_of(alloc: Global, root: &str, name: &str) -> Result<String, AllocError> {
    format!(in alloc; "{root}/{name}")
}

/// A new folder for the test with that name. It has a file `a` that contains `abc`, and nothing from an earlier run.
pub fn new_folder(rt: &HostRuntime, name: &str) -> io::Result<String> {
    let place = env::temp_dir(rt)?;
    let path = format!(in rt.alloc();
        "{}/server-{name}-{}",
        place.as_str(),
        process::id(rt.process())
    )?;
    let _ = fs::remove_dir_all(rt, path.as_str());
    fs::create_dir(rt, path.as_str())?;
    fs::write(
        rt,
        place_of(rt.alloc(), path.as_str(), "a")?.as_str(),
        "abc",
    )?;
    Ok(path)
}

/// What is at a name of a folder.
#[derive(Clone, Copy, Debug, PartialEq, Eq)]
pub enum Shown {
    Nothing,
    Folder,
    /// A file of that many bytes.
    File(u64),
}

/// What is at a name of the folder.
pub fn shown_at(rt: &impl Host, root: &str, name: &str) -> Result<Shown, AllocError> {
    let place = place_of(rt.alloc(), root, name)?;
    Ok(match fs::metadata(rt, place.as_str()) {
        Ok(found) if found.is_dir() => Shown::Folder,
        Ok(found) => Shown::File(found.len()),
        Err(_) => Shown::Nothing,
    })
}

/// Fails unless each of these names in the folder is as expected.
pub fn expect(rt: &impl Host, root: &str, after: &[(&str, Shown)]) -> Result<(), Fail> {
    for (name, wanted) in after {
        if shown_at(rt, root, name)? != *wanted {
            return Err(Fail::from(("it looks otherwise", *wanted)));
        }
    }
    Ok(())
}
