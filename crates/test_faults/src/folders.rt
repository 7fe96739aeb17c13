//! The slow program's requests of open folders.

use crate::answers::{Answer, done, entry_of, failed, kind_of, plain};
use crate::asks::Ask;
use crate::items::{Item, Told, stat};
use crate::world::{Listed, SlowNode, World};
use errno::EBADF;
use payload::{Kind, Payload};
use std::alloc::{AllocError, Global};
use wire::{ReplyBody, encode_plus_dirent};

/// The names in the root, without those that the server reserves for itself.
fn names_of(alloc: Global, items: &[Item]) -> Result<Vec<&'static [u8]>, AllocError> {
    let mut names = Vec::new(alloc);
    for item in items {
        if let Some(name) = item.name {
            if !name.starts_with(b".fuse_hidden") {
                names.push(name)?;
            }
        }
    }
    Ok(names)
}

/// The same names sorted by bytes, each with what it is.
fn listing_of(alloc: Global, items: &[Item]) -> Result<Vec<Listed>, AllocError> {
    let mut names = names_of(alloc, items)?;
    names.sort()?;
    let mut listing = Vec::new(alloc);
    for name in names {
        listing.push(Listed {
            name,
            kind: kind_of(stat(items, name)),
        })?;
    }
    Ok(listing)
}

/// A page that begins with `.` and `..`, for which no entry is given.
fn page_of(alloc: Global) -> Result<Vec<u8>, AllocError> {
    let mut page = Vec::new(alloc);
    encode_plus_dirent(&mut page, None, 1, Kind::Folder, b".")?;
    encode_plus_dirent(&mut page, None, 2, Kind::Folder, b"..")?;
    Ok(page)
}

impl World {
    /// The names of the open folder with that handle. Only the root is opened.
    fn names_under(&self, node: u64, handle: u64) -> Result<Option<Vec<Listed>>, AllocError> {
        let Some(listing) = &self.listing else {
            return Ok(None);
        };
        if node != 1 || handle != self.last_folder {
            return Ok(None);
        }
        let mut names = Vec::new(self.alloc);
        names.extend_from_slice(listing)?;
        Ok(Some(names))
    }

    /// OPENDIR of the root.
    pub fn open_folder(&mut self) -> Result<Answer, AllocError> {
        let alloc = self.alloc;
        match self.ask(Ask::List)? {
            Told::Error(errno) => return Ok(failed(alloc, errno)),
            _ => {}
        }
        self.listing = Some(listing_of(alloc, &self.items)?);
        self.last_folder = self.last_folder.saturating_add(1);
        let fh = self.last_folder;
        Ok(Answer {
            listed: true,
            ..plain(alloc, ReplyBody::Opened { fh })
        })
    }

    /// Adds a name to a page, with its entry if something was found there.
    fn add_name(
        &mut self,
        page: &mut Vec<u8>,
        given: &mut Vec<SlowNode>,
        next: u64,
        listed: Listed,
    ) -> Result<(), AllocError> {
        let name = listed.name;
        match self.ask(Ask::Stat(name))? {
            Told::Error(_) => encode_plus_dirent(page, None, next, listed.kind, name),
            found => {
                let node = self.enter(name)?;
                given.push(node)?;
                let entry = entry_of(node, found);
                encode_plus_dirent(page, Some(entry), next, kind_of(found), name)
            }
        }
    }

    /// READDIRPLUS from the beginning. All names of the session fit in one page.
    pub fn read_entries(&mut self, node: u64, handle: u64) -> Result<Answer, AllocError> {
        let alloc = self.alloc;
        let Some(names) = self.names_under(node, handle)? else {
            return Ok(failed(alloc, EBADF));
        };
        let mut page = page_of(alloc)?;
        let mut given = Vec::new(alloc);
        let mut next = 2u64;
        for listed in names {
            next = next.saturating_add(1);
            self.add_name(&mut page, &mut given, next, listed)?;
        }
        Ok(Answer {
            given,
            ..plain(alloc, ReplyBody::Data(Payload::new(page)))
        })
    }

    /// RELEASEDIR.
    pub fn close_folder(&mut self, node: u64, handle: u64) -> Result<Answer, AllocError> {
        match self.names_under(node, handle)? {
            Some(_) => {
                self.listing = None;
                Ok(done(self.alloc))
            }
            None => Ok(failed(self.alloc, EBADF)),
        }
    }
}
