//! The slow program's requests of names and files.

use crate::answers::{Answer, done, entered, failed, plain};
use crate::asks::Ask;
use crate::items::{Told, text_at};
use crate::world::{SlowNode, World, is_open, node_at, node_of};
use errno::{EBADF, EBUSY, EINVAL, EIO, EISDIR, ENOENT, ESTALE};
use payload::Payload;
use std::alloc::AllocError;
use table_files::{Access, OpenEntry, OpenFile};
use wire::ReplyBody;

/// The names under which the open file of node 2 may be hidden by its first hiding. No run of the session hides another
/// file, or hides twice.
const CANDIDATES: [&[u8]; 10] = [
    b".fuse_hidden0000000200000000",
    b".fuse_hidden0000000200000001",
    b".fuse_hidden0000000200000002",
    b".fuse_hidden0000000200000003",
    b".fuse_hidden0000000200000004",
    b".fuse_hidden0000000200000005",
    b".fuse_hidden0000000200000006",
    b".fuse_hidden0000000200000007",
    b".fuse_hidden0000000200000008",
    b".fuse_hidden0000000200000009",
];

impl World {
    /// The open file with that handle, if it is of that node.
    fn file_of(&self, node: u64, handle: u64) -> Option<OpenFile> {
        for entry in &self.files {
            if entry.handle == handle && entry.file.number == node {
                return Some(entry.file);
            }
        }
        None
    }

    /// The name of the node, if it has one.
    fn name_of(&self, number: u64) -> Option<&'static [u8]> {
        node_of(&self.nodes, number)?.name
    }

    /// LOOKUP.
    pub fn lookup(&mut self, name: &'static [u8]) -> Result<Answer, AllocError> {
        let alloc = self.alloc;
        match self.ask(Ask::Stat(name))? {
            Told::Error(errno) => Ok(failed(alloc, errno)),
            found => {
                let node = self.enter(name)?;
                entered(alloc, node, found)
            }
        }
    }

    /// MKDIR.
    pub fn make_folder(&mut self, name: &'static [u8]) -> Result<Answer, AllocError> {
        match self.ask(Ask::MakeDir(name))? {
            Told::Error(errno) => Ok(failed(self.alloc, errno)),
            _ => self.lookup(name),
        }
    }

    /// SYMLINK. All texts of the session are lawful.
    pub fn make_link(
        &mut self,
        name: &'static [u8],
        text: &'static [u8],
    ) -> Result<Answer, AllocError> {
        match self.ask(Ask::MakeLink(name, text))? {
            Told::Error(errno) => Ok(failed(self.alloc, errno)),
            _ => self.lookup(name),
        }
    }

    /// READLINK.
    pub fn read_link(&mut self, number: u64) -> Result<Answer, AllocError> {
        let alloc = self.alloc;
        let Some(name) = self.name_of(number) else {
            return Ok(failed(alloc, ESTALE));
        };
        match self.ask(Ask::ReadLink(name))? {
            Told::Error(errno) => Ok(failed(alloc, errno)),
            _ => {
                let text = text_at(alloc, &self.items, name)?;
                Ok(plain(alloc, ReplyBody::Data(Payload::new(text))))
            }
        }
    }

    /// LINK. No tree of the session gives a file a further name.
    pub fn link(&mut self, number: u64, name: &'static [u8]) -> Result<Answer, AllocError> {
        let alloc = self.alloc;
        let Some(old) = self.name_of(number) else {
            return Ok(failed(alloc, ESTALE));
        };
        match self.ask(Ask::Link(old, name))? {
            Told::Error(errno) => Ok(failed(alloc, errno)),
            _ => self.lookup(name),
        }
    }

    /// OPEN for reading and writing.
    pub fn open(&mut self, number: u64) -> Result<Answer, AllocError> {
        let alloc = self.alloc;
        let Some(node) = node_of(&self.nodes, number) else {
            return Ok(failed(alloc, ESTALE));
        };
        let Some(name) = node.name else {
            return Ok(failed(alloc, ESTALE));
        };
        match self.ask(Ask::Stat(name))? {
            Told::Error(errno) => return Ok(failed(alloc, errno)),
            Told::Folder => return Ok(failed(alloc, EISDIR)),
            Told::Link(_) => return Ok(failed(alloc, EINVAL)),
            _ => {}
        }
        let handle = self.last_file.saturating_add(1);
        self.last_file = handle;
        self.files.push(OpenEntry {
            handle,
            file: OpenFile {
                number,
                generation: node.generation,
                access: Access::Both,
            },
        })?;
        Ok(Answer {
            opened: Some(handle),
            ..plain(alloc, ReplyBody::Opened { fh: handle })
        })
    }

    /// WRITE. All files of the session are open for writing.
    pub fn write(
        &mut self,
        node: u64,
        handle: u64,
        offset: u64,
        data: &'static [u8],
    ) -> Result<Answer, AllocError> {
        let alloc = self.alloc;
        if self.file_of(node, handle).is_none() {
            return Ok(failed(alloc, EBADF));
        }
        let Some(name) = self.name_of(node) else {
            return Ok(failed(alloc, ESTALE));
        };
        Ok(match self.ask(Ask::Write(name, offset, data))? {
            Told::Error(errno) => failed(alloc, errno),
            Told::Wrote(size) => plain(alloc, ReplyBody::Wrote { size }),
            _ => failed(alloc, EIO),
        })
    }

    /// The first candidate at which nothing is, or the error of a Stat.
    fn find_candidate(&mut self) -> Result<Result<&'static [u8], i32>, AllocError> {
        for candidate in CANDIDATES {
            match self.ask(Ask::Stat(candidate))? {
                Told::Error(ENOENT) => return Ok(Ok(candidate)),
                Told::Error(errno) => return Ok(Err(errno)),
                _ => {}
            }
        }
        Ok(Err(EBUSY))
    }

    /// UNLINK of a name whose node has an open file.
    fn hide(&mut self, name: &'static [u8]) -> Result<Answer, AllocError> {
        let alloc = self.alloc;
        self.counter = self.counter.wrapping_add(10);
        let candidate = match self.find_candidate()? {
            Ok(candidate) => candidate,
            Err(errno) => return Ok(failed(alloc, errno)),
        };
        match self.ask(Ask::Rename(name, candidate))? {
            Told::Error(errno) => return Ok(failed(alloc, errno)),
            _ => {}
        }
        self.place(name, Some(candidate), true);
        Ok(done(alloc))
    }

    fn has_open_file(&self, node: Option<SlowNode>) -> bool {
        match node {
            Some(node) => is_open(&self.files, node.number),
            None => false,
        }
    }

    /// UNLINK.
    pub fn unlink(&mut self, name: &'static [u8]) -> Result<Answer, AllocError> {
        if self.has_open_file(node_at(&self.nodes, name)) {
            return self.hide(name);
        }
        self.remove(name, Ask::Remove(name))
    }

    /// RMDIR, and UNLINK of a name whose node has no open file.
    pub fn remove(&mut self, name: &'static [u8], ask: Ask) -> Result<Answer, AllocError> {
        match self.ask(ask)? {
            Told::Error(errno) => return Ok(failed(self.alloc, errno)),
            _ => {}
        }
        self.place(name, None, false);
        Ok(done(self.alloc))
    }

    /// RENAME to a name whose node, if any, has no open file.
    pub fn rename(
        &mut self,
        name: &'static [u8],
        new: &'static [u8],
    ) -> Result<Answer, AllocError> {
        match self.ask(Ask::Rename(name, new))? {
            Told::Error(errno) => return Ok(failed(self.alloc, errno)),
            _ => {}
        }
        self.place(new, None, false);
        self.place(name, Some(new), false);
        Ok(done(self.alloc))
    }

    /// RELEASE. The last handle of a hidden file removes it, and the reply is 0 whatever the call answers.
    pub fn release(&mut self, number: u64, handle: u64) -> Result<Answer, AllocError> {
        let alloc = self.alloc;
        if self.file_of(number, handle).is_none() {
            return Ok(failed(alloc, EBADF));
        }
        self.close(handle)?;
        let Some(node) = node_of(&self.nodes, number) else {
            return Ok(done(alloc));
        };
        match node.name {
            Some(name) if node.is_hidden && !is_open(&self.files, number) => {
                self.remove(name, Ask::Remove(name))?;
            }
            _ => {}
        }
        Ok(done(alloc))
    }
}
