//! Opcodes.

ghost use Rattle.std.specs.Prelude.{◌≢◌, ◌↔◌, IsTrue};

/// `FUSE_LOOKUP` of `fuse.h`: looks a name up in a folder.
pub const LOOKUP: u32 = 1;

/// `FUSE_FORGET` of `fuse.h`: forgets lookups of a node.
pub const FORGET: u32 = 2;

/// `FUSE_GETATTR` of `fuse.h`: asks for the attributes of a node.
pub const GETATTR: u32 = 3;

/// `FUSE_SETATTR` of `fuse.h`: changes attributes of a node.
pub const SETATTR: u32 = 4;

/// `FUSE_READLINK` of `fuse.h`: asks for the text of a symbolic link.
pub const READLINK: u32 = 5;

/// `FUSE_SYMLINK` of `fuse.h`: makes a symbolic link.
pub const SYMLINK: u32 = 6;

/// `FUSE_MKDIR` of `fuse.h`: makes a folder.
pub const MKDIR: u32 = 9;

/// `FUSE_UNLINK` of `fuse.h`: removes the name of a file.
pub const UNLINK: u32 = 10;

/// `FUSE_RMDIR` of `fuse.h`: removes an empty folder.
pub const RMDIR: u32 = 11;

/// `FUSE_RENAME` of `fuse.h`: gives a node another name.
pub const RENAME: u32 = 12;

/// `FUSE_LINK` of `fuse.h`: gives a node a further name.
pub const LINK: u32 = 13;

/// `FUSE_OPEN` of `fuse.h`: opens a file.
pub const OPEN: u32 = 14;

/// `FUSE_READ` of `fuse.h`: reads bytes of an open file.
pub const READ: u32 = 15;

/// `FUSE_WRITE` of `fuse.h`: writes bytes of an open file.
pub const WRITE: u32 = 16;

/// `FUSE_STATFS` of `fuse.h`: asks for the sizes of the file system.
pub const STATFS: u32 = 17;

/// `FUSE_RELEASE` of `fuse.h`: closes a file.
pub const RELEASE: u32 = 18;

/// `FUSE_FSYNC` of `fuse.h`: writes an open file to the disk.
pub const FSYNC: u32 = 20;

/// `FUSE_FLUSH` of `fuse.h`: says that a descriptor of an open file was closed.
pub const FLUSH: u32 = 25;

/// `FUSE_INIT` of `fuse.h`: agrees on a version.
pub const INIT: u32 = 26;

/// `FUSE_OPENDIR` of `fuse.h`: opens a folder.
pub const OPENDIR: u32 = 27;

/// `FUSE_READDIR` of `fuse.h`: asks for names of an open folder.
pub const READDIR: u32 = 28;

/// `FUSE_RELEASEDIR` of `fuse.h`: closes a folder.
pub const RELEASEDIR: u32 = 29;

/// `FUSE_FSYNCDIR` of `fuse.h`: writes an open folder to the disk.
pub const FSYNCDIR: u32 = 30;

/// `FUSE_CREATE` of `fuse.h`: makes a file and opens it.
pub const CREATE: u32 = 35;

/// `FUSE_INTERRUPT` of `fuse.h`: asks to give up a request in progress.
pub const INTERRUPT: u32 = 36;

/// `FUSE_DESTROY` of `fuse.h`: ends the session.
pub const DESTROY: u32 = 38;

/// `FUSE_BATCH_FORGET` of `fuse.h`: forgets lookups of several nodes.
pub const BATCH_FORGET: u32 = 42;

/// `FUSE_READDIRPLUS` of `fuse.h`: asks for names of an open folder, and looks each up.
pub const READDIRPLUS: u32 = 44;

/// `FUSE_RENAME2` of `fuse.h`: gives a node another name, with flags.
pub const RENAME2: u32 = 45;

/// Whether a frame with this opcode is answered. A frame of the other opcodes gets no reply even if it is faulty.
pub fn has_reply(opcode: u32) -> bool
    ensures { IsTrue result ↔ ((opcode ≢ FORGET) × (opcode ≢ INTERRUPT) × (opcode ≢ BATCH_FORGET)) }
{
    !matches!(opcode, FORGET | INTERRUPT | BATCH_FORGET)
}
