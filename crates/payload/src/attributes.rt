//! What a file is, and what is known of it besides its bytes. Directories, the protocol and all between them share these types.

/// What is neither a folder, a file nor a link: nobody reads or writes it through the server.
#[derive(Clone, Copy, Debug, PartialEq, Eq)]
pub enum Special {
    Pipe,
    Socket,
    /// A character device, with its number as `rdev` of `fuse.h` has it.
    Character(u32),
    /// A block device, with its number.
    Block(u32),
}

/// The kind of what is at a path.
#[derive(Clone, Copy, Debug, PartialEq, Eq)]
pub enum Kind {
    Folder,
    /// A regular file.
    File,
    /// A symbolic link.
    Link,
    Special(Special),
}

/// A point in time.
#[derive(Clone, Copy, Debug, PartialEq, Eq)]
pub struct Time {
    /// Seconds since the beginning of 1970; 64 bits in two's complement.
    pub seconds: u64,
    /// Nanoseconds after these seconds; those that a directory reports are below 1,000,000,000.
    pub nanos: u32,
}

/// What is known of what is at a path, apart from its kind and its size.
#[derive(Clone, Copy, Debug, PartialEq, Eq)]
pub struct Details {
    /// The inode number.
    pub ino: u64,
    /// Permission bits: the lowest twelve of a mode. A reply leaves out any others.
    pub permissions: u32,
    /// The number of hard links, as the directory counts them; `u32::MAX` if there are more.
    pub links: u32,
    /// The owner.
    pub uid: u32,
    /// The group.
    pub gid: u32,
    /// The time of the last read (`atime`).
    pub accessed: Time,
    /// The time when its bytes, or the names in it, last changed (`mtime`).
    pub modified: Time,
    /// The time when anything of it last changed, including its details (`ctime`).
    pub changed: Time,
}
