//! What a session shows of its folder.

ghost use Rattle.std.specs.Prelude.{◌↔◌, IsTrue};
ghost use Rattle.terms.specs.Names.{IsSpelled};

use std::str;

/// Whose attributes a session reports.
#[derive(Clone, Copy, Debug, PartialEq, Eq)]
pub enum AttributeSource {
    /// Everything belongs to this owner, has fixed permission bits and times at the beginning of 1970, and its inode
    /// number is its node number. A SETATTR may set only the size.
    Fixed { uid: u32, gid: u32 },
    /// The attributes that the directory reports. A SETATTR may set them.
    Host,
}

/// Which kinds of files a session shows.
#[derive(Clone, Copy, Debug, PartialEq, Eq)]
pub enum Kinds {
    /// Files and folders alone. READLINK, SYMLINK and LINK are not served (ENOSYS).
    Plain,
    /// All: links, pipes, sockets and devices too. A link's text is read, and its target never.
    All,
}

/// Which names a session takes and shows.
#[derive(Clone, Copy, Debug, PartialEq, Eq)]
pub enum Names {
    /// Those that are UTF-8. A request with another one is EINVAL, and a listing leaves it out.
    Text,
    /// All: any bytes but zero and a slash, as Linux has them.
    Bytes,
}

impl Names {
    /// Whether these bytes are spelled as a name must be.
    pub fn takes(self, name: &[u8]) -> bool
        ensures { IsTrue result ↔ IsSpelled self name.now }
    {
        match self {
            Names::Text => str::from_utf8(name).is_ok(),
            Names::Bytes => true,
        }
    }
}

/// What a session shows of its folder.
#[derive(Clone, Copy, Debug, PartialEq, Eq)]
pub struct Settings {
    pub attributes: AttributeSource,
    pub kinds: Kinds,
    pub names: Names,
}
