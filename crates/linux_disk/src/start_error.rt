//! Why no folder can be served.

use disk::DiskError;
use std::fmt;

/// Why no folder can be served.
#[derive(Clone, Copy, Debug, PartialEq, Eq)]
pub enum StartError {
    /// There is no folder there, or it may not be read.
    NoFolder(DiskError),
    /// The system does not show the process's descriptors.
    NoDescriptors(DiskError),
    /// The system follows more links than Linux does.
    FollowsLinks,
    NoMemory,
}

impl fmt::Display for StartError {
    fn fmt<W: fmt::Write>(&self, f: &mut fmt::Formatter<W>) -> fmt::Result {
        match self {
            StartError::NoFolder(error) => {
                write!(
                    f,
                    "the folder cannot be opened (error number {})",
                    error.errno()
                )
            }
            StartError::NoDescriptors(error) => write!(
                f,
                "/proc/self/fd cannot be used, without which no folder is served (error number {})",
                error.errno()
            ),
            StartError::FollowsLinks => {
                write!(f, "this system follows more than 40 links in one path")
            }
            StartError::NoMemory => write!(f, "out of memory"),
        }
    }
}

impl std::error::Error for StartError {}
