//! What the C library has open.

ghost use Rattle.std.specs.Prelude.{◌≡◌, pos};
ghost use Rattle.std.specs.Fd.{owned_raw_fd};

use std::os::fd::OwnedFd;

/// A file or folder that is open.
#[derive(Drop)]
pub struct OpenFd {
    pub(crate) fd: OwnedFd,
    pub(crate) number: u32,
    pub(crate) stamp: u64,
    ghost number_is: { owned_raw_fd fd ≡ pos number },
}

/// The descriptor itself keeps how far its names were read.
#[derive(Drop)]
pub struct Rewound;
