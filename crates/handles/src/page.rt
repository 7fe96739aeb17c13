//! Some entries of a listing.

ghost use Rattle.std.specs.Prelude.{◌+◌, ◌^◌, ◌<◌, length};

use backing::Child;

/// Why a page could not be made.
#[derive(Clone, Copy, Debug, PartialEq, Eq)]
pub enum PageFault {
    /// There is an entry at the offset, and it does not fit: EINVAL (own).
    Small,
}

/// Some entries of a listing.
#[derive(Clone, Copy)]
pub struct Page<'a> {
    /// The requested offset: the index of the first entry.
    pub from: u64,
    pub entries: &'a [Child],
    /// Each entry has an offset after it.
    ghost within: { from + length entries.now < 2 ^ 64 },
}
