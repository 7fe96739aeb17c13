//! Pages of a listing, by the number of bytes that they take.

ghost use Rattle.std.specs.Option.{SomeIff};
ghost use Rattle.std.specs.Prelude.{◌≡◌, ◌<◌, ◌≤◌, ◌^◌, drop, take, length};
ghost use Rattle.handles.specs.Pages.{IsPage, IsLongestRun, bytes_of, padded};

use crate::listing::Listing;
use crate::page::{Page, PageFault};
use backing::Child;

/// The bytes before the name of an entry (`fuse_dirent`).
const HEAD_LEN: u64 = 24;

/// The same if the entry's attributes come before it (`fuse_direntplus`).
const HEAD_LEN_PLUS: u64 = 152;

impl Listing {
    /// As many entries as fit in `size` bytes, from the offset on, which is an index. With `plus` each has its
    /// attributes before it. Past the end the page is empty. It does not allocate, and takes time only for its own
    /// entries.
    pub fn page(&self, offset: u64, size: u32, plus: bool) -> Result<Page<'_>, PageFault>
        ensures { IsPage plus self.now.entries offset size result }
    {
        let rest = entries_from(self.entries(), offset);
        let count = run_len(rest, size, plus);
        if count == 0 && !rest.is_empty() {
            return Err(PageFault::Small);
        }
        Ok(Page {
            from: offset,
            entries: &rest[..count],
        })
    }
}

/// The entries from the offset on.
fn entries_from(entries: &[Child], offset: u64) -> &[Child]
    ensures { result.now ≡ drop offset entries.now }
{
    let start = entries.len().min(offset as usize);
    &entries[start..]
}

/// How many entries fit.
fn run_len(entries: &[Child], size: u32, plus: bool) -> usize
    ensures within { result ≤ length entries.now }
    ensures longest { IsLongestRun plus size entries.now (take result entries.now) }
{
    let mut left = u64::from(size);
    for (i, entry) in entries.iter().enumerate() {
        let len = padded_len(entry, plus);
        if left < len {
            return i;
        }
        left -= len;
    }
    entries.len()
}

/// How many bytes a page with these entries takes, if a `usize` can hold that. With `plus` each has its attributes
/// before it. It does not allocate.
pub fn page_len(entries: &[Child], plus: bool) -> Option<usize>
    ensures { SomeIff result (bytes_of plus entries.now < 2 ^ 64) (bytes_of plus entries.now) }
{
    let mut sum = 0usize;
    for entry in entries {
        sum = sum.checked_add(padded_len(entry, plus) as usize)?;
    }
    Some(sum)
}

/// The bytes of an entry: its head, its name, and padding to a multiple of 8.
fn padded_len(entry: &Child, plus: bool) -> u64
    ensures { result ≡ padded plus entry.now }
{
    let head = if plus { HEAD_LEN_PLUS } else { HEAD_LEN };
    (head + entry.name.as_bytes().len() as u64 + 7) / 8 * 8
}
