//! What is listed, and which entries a page has.

use crate::open_folders::making::{Given, children, listing, told};
use backing::{Child, Children};
use handles::{Listing, ListingFault, PageFault};
use paths::Name;
use payload::Kind::{self, File, Folder, Link};
use payload::Special;
use std::alloc::{AllocError, Global};
use std::test::Fail;

const FILES: Given = &[("b", File), ("a", File)];

const SAMPLE: Given = &[("e", File), ("d", Folder), ("a", File)];

/// One of each kind.
const ALL: Given = &[
    ("s", Kind::Special(Special::Socket)),
    ("p", Kind::Special(Special::Pipe)),
    ("l", Link),
    ("f", File),
    ("d", Folder),
    ("c", Kind::Special(Special::Character(1281))),
    ("b", Kind::Special(Special::Block(1281))),
];

/// Names as a directory lists them, and the listing.
const LISTED: &[(Given, &str)] = &[
    (&[], "./ ../"),
    (SAMPLE, "./ ../ a d/ e"),
    (ALL, "./ ../ b%b c%c d/ f l@ p| s="),
    (
        &[("é", File), ("z", File), ("Z", File), ("-", File)],
        "./ ../ - Z z é",
    ),
    (
        &[("ab", File), ("b", File), ("a", Folder)],
        "./ ../ a/ ab b",
    ),
    (
        &[
            (".fuse_hidden0000000200000000", File),
            ("a", File),
            (".fuse_hidden", Folder),
            (".fuse_hidde", File),
        ],
        "./ ../ .fuse_hidde a",
    ),
    (&[("a", File), ("b", File), ("a", Folder)], "lawless"),
    (&[(".fuse_hidden", File), (".fuse_hidden", File)], "lawless"),
    (&[("a", File), ("b/c", File)], "lawless"),
    (&[("/", File)], "lawless"),
    (&[("a\0", File)], "lawless"),
    (&[("", File)], "lawless"),
    (&[(".", Folder)], "lawless"),
    (&[("..", Folder)], "lawless"),
];

/// What a listing shows of node 7 that was not stored.
fn shown(alloc: Global, listing: &Listing) -> Result<String, AllocError> {
    if listing.number() == 7 && listing.fh() == 0 {
        told(alloc, listing.entries())
    } else {
        String::from_str(alloc, "other numbers")
    }
}

/// What is listed of these names, or why nothing is.
fn listed(alloc: Global, given: Given) -> Result<String, AllocError> {
    match Listing::new(alloc, 7, children(alloc, given)?) {
        Ok(listing) => shown(alloc, &listing),
        Err(ListingFault::Lawless) => String::from_str(alloc, "lawless"),
        Err(ListingFault::Memory) => String::from_str(alloc, "memory"),
    }
}

/// Checks that this is listed of the names, or that this is why nothing is.
fn expect_listed(alloc: Global, given: Given, want: &'static str) -> Result<(), Fail> {
    let text = listed(alloc, given)?;
    if text.as_str() == want {
        return Ok(());
    }
    Err(Fail::from((want, text)))
}

#[test]
fn listed_names(rt: HostRuntime) -> Result<(), Fail> {
    for (given, want) in LISTED {
        expect_listed(rt.alloc(), *given, *want)?;
    }
    Ok(())
}

/// Whether with attributes, from which offset, for how many bytes, and the page as text.
type Row = (bool, u64, u32, &'static str);

const PAGES: &[(Given, &[Row])] = &[
    (
        FILES,
        &[
            (true, 2, 319, "a"),
            (true, 2, 320, "a b"),
            (true, 2, 160, "a"),
            (true, 2, 159, "small"),
            (true, 2, 0, "small"),
            (true, 4, 320, ""),
            (true, 4, 0, ""),
            (true, 0, u32::MAX, "./ ../ a b"),
            (false, u64::MAX, u32::MAX, ""),
        ],
    ),
    (
        SAMPLE,
        &[
            (false, 2, 96, "a d/ e"),
            (false, 2, 95, "a d/"),
            (false, 2, 64, "a d/"),
            (false, 2, 32, "a"),
            (false, 2, 31, "small"),
            (false, 5, 96, ""),
            (false, 0, 32, "./"),
            (false, 1, 40, "../"),
            (false, 4, 1_000, "e"),
        ],
    ),
];

/// The entries of a page, or why there is none.
fn paged(
    alloc: Global,
    listing: &Listing,
    plus: bool,
    offset: u64,
    size: u32,
) -> Result<String, AllocError> {
    match listing.page(offset, size, plus) {
        Ok(page) if page.from == offset => told(alloc, page.entries),
        Ok(_) => String::from_str(alloc, "from elsewhere"),
        Err(PageFault::Small) => String::from_str(alloc, "small"),
    }
}

fn expect_pages(alloc: Global, listing: &Listing, rows: &[Row]) -> Result<(), Fail> {
    for (plus, offset, size, want) in rows {
        let text = paged(alloc, listing, *plus, *offset, *size)?;
        if text.as_str() != *want {
            return Err(Fail::from((*plus, *offset, *size)));
        }
    }
    Ok(())
}

#[test]
fn pages_by_bytes(rt: HostRuntime) -> Result<(), Fail> {
    for (given, rows) in PAGES {
        expect_pages(rt.alloc(), &listing(rt.alloc(), *given)?, rows)?;
    }
    Ok(())
}

/// A name of this many bytes.
fn long_name(alloc: Global, len: usize) -> Result<Children, AllocError> {
    let mut text = String::new(alloc);
    for _byte in 0..len {
        text.push('x')?;
    }
    let mut list = Vec::new(alloc);
    list.push(Child {
        name: Name::from_text(alloc, text.as_str())?,
        kind: File,
    })?;
    Ok(Children::from_vec(list))
}

/// Whether a name of so many bytes is listed, and then has no room in 279 bytes and has in 280.
fn fits(alloc: Global, len: usize) -> Result<bool, AllocError> {
    match Listing::new(alloc, 1, long_name(alloc, len)?) {
        Ok(listing) => Ok(
            listing.page(2, 279, false).is_err() && listing.page(2, 280, false).is_ok(),
        ),
        Err(_) => Ok(false),
    }
}

/// Whether a name of so many bytes is lawless.
fn is_lawless(alloc: Global, len: usize) -> Result<bool, AllocError> {
    match Listing::new(alloc, 1, long_name(alloc, len)?) {
        Ok(_) | Err(ListingFault::Memory) => Ok(false),
        Err(ListingFault::Lawless) => Ok(true),
    }
}

#[test]
fn longest_name(rt: HostRuntime) -> Result<(), Fail> {
    if fits(rt.alloc(), 255)? && is_lawless(rt.alloc(), 256)? {
        return Ok(());
    }
    Err(Fail::from("255 bytes are not the most"))
}

/// The names `10000` to `19999`, in the order in which steps of 7,919 reach them.
fn many_names(alloc: Global) -> Result<Children, AllocError> {
    let mut list = Vec::new(alloc);
    for i in 0..10_000u64 {
        let text = format!(in alloc; "{}", 10_000 + i * 7_919 % 10_000)?;
        let name = Name::from_text(alloc, text.as_str())?;
        list.push(Child { name, kind: File })?;
    }
    Ok(Children::from_vec(list))
}

/// Whether the entry is the one at that offset.
fn is_at(alloc: Global, entry: &Child, offset: u64) -> Result<bool, AllocError> {
    let want = format!(in alloc; "{}", offset.saturating_add(9_998))?;
    Ok(entry.name.as_bytes() == want.as_bytes())
}

/// The offset after these entries, which are those from an offset on.
fn offset_after(alloc: Global, entries: &[Child], from: u64) -> Result<u64, Fail> {
    let mut offset = from;
    for entry in entries {
        if !is_at(alloc, entry, offset)? {
            return Err(Fail::from(("another name at", offset)));
        }
        offset = offset.saturating_add(1);
    }
    Ok(offset)
}

/// The offset after the page at an offset. A page has 128 entries, or is the last one.
fn turn(alloc: Global, listing: &Listing, offset: u64) -> Result<u64, Fail> {
    let Ok(page) = listing.page(offset, 4_096, false) else {
        return Err(Fail::from("an entry has no room"));
    };
    let next = offset_after(alloc, page.entries, offset)?;
    if page.entries.len() == 128 || next == 10_002 {
        return Ok(next);
    }
    Err(Fail::from(("a page ends at", next)))
}

/// Reads page after page until one is empty.
fn read_all(alloc: Global, listing: &Listing) -> Result<(), Fail> {
    let mut offset = 2u64;
    for _page in 0..1_000 {
        let next = turn(alloc, listing, offset)?;
        if next == offset {
            break;
        }
        offset = next;
    }
    if offset == 10_002 {
        return Ok(());
    }
    Err(Fail::from(("the last page ends at", offset)))
}

#[test]
fn many_names_by_pages(rt: HostRuntime) -> Result<(), Fail> {
    match Listing::new(rt.alloc(), 1, many_names(rt.alloc())?) {
        Ok(listing) => read_all(rt.alloc(), &listing),
        Err(_) => Err(Fail::from("the names are not listed")),
    }
}
