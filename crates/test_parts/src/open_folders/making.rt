//! Making listings from given names, and showing them.

use backing::{Child, Children};
use handles::{Listing, ListingFault};
use paths::Name;
use payload::{Kind, Special};
use std::alloc::{AllocError, Global};
use std::str;
use std::test::Fail;

/// Names with their kinds, in the order in which a directory lists them.
pub(crate) type Given = &'static [(&'static str, Kind)];

pub(crate) fn children(alloc: Global, given: Given) -> Result<Children, AllocError> {
    let mut list = Vec::new(alloc);
    for (name, kind) in given {
        let name = Name::from_text(alloc, name)?;
        list.push(Child { name, kind: *kind })?;
    }
    Ok(Children::from_vec(list))
}

/// The listing of node 1 with these names.
pub(crate) fn listing(alloc: Global, given: Given) -> Result<Listing, Fail> {
    match Listing::new(alloc, 1, children(alloc, given)?) {
        Ok(listing) => Ok(listing),
        Err(ListingFault::Lawless) => Err(Fail::from("the names are lawless")),
        Err(ListingFault::Memory) => Err(Fail::from("no memory for a listing")),
    }
}

/// The same without a message if it fails.
pub(crate) fn some_listing(alloc: Global, given: Given) -> Option<Listing> {
    let children = children(alloc, given).ok()?;
    Listing::new(alloc, 1, children).ok()
}

/// What stands after a name, as `ls -F` has it. A device has the first letter of its kind.
fn mark_of(kind: Kind) -> &'static str {
    match kind {
        Kind::Folder => "/",
        Kind::File => "",
        Kind::Link => "@",
        Kind::Special(Special::Pipe) => "|",
        Kind::Special(Special::Socket) => "=",
        Kind::Special(Special::Character(_)) => "%c",
        Kind::Special(Special::Block(_)) => "%b",
    }
}

/// The names with blanks between them, each with the mark of its kind.
pub(crate) fn told(alloc: Global, entries: &[Child]) -> Result<String, AllocError> {
    let mut text = String::new(alloc);
    for entry in entries {
        if !text.is_empty() {
            text.push(' ')?;
        }
        text.push_str(str::from_utf8(entry.name.as_bytes()).unwrap_or("?"))?;
        text.push_str(mark_of(entry.kind))?;
    }
    Ok(text)
}
