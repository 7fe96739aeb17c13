//! Names in a folder: which of them are lawful, which the server keeps for itself, and their order.

ghost use Rattle.std.specs.Prelude.{◌≡◌, ◌↔◌, IsTrue, MatchOption, false, not};
ghost use Rattle.std.specs.List.{AllPass, filter};
ghost use Rattle.std.specs.List.Sorted.{IsPermutation, IsSorted, IsStrictlySortedBy};
ghost use Rattle.handles.specs.Listings.{are_lawful, IsInOrder};
ghost use Rattle.handles.specs.Names.{is_lawful, by_name};
ghost use Rattle.paths.specs.Hidden.{is_reserved};

use backing::{Child, Children};
use paths::Name;
use paths::reserved::is_reserved;
use std::cmp::Ordering;

/// The maximum number of bytes of a name (own).
const MAX_NAME_LEN: usize = 255;

/// Whether a folder may have the name.
fn is_lawful(name: &Name) -> bool
    ensures { result ≡ is_lawful name.now }
{
    let bytes = name.as_bytes();
    !bytes.is_empty()
        && bytes.len() <= MAX_NAME_LEN
        && bytes != b".".as_slice()
        && bytes != b"..".as_slice()
        && !bytes.contains(&b'/')
        && !bytes.contains(&0)
}

/// Compares by the bytes of their names.
fn compare(a: &Child, b: &Child) -> Ordering
    ensures { result ≡ by_name a.now b.now }
{
    a.name.as_bytes().cmp(b.name.as_bytes())
}

/// Whether each name is lawful.
fn all_lawful(children: &[Child]) -> bool
    ensures { IsTrue result ↔ AllPass (λ child. is_lawful child.name) children.now }
{
    children.iter().all(|child| is_lawful(&child.name))
}

/// Sorts by the bytes of the names. It does not allocate.
fn sort(children: &mut Vec<Child>)
    ensures moved { IsPermutation children.old.items children.new.items }
    ensures sorted { IsSorted by_name children.new.items }
{
    children.sort_unstable_by(|a, b| compare(a, b));
}

/// Whether each name is below the next one.
fn are_rising(children: &[Child]) -> bool
    ensures { IsTrue result ↔ IsStrictlySortedBy by_name children.now }
{
    children.is_sorted_by(|a, b| compare(a, b).is_lt())
}

/// The children sorted by bytes, if each name is lawful and comes once. It does not allocate.
pub(crate) fn in_order(children: Children) -> Option<Vec<Child>>
    ensures { MatchOption result (are_lawful children ≡ false) (λ v. IsInOrder children v.items) }
{
    let mut names = children.into_vec();
    if !all_lawful(&names) {
        return None;
    }
    // A folder of a disk tells them in order.
    if are_rising(&names) {
        return Some(names);
    }
    sort(&mut names);
    if !are_rising(&names) {
        return None;
    }
    Some(names)
}

/// Removes the names that the server keeps for itself.
pub(crate) fn drop_reserved(children: &mut Vec<Child>)
    ensures { children.new.items ≡ filter (λ child. not (is_reserved child.name)) children.old.items }
{
    children.retain(|child| !is_reserved(child.name.as_bytes()));
}
