//! READDIRPLUS: a page of an open folder whose names are looked up, and the reply with it.

ghost use Rattle.std.specs.Prelude.{◌≡◌, ◌+◌, ◌^◌, ◌<◌, ◌++◌, true, length, drop, option_map, IfOk, OnOk};
ghost use Rattle.handles.specs.Names.{is_dot};
ghost use Rattle.handles.specs.Pages.{bytes_of};
ghost use Rattle.ops.specs.Folders.{CarriesAtMost};
ghost use Rattle.ops.specs.Pages.{names_on, no_page, page_want};
ghost use Rattle.ops.specs.Replies.{entries_bytes, first, plus_entry};
ghost use Rattle.wire.specs.Dirents.{plus_bytes};
ghost use Rattle.wire.specs.declared.reply.ReplyBody.TheVariants.{Data as Told};

use crate::findings::FoundFile;
use crate::folders::page_in;
use crate::replies::entry_of;
use backing::Child;
use handles::Page;
use paths::Name;
use payload::{HEADER_ROOM, Payload};
use std::alloc::{AllocError, Global};
use std::marker::Model;
use table_requests::{Given, Names, Want};
use terms::Settings;
use wire::{ReplyBody, encode_plus_dirent};

/// A page that owns its entries, so that it can outlive its listing: no listing is lent while the directory is called.
#[derive(Drop)]
pub struct Paged {
    from: u64,
    entries: Vec<Child>,
}

impl Model for Paged {
    ghost use Rattle.std.specs.Prelude.{◌+◌, ◌^◌, ◌<◌, length};
    ghost use Rattle.ops.specs.Pages.{Paged};

    ghost Value = { Paged };

    ghost view = { λ p. record { from = p.from; entries = p.entries.items } };

    ghost invariant = { λ p. p.from + length p.entries.items < 2 ^ 64 };
}

/// A copy of the entries.
fn copy_entries(alloc: Global, entries: &[Child]) -> Result<Vec<Child>, AllocError>
    ensures { IfOk result (λ v. v.items ≡ entries.now) }
{
    let mut copies = Vec::with_capacity(alloc, entries.len())?;
    for child in entries {
        copies.push(Child {
            name: child.name.copy()?,
            kind: child.kind,
        })?;
    }
    Ok(copies)
}

/// The names that are looked up: all except `.` and `..`.
fn names_on(alloc: Global, entries: &[Child]) -> Result<Names, AllocError>
    ensures { IfOk result (λ names. names ≡ names_on entries.now) }
{
    let mut names = Vec::with_capacity(alloc, entries.len())?;
    for child in entries {
        if !is_dot(&child.name) {
            names.push(child.name.copy()?)?;
        }
    }
    Ok(Names::from_vec(names))
}

impl Paged {
    /// A page without entries, for a request that has none. It does not allocate.
    pub fn none(alloc: Global) -> Paged
        ensures { result ≡ no_page }
    {
        Paged {
            from: 0,
            entries: Vec::new(alloc),
        }
    }

    /// A copy of the page.
    pub fn copy_of(alloc: Global, page: Page<'_>) -> Result<Paged, AllocError>
        ensures { IfOk result (λ paged. paged ≡ record { from = page.entry.from; entries = page.entry.entries.now }) }
    {
        let from = page.from;
        let entries = copy_entries(alloc, page.entries)?;
        Ok(Paged { from, entries })
    }

    /// The want of a request that returns this page of the folder.
    pub fn want(&self, alloc: Global, folder: u64) -> Result<Want, AllocError>
        ensures { IfOk result (λ want. want ≡ page_want folder self.now.entries) }
    {
        let names = names_on(alloc, &self.entries)?;
        Ok(Want::Page { folder, names })
    }
}

/// Whether it is `.` or `..`.
fn is_dot(name: &Name) -> bool
    ensures { result ≡ is_dot name.now }
{
    let bytes = name.as_bytes();
    bytes == b".".as_slice() || bytes == b"..".as_slice()
}

/// Appends an entry to a vector, with the node of what was found and given.
fn put_entry(
    out: &mut Vec<u8>,
    settings: Settings,
    next: u64,
    child: &Child,
    found: Option<&FoundFile>,
    given: Option<&Given>,
) -> Result<(), AllocError>
    ensures { OnOk result (out.new.items ≡ out.old.items ++ plus_bytes (plus_entry settings next child.now (option_map (λ f. f.now) found.entry) (option_map (λ g. g.now) given.entry))) }
{
    let name = child.name.as_bytes();
    match (found, given) {
        (Some(found), Some(given)) => {
            let entry = entry_of(settings, *found, *given);
            encode_plus_dirent(out, Some(entry), next, found.kind, name)
        }
        _ => encode_plus_dirent(out, None, next, child.kind, name),
    }
}

/// The first item, if any.
fn first_of<T: Copy>(items: &[Option<T>]) -> Option<&T>
    ensures { option_map (λ item. item.now) result ≡ first items.now }
{
    match items {
        [Some(item), ..] => Some(item),
        _ => None,
    }
}

/// The items after the first.
fn rest_of<T: Copy>(items: &[Option<T>]) -> &[Option<T>]
    ensures { result.now ≡ drop 1 items.now }
{
    match items {
        [_, rest @ ..] => rest,
        [] => items,
    }
}

/// Appends entries to a vector, each with the node of what was found and given for its name. The first one has index
/// `from`.
fn put_entries(
    out: &mut Vec<u8>,
    settings: Settings,
    from: u64,
    children: &[Child],
    founds: &[Option<FoundFile>],
    givens: &[Option<Given>],
) -> Result<(), AllocError>
    requires { from + length children.now < 2 ^ 64 }
    ensures { OnOk result (out.new.items ≡ out.old.items ++ entries_bytes settings from children.now founds.now givens.now) }
{
    let mut next = from;
    let mut founds = founds;
    let mut givens = givens;
    for child in children {
        next += 1;
        if is_dot(&child.name) {
            put_entry(out, settings, next, child, None, None)?;
        } else {
            put_entry(
                out,
                settings,
                next,
                child,
                first_of(founds),
                first_of(givens),
            )?;
            founds = rest_of(founds);
            givens = rest_of(givens);
        }
    }
    Ok(())
}

/// The answer to a READDIRPLUS with this page: each entry with the node of what was found and given for its name. `.`
/// and `..` are not looked up.
pub fn entries_reply(
    alloc: Global,
    settings: Settings,
    page: &Paged,
    founds: &[Option<FoundFile>],
    givens: &[Option<Given>],
) -> Result<ReplyBody, AllocError>
    ensures ok { IfOk result (λ body. body ≡ Told (entries_bytes settings page.now.from page.now.entries founds.now givens.now)) }
    ensures short { IfOk result (λ body. CarriesAtMost (bytes_of true page.now.entries) body) }
{
    let mut entries = page_in(alloc, &page.entries, true)?;
    let from = page.from;
    put_entries(&mut entries, settings, from, &page.entries, founds, givens)?;
    Ok(ReplyBody::Data(Payload::behind(HEADER_ROOM, entries)))
}
