//! Calls as words, and answers as text.

use crate::asked::Asked;
use crate::details::{call_that_sets, mode_told, names_told, octal, owner_told, times_told};
use crate::texts;
use backing::{Answer, Call, Child};
use paths::Path;
use payload::{Kind, Special};
use std::alloc::{AllocError, Global};

/// The path that the text spells: names with `/` between them, and `.` for the root. Behind `x:` a name has digits for its bytes.
pub fn path_of(alloc: Global, text: &str) -> Result<Path, AllocError> {
    let mut names = Vec::new(alloc);
    if text == "." {
        return Path::from_names(names);
    }
    for name in text.split('/') {
        names.push(texts::name_of(alloc, name)?)?;
    }
    Path::from_names(names)
}

fn number(text: &str) -> u64 {
    text.parse::<u64>().unwrap_or(0)
}

/// The call with that name on the path. For a rename, an exchange or a further name the other path is its second one, and `first` and
/// `second` are its numbers or bytes.
fn call_of<'a>(
    name: &str,
    path: &'a Path,
    other: &'a Path,
    first: &str,
    second: &'a str,
) -> Option<Call<'a>> {
    Some(match name {
        "stat" => Call::Stat(path),
        "list" => Call::List(path),
        "make" => Call::Make {
            path,
            permissions: octal(first),
        },
        "mkdir" => Call::MakeDir {
            path,
            permissions: octal(first),
        },
        "remove" => Call::Remove(path),
        "rmdir" => Call::RemoveDir(path),
        "readlink" => Call::ReadLink(path),
        "sync" => Call::Sync(path),
        "rename" => Call::Rename {
            from: path,
            to: other,
        },
        "rename-new" => Call::RenameNew {
            from: path,
            to: other,
        },
        "exchange" => Call::Exchange {
            first: path,
            second: other,
        },
        "name" => Call::Link {
            from: path,
            to: other,
        },
        "read" => Call::Read {
            path,
            offset: number(first),
            size: u32::try_from(number(second)).unwrap_or(0),
        },
        "write" => Call::Write {
            path,
            offset: number(first),
            data: second.as_bytes(),
        },
        "setlen" => Call::SetLen {
            path,
            size: number(first),
        },
        _ => return call_that_sets(name, path, first, second),
    })
}

/// The byte with which a file is filled at that offset. It differs from the ones 4,096 and 65,536 bytes later.
fn filling(place: u64) -> u8 {
    (place % 251) as u8
}

/// The answer to one call that fills that many bytes of the file.
fn fill<A: Asked>(
    alloc: Global,
    asked: &mut A,
    path: &Path,
    offset: u64,
    count: u64,
) -> Result<String, AllocError> {
    let mut piece = Vec::new(alloc);
    for place in offset..offset.saturating_add(count) {
        piece.push(filling(place))?;
    }
    let data = piece.as_slice();
    shown(alloc, asked.answer(Call::Write { path, offset, data }))
}

/// How many of the bytes are those with which a file is filled, from that offset on.
fn count_filled(bytes: &[u8], offset: u64) -> u64 {
    let mut place = offset;
    let mut right = 0u64;
    for byte in bytes {
        if *byte == filling(place) {
            right = right.saturating_add(1);
        }
        place = place.saturating_add(1);
    }
    right
}

/// How many bytes one call reads, and how many of them are those with which the file was filled.
fn check<A: Asked>(
    alloc: Global,
    asked: &mut A,
    path: &Path,
    offset: u64,
    size: u64,
) -> Result<String, AllocError> {
    let size = u32::try_from(size).unwrap_or(0);
    match asked.answer(Call::Read { path, offset, size }) {
        Answer::Bytes(bytes) => {
            let right = count_filled(bytes.as_slice(), offset);
            format!(in alloc; "{right} of {}", bytes.as_slice().len())
        }
        other => shown(alloc, other),
    }
}

/// The answer to one call that makes a link with that text.
fn link<A: Asked>(
    alloc: Global,
    asked: &mut A,
    path: &Path,
    text: Vec<u8>,
) -> Result<String, AllocError> {
    let text = text.as_slice();
    shown(alloc, asked.answer(Call::MakeLink { path, text }))
}

/// How long the text of the link is, and how many of its bytes are those of a text that was filled.
fn check_link<A: Asked>(alloc: Global, asked: &mut A, path: &Path) -> Result<String, AllocError> {
    match asked.answer(Call::ReadLink(path)) {
        Answer::Bytes(text) => {
            let right = texts::count_filled(text.as_slice());
            format!(in alloc; "{right} of {}", text.as_slice().len())
        }
        other => shown(alloc, other),
    }
}

/// The answer to a call that is written as its name, its paths and its numbers or bytes, separated by spaces. For many
/// bytes, `fill` writes them in one call, and `check` reads them in one. `link` makes a link with that text, `link-hex` with
/// the bytes that it spells, and `link-fill` with so many, which `link-check` reads. `name` gives what stands at the path a further
/// one. `mode`, `owner`, `times` and `names`, how many what stands there has, show parts of what a STAT reports.
pub fn ask<A: Asked>(alloc: Global, asked: &mut A, words: &str) -> Result<String, AllocError> {
    let mut parts = words.split(' ');
    let name = parts.next().unwrap_or("");
    let path = path_of(alloc, parts.next().unwrap_or("."))?;
    let first = parts.next().unwrap_or("");
    let second = parts.next().unwrap_or("");
    match name {
        "fill" => return fill(alloc, asked, &path, number(first), number(second)),
        "check" => return check(alloc, asked, &path, number(first), number(second)),
        "link" | "link-hex" | "link-fill" => {
            return link(alloc, asked, &path, texts::text_of(alloc, name, first)?);
        }
        "link-check" => return check_link(alloc, asked, &path),
        "mode" => return mode_told(alloc, asked.answer(Call::Stat(&path))),
        "owner" => return owner_told(alloc, asked.answer(Call::Stat(&path))),
        "times" => return times_told(alloc, asked.answer(Call::Stat(&path))),
        "names" => return names_told(alloc, asked.answer(Call::Stat(&path))),
        _ => {}
    }
    let other = path_of(alloc, first)?;
    match call_of(name, &path, &other, first, second) {
        Some(call) => shown(alloc, asked.answer(call)),
        None => String::from_str(alloc, "no call"),
    }
}

/// The answer as text; the names of a listing are sorted by bytes.
fn shown(alloc: Global, answer: Answer) -> Result<String, AllocError> {
    match answer {
        Answer::Done => String::from_str(alloc, "done"),
        Answer::Stat { kind, size, .. } => stat_told(alloc, kind, size),
        Answer::Names(children) => listed(alloc, children.into_vec()),
        Answer::Bytes(bytes) => hexadecimal(alloc, bytes.as_slice()),
        Answer::Wrote(count) => format!(in alloc; "wrote {count}"),
        Answer::Fault(errno) => format!(in alloc; "fault {errno}"),
    }
}

/// A kind in a word, with the number that a device has.
fn word_of(alloc: Global, kind: Kind) -> Result<String, AllocError> {
    let word = match kind {
        Kind::Folder => "folder",
        Kind::File => "file",
        Kind::Link => "link",
        Kind::Special(Special::Pipe) => "pipe",
        Kind::Special(Special::Socket) => "socket",
        Kind::Special(Special::Character(number)) => {
            return format!(in alloc; "character {number}");
        }
        Kind::Special(Special::Block(number)) => return format!(in alloc; "block {number}"),
    };
    String::from_str(alloc, word)
}

fn stat_told(alloc: Global, kind: Kind, size: u64) -> Result<String, AllocError> {
    let word = word_of(alloc, kind)?;
    format!(in alloc; "{} {size}", word.as_str())
}

/// What stands behind a name in a listing, as `ls -F` has it; behind that of a device a `#`.
fn mark_of(kind: Kind) -> &'static str {
    match kind {
        Kind::Folder => "/",
        Kind::File => "",
        Kind::Link => "@",
        Kind::Special(Special::Pipe) => "|",
        Kind::Special(Special::Socket) => "=",
        Kind::Special(Special::Character(_) | Special::Block(_)) => "#",
    }
}

/// A name, with a mark of its kind behind it.
fn marked(alloc: Global, child: &Child) -> Result<String, AllocError> {
    let mut text = texts::name_text(alloc, &child.name)?;
    text.push_str(mark_of(child.kind))?;
    Ok(text)
}

fn listed(alloc: Global, children: Vec<Child>) -> Result<String, AllocError> {
    let mut names = Vec::new(alloc);
    for child in &children {
        names.push(marked(alloc, child)?)?;
    }
    names.sort()?;
    let mut text = String::from_str(alloc, "names")?;
    for name in &names {
        text.push_str(" ")?;
        text.push_str(name.as_str())?;
    }
    Ok(text)
}

fn hexadecimal(alloc: Global, bytes: &[u8]) -> Result<String, AllocError> {
    let mut text = String::from_str(alloc, "bytes ")?;
    for byte in bytes {
        let digits = format!(in alloc; "{byte:02x}")?;
        text.push_str(digits.as_str())?;
    }
    Ok(text)
}
