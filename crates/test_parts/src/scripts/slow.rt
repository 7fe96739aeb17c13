//! The scripts of all requests as a plain, slow program: the state of a script is found by going through all of its
//! answers again.

use crate::scripts::asks::{Ask, Ends, Form, Stands};
use crate::scripts::setting::{asks_to_set, made_with};
use backing::Answer;
use errno::{EBUSY, EEXIST, EINVAL, EIO, EISDIR, ENOENT, ENOTDIR};
use ops::{FoundFile, Settings};
use payload::Kind;
use std::slice::Iter;
use wire::Operation;

/// How many candidates a file may be hidden under.
const CANDIDATES: usize = 10;

/// An answer after checking. Of names and bytes it has only the number.
#[derive(Clone, Copy)]
enum Counts {
    Done,
    Found(FoundFile),
    Names(usize),
    Bytes(usize),
    Wrote(u32),
    Error(i32),
}

/// The calls of a request that hides nothing, in order, if nothing fails.
fn asks_of(settings: Settings, operation: Operation<'_>, same: bool) -> (Option<Ask>, Option<Ask>) {
    match operation {
        Operation::Lookup { .. } | Operation::GetAttr | Operation::Open { .. } => (
            Some(Ask::Stat(0)),
            None,
        ),
        Operation::Create { mode, umask, .. } => (
            Some(Ask::Make(made_with(settings, mode, umask))),
            Some(Ask::Stat(0)),
        ),
        Operation::Read { offset, size, .. } => (Some(Ask::Read(offset, size)), None),
        Operation::ReadLink => (Some(Ask::ReadLink), None),
        Operation::MakeLink { text, .. } => (Some(Ask::MakeLink(text.len())), Some(Ask::Stat(0))),
        Operation::Link { .. } => (Some(Ask::Link(0, 1)), Some(Ask::Stat(1))),
        Operation::Write { offset, data, .. } => (Some(Ask::Write(offset, data.len())), None),
        Operation::Sync { .. } => (Some(Ask::Sync), None),
        Operation::OpenDir => (Some(Ask::List), None),
        Operation::MakeDir { mode, umask, .. } => (
            Some(Ask::MakeDir(made_with(settings, mode, umask))),
            Some(Ask::Stat(0)),
        ),
        Operation::Unlink { .. } => (Some(Ask::Remove), None),
        Operation::RemoveDir { .. } => (Some(Ask::RemoveDir), None),
        Operation::Rename { .. } | Operation::Rename2 { .. } if same => (Some(Ask::Stat(0)), None),
        Operation::Rename { .. } | Operation::Rename2 { flags: 0, .. } => {
            (Some(Ask::Rename(0, 1)), None)
        }
        Operation::Rename2 { flags: 1, .. } => (Some(Ask::RenameNew(0, 1)), None),
        Operation::Rename2 { flags: 2, .. } => (Some(Ask::Exchange(0, 1)), None),
        _ => (None, None),
    }
}

/// A folder has size 0, no more is read or written than was asked for, and a link's text has fewer than 4,096 bytes.
/// Error numbers are 1 to 4,095. An answer of another kind than its call's is EIO.
fn counts_as(ask: Ask, answer: &Answer) -> Counts {
    match (ask, answer) {
        (_, Answer::Fault(errno)) if (1..4096).contains(errno) => Counts::Error(*errno),
        (
            Ask::Stat(_),
            Answer::Stat {
                kind,
                size,
                details,
            },
        ) if *kind != Kind::Folder || *size == 0 => Counts::Found(FoundFile {
            kind: *kind,
            size: *size,
            details: *details,
        }),
        (Ask::Stat(_), _) => Counts::Error(EIO),
        (Ask::List, Answer::Names(names)) => Counts::Names(names.as_slice().len()),
        (Ask::List, _) => Counts::Error(EIO),
        (Ask::Read(_, size), Answer::Bytes(bytes)) if bytes.len() <= size as usize => {
            Counts::Bytes(bytes.len())
        }
        (Ask::ReadLink, Answer::Bytes(text)) if text.len() < 4096 => Counts::Bytes(text.len()),
        (Ask::Write(_, given), Answer::Wrote(count)) if *count <= given => match u32::try_from(
            *count,
        ) {
            Ok(size) => Counts::Wrote(size),
            Err(_) => Counts::Error(EIO),
        },
        (Ask::Read(..) | Ask::ReadLink | Ask::Write(..), _) => Counts::Error(EIO),
        (_, Answer::Done) => Counts::Done,
        (_, _) => Counts::Error(EIO),
    }
}

/// The result, given what the last answer counts as. For a move that replaces nothing only a Stat finds something: its
/// target, which is its source.
fn ends_with(operation: Operation<'_>, last: Counts) -> Ends {
    match (operation, last) {
        (
            Operation::Lookup { .. }
            | Operation::MakeDir { .. }
            | Operation::MakeLink { .. }
            | Operation::Link { .. },
            Counts::Found(found),
        ) => Ends::NewEntry(found),
        (Operation::Create { .. }, Counts::Found(found)) => Ends::NewFile(found),
        (Operation::GetAttr, Counts::Found(found)) => Ends::Attributes(found),
        (Operation::Open { .. }, Counts::Found(found)) => match found.kind {
            Kind::Folder => Ends::Error(EISDIR),
            Kind::File => Ends::Opening,
            Kind::Link | Kind::Special(_) => Ends::Error(EINVAL),
        },
        (Operation::Read { .. } | Operation::ReadLink, Counts::Bytes(bytes)) => Ends::Bytes(bytes),
        (Operation::Write { .. }, Counts::Wrote(size)) => Ends::Written(size),
        (Operation::OpenDir, Counts::Names(names)) => Ends::Listed(names),
        (Operation::Rename2 { flags: 1, .. }, Counts::Found(_)) => Ends::Error(EEXIST),
        _ => Ends::Nothing,
    }
}

/// The state for a page with two names: a name that is not found counts as nothing, and does not end it.
fn page_after(answers: &[Answer]) -> Stands {
    let mut founds = [None, None];
    for name in 0..2usize {
        let Some(answer) = answers.get(name) else {
            return Stands::Asks(Ask::Stat(name + 1));
        };
        if let Counts::Found(found) = counts_as(Ask::Stat(name + 1), answer) {
            founds[name] = Some(found);
        }
    }
    let there = [founds[0].is_some(), founds[1].is_some()];
    Stands::Over(Ends::Looked(founds, there))
}

/// The next answer to what is asked, or the state of the script without it.
fn take(answers: &mut Iter<'_, Answer>, ask: Ask) -> Result<Counts, Stands> {
    match answers.next() {
        Some(answer) => Ok(counts_as(ask, answer)),
        None => Err(Stands::Asks(ask)),
    }
}

/// The same for what must succeed: an error ends the script.
fn take_done(answers: &mut Iter<'_, Answer>, ask: Ask) -> Result<(), Stands> {
    match take(answers, ask)? {
        Counts::Error(errno) => Err(Stands::Over(Ends::Error(errno))),
        _ => Ok(()),
    }
}

/// Moves the file at one index to the first candidate at which nothing exists, and returns the candidate's index.
/// Candidates start at the other index.
fn hide(answers: &mut Iter<'_, Answer>, from: usize, first: usize) -> Result<usize, Stands> {
    for candidate in 0..CANDIDATES {
        let to = first.saturating_add(candidate);
        match take(answers, Ask::Stat(to))? {
            Counts::Error(ENOENT) => {
                take_done(answers, Ask::Rename(from, to))?;
                return Ok(candidate);
            }
            Counts::Error(errno) => return Err(Stands::Over(Ends::Error(errno))),
            _ => {}
        }
    }
    Err(Stands::Over(Ends::Error(EBUSY)))
}

/// The state for an UNLINK that hides.
fn unlink_after(answers: &[Answer]) -> Result<Ends, Stands> {
    let mut answers = answers.iter();
    Ok(Ends::Hid(hide(&mut answers, 0, 1)?))
}

/// The state for a RENAME that hides: a folder cannot replace a file, and if a move fails after the file was hidden,
/// the result says so.
fn rename_after(answers: &[Answer]) -> Result<Ends, Stands> {
    let mut answers = answers.iter();
    match take(&mut answers, Ask::Stat(0))? {
        Counts::Error(errno) => return Ok(Ends::Error(errno)),
        Counts::Found(found) if found.kind == Kind::Folder => return Ok(Ends::Error(ENOTDIR)),
        _ => {}
    }
    let candidate = hide(&mut answers, 1, 2)?;
    Ok(match take(&mut answers, Ask::Rename(0, 1))? {
        Counts::Error(errno) => Ends::Unmoved(candidate, errno),
        _ => Ends::Replaced(candidate),
    })
}

/// The state for a RELEASE that removes its file: it succeeds, whatever the answer is.
fn release_after(answers: &[Answer]) -> Result<Ends, Stands> {
    let mut answers = answers.iter();
    Ok(match take(&mut answers, Ask::Remove)? {
        Counts::Error(_) => Ends::Kept,
        _ => Ends::Nothing,
    })
}

/// The state for a SETATTR: one part after another is set, and then there is a Stat.
fn set_after(asks: [Option<Ask>; 4], answers: &[Answer]) -> Result<Ends, Stands> {
    let mut answers = answers.iter();
    for ask in asks {
        if let Some(ask) = ask {
            take_done(&mut answers, ask)?;
        }
    }
    Ok(match take(&mut answers, Ask::Stat(0))? {
        Counts::Error(errno) => Ends::Error(errno),
        Counts::Found(found) => Ends::Attributes(found),
        _ => Ends::Nothing,
    })
}

/// The state: asking, or over.
fn standing(ends: Result<Ends, Stands>) -> Stands {
    match ends {
        Ok(ends) => Stands::Over(ends),
        Err(stands) => stands,
    }
}

/// The state of a request's script after these answers. Answers after its end are ignored.
pub fn stands_after(
    settings: Settings,
    operation: Operation<'_>,
    form: Form,
    answers: &[Answer],
) -> Stands {
    match operation {
        Operation::ReadDirPlus { .. } => return page_after(answers),
        Operation::SetAttr {
            valid,
            size,
            attributes,
            ..
        } => return standing(set_after(asks_to_set(valid, size, attributes), answers)),
        Operation::Unlink { .. } if form.hide => return standing(unlink_after(answers)),
        Operation::Rename { .. } | Operation::Rename2 { flags: 0, .. } if form.hide => {
            return standing(rename_after(answers));
        }
        Operation::Release { .. } if form.last => return standing(release_after(answers)),
        _ => {}
    }
    let mut last = Counts::Done;
    let (first, second) = asks_of(settings, operation, form.same);
    let mut answers = answers.iter();
    for ask in [first, second] {
        let Some(ask) = ask else {
            return Stands::Over(ends_with(operation, last));
        };
        let Some(answer) = answers.next() else {
            return Stands::Asks(ask);
        };
        last = counts_as(ask, answer);
        if let Counts::Error(errno) = last {
            return Stands::Over(Ends::Error(errno));
        }
    }
    Stands::Over(ends_with(operation, last))
}
