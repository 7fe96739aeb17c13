//! Comparing a script with the slow program, after all short lists of answers.

ghost use Rattle.std.specs.Prelude.{◌≡◌};

use crate::scripts::answers::{LISTS, answers_of};
use crate::scripts::asks::{Ask, Ends, Form, Stands, ask_of, ends_of, form_of};
use crate::scripts::owners::{Step, wrong_step};
use crate::scripts::slow::stands_after;
use backing::{Answer, Child};
use handles::Page;
use ledger::{Blanks, Ledgers, Share};
use ops::{FolderUse, Intent, Paged, Script, Settings, intent_of};
use paths::Name;
use payload::Kind;
use std::alloc::{AllocError, Global};
use std::marker::Brand;
use std::test::Fail;
use table::{Begin, Limits, Outcome, Seeds, Table, Ticket, Want};
use table_files::Access;
use wire::{Caller, Operation, Request};

/// What was done before a request begins. The root is open as file 1.
#[derive(Clone, Copy, PartialEq, Eq)]
pub enum Before {
    Nothing,
    /// `a` is node 2, and open as file 2.
    Opened,
    /// The same, and it was hidden under its first candidate.
    Hidden,
}

/// A request, and how it is tested.
#[derive(Clone, Copy)]
pub struct Row<'a> {
    pub before: Before,
    pub node: u64,
    pub operation: Operation<'a>,
    /// What its ticket says.
    pub form: Form,
    pub settings: Settings,
    pub caller: Caller,
    /// That many answers come before each list: they say that a call succeeded, and then that there is a file.
    pub done: u32,
    pub files: u32,
    /// If there are any, the calls of its script with answers to them, in place of all lists.
    pub steps: &'a [Step],
}

/// The row's request.
fn request_of<'a>(row: &Row<'a>) -> Request<'a> {
    Request {
        unique: 1,
        node: row.node,
        caller: row.caller,
        operation: row.operation,
    }
}

fn feed_all(script: &mut Script<'_>, answers: Vec<Answer>) {
    for answer in answers {
        script.feed(answer);
    }
}

/// What the script asks next, if it is not over.
fn asked(script: &Script<'_>, ticket: &Ticket) -> Option<Ask> {
    match script.next() {
        Some(call) => Some(ask_of(call, ticket.paths())),
        None => None,
    }
}

/// The state of the script after these answers.
pub fn script_after(
    alloc: Global,
    row: &Row<'_>,
    ticket: &Ticket,
    answers: Vec<Answer>,
) -> Result<Stands, AllocError> {
    let mut script = Script::start(alloc, row.settings, request_of(row), ticket)?;
    feed_all(&mut script, answers);
    Ok(match asked(&script, ticket) {
        Some(ask) => Stands::Asks(ask),
        None => Stands::Over(ends_of(script.into_result())),
    })
}

/// What the slow program tells of a file that is hidden: it has one link less.
fn shown(row: &Row<'_>, slow: Stands) -> Stands {
    match slow {
        Stands::Over(Ends::Attributes(mut found))
            if row.node == 2 && row.before == Before::Hidden => {
            found.details.links = found.details.links.saturating_sub(1);
            Stands::Over(Ends::Attributes(found))
        }
        other => other,
    }
}

/// The first list of answers after which the script is in another state than the slow program.
fn first_other(alloc: Global, row: &Row<'_>, ticket: &Ticket) -> Result<Option<u32>, AllocError> {
    for number in 0..LISTS {
        let answers = answers_of(alloc, row, number)?;
        let slow = stands_after(row.settings, row.operation, row.form, &answers);
        if script_after(alloc, row, ticket, answers)? != shown(row, slow) {
            return Ok(Some(number));
        }
    }
    Ok(None)
}

/// Takes a request to its end, if it begins. Returns the handle of the file that it opened.
fn carry<T: Ledgers>(
    table: &mut Table<T>,
    share: &mut Share<T>,
    want: Want,
    outcome: Outcome,
) -> Option<u64> {
    match table.begin(1, want) {
        Begin::Go(ticket) => {
            let answered = table.finish(share, ticket, outcome);
            let opened = answered.opened();
            table.settle(share, answered, true);
            opened
        }
        Begin::Busy | Begin::Refused(_) => None,
    }
}

/// Opens a node for reading and writing. True means that it has this handle.
fn open_node<T: Ledgers>(table: &mut Table<T>, share: &mut Share<T>, number: u64, fh: u64) -> bool {
    let want = Want::Open {
        number,
        access: Access::Both,
    };
    carry(table, share, want, Outcome::Done) == Some(fh)
}

/// Does what is to be done before a request. True means that the files are open.
fn prepare<T: Ledgers>(
    alloc: Global,
    table: &mut Table<T>,
    share: &mut Share<T>,
    before: Before,
) -> Result<bool, AllocError> {
    let is_open = open_node(table, share, 1, 1);
    if before == Before::Nothing {
        return Ok(is_open);
    }
    let parent = 1;
    let name = Name::from_text(alloc, "a")?;
    carry(table, share, Want::Name { parent, name }, Outcome::Entry);
    let are_open = is_open && open_node(table, share, 2, 2);
    if before == Before::Hidden {
        let want = Want::Remove {
            parent,
            name: Name::from_text(alloc, "a")?,
            may_hide: true,
        };
        carry(table, share, want, Outcome::Hidden(0));
    }
    Ok(are_open)
}

/// A page of the root with `.` and two names.
fn page_of(alloc: Global) -> Result<Paged, AllocError> {
    let mut entries = Vec::new(alloc);
    for name in [".", "a", "b"] {
        let name = Name::from_text(alloc, name)?;
        entries.push(Child {
            name,
            kind: Kind::File,
        })?;
    }
    let page = Page {
        from: 0,
        entries: &entries,
    };
    Paged::copy_of(alloc, page)
}

/// The want of the request, if it has one. If it uses an open folder, it returns that page.
fn want_of(
    alloc: Global,
    settings: Settings,
    request: &Request<'_>,
) -> Result<Option<Want>, AllocError> {
    match intent_of(settings, request) {
        Intent::Want(wanted) => Ok(Some(wanted.own(alloc)?)),
        Intent::Folder {
            usage: FolderUse::ReadEntries { .. },
            ..
        } => Ok(Some(page_of(alloc)?.want(alloc, request.node)?)),
        _ => Ok(None),
    }
}

/// The same, if the ticket has the row's form. Otherwise all lists differ.
fn other_of(alloc: Global, row: &Row<'_>, ticket: &Ticket) -> Result<Option<u32>, AllocError> {
    if form_of(ticket) != row.form {
        Ok(Some(LISTS))
    } else if row.steps.is_empty() {
        first_other(alloc, row, ticket)
    } else {
        wrong_step(alloc, row, ticket)
    }
}

/// The same for a request that begins and is then ended. If it does not begin, all lists differ.
fn other_begun<T: Ledgers>(
    alloc: Global,
    table: &mut Table<T>,
    share: &mut Share<T>,
    row: &Row<'_>,
    want: Want,
) -> Result<Option<u32>, AllocError> {
    match table.begin(1, want) {
        Begin::Go(ticket) => {
            let other = other_of(alloc, row, &ticket);
            let answered = table.finish(share, ticket, Outcome::Failed);
            table.settle(share, answered, true);
            other
        }
        Begin::Busy | Begin::Refused(_) => Ok(Some(LISTS)),
    }
}

/// Whether the files of the row are open, and the first list that differs.
fn tell_row<T: Ledgers>(
    alloc: Global,
    table: &mut Table<T>,
    share: &mut Share<T>,
    row: &Row<'_>,
    want: Want,
) -> Result<(bool, Option<u32>), AllocError> {
    let are_open = prepare(alloc, table, share, row.before)?;
    let other = other_begun(alloc, table, share, row, want)?;
    Ok((are_open, other))
}

/// A new table with one share.
fn open_one<T: Ledgers>(
    alloc: Global,
    seeds: Seeds,
    blanks: Blanks,
) -> Result<(Table<T>, Share<T>), AllocError>
    requires names { blanks ≡ T.names }
    requires shares { T.names.parts ≡ 1 }
{
    let (table, mut shares) = Table::<T>::open(alloc, Limits::default(), seeds, blanks, 1)?;
    let share = shares.pop().unwrap();
    shares.destroy_empty();
    Ok((table, share))
}

/// The same on a table of its own, which is dropped before anything is judged: checking code that may drop a table in
/// many places takes long.
fn tell_alone<T: Ledgers>(
    alloc: Global,
    seeds: Seeds,
    blanks: Blanks,
    row: &Row<'_>,
    want: Want,
) -> Result<(bool, Option<u32>), AllocError>
    requires names { blanks ≡ T.names }
    requires shares { T.names.parts ≡ 1 }
{
    let (mut table, mut share) = open_one::<T>(alloc, seeds, blanks)?;
    let told = tell_row(alloc, &mut table, &mut share, row, want);
    share.leave();
    told
}

/// The same on new ledgers. It is no part of the tests, so that the types of a table are met once.
fn tell_new(rt: &HostRuntime, row: &Row<'_>, want: Want) -> Result<(bool, Option<u32>), Fail> {
    let seeds = Seeds::new(rt)?;
    Ok(tell_alone::<Brand>(rt.alloc(), seeds, Blanks::new(1), row, want)?)
}

/// Compares the script of a request with the slow program, or with the row's steps, on a table of its own. Fails with the
/// number of the first list of answers, or step, after which they differ, or with how many lists there are if it does not
/// begin in its form.
pub fn compare(rt: &HostRuntime, row: &Row<'_>) -> Result<(), Fail> {
    let request = request_of(row);
    let Some(want) = want_of(rt.alloc(), row.settings, &request)? else {
        return Err(Fail::from(("no want", request.unique)));
    };
    match tell_new(rt, row, want)? {
        (true, None) => Ok(()),
        (false, None) => Err(Fail::from(("a file is not open", request.unique))),
        (_, Some(number)) => Err(Fail::from(("differs after list", number))),
    }
}
