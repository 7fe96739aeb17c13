//! The calls of a script one by one, with an answer to each: where each is asked, and that a fault of each ends it.

use crate::scripts::answers::DETAILS;
use crate::scripts::asks::{Ask, Ends, Stands};
use crate::scripts::compare::{Row, script_after};
use backing::Answer;
use ops::FoundFile;
use payload::{Details, Kind};
use std::alloc::{AllocError, Global};
use table::Ticket;

/// A call, and an answer to it.
#[derive(Clone, Copy)]
pub enum Step {
    /// It is done.
    Does(Ask),
    /// A Stat of what was made, which belongs to this user and this group.
    Finds(u32, u32),
    /// The script is over with this entry of that user and group: a node, or a node that is opened.
    Gives(u32, u32),
    Opens(u32, u32),
}

use Step::{Does, Finds, Gives, Opens};

/// What is found of that user and that group: a file of five bytes.
fn of_owner(uid: u32, gid: u32) -> FoundFile {
    FoundFile {
        kind: Kind::File,
        size: 5,
        details: Details {
            uid,
            gid,
            ..DETAILS
        },
    }
}

/// The state in which the step is next.
fn before(step: Step) -> Stands {
    match step {
        Does(ask) => Stands::Asks(ask),
        Finds(..) => Stands::Asks(Ask::Stat(0)),
        Gives(uid, gid) => Stands::Over(Ends::NewEntry(of_owner(uid, gid))),
        Opens(uid, gid) => Stands::Over(Ends::NewFile(of_owner(uid, gid))),
    }
}

/// The answer to the step.
fn answer_to(step: Step) -> Answer {
    match step {
        Finds(uid, gid) => {
            let FoundFile {
                kind,
                size,
                details,
            } = of_owner(uid, gid);
            Answer::Stat {
                kind,
                size,
                details,
            }
        }
        Does(_) | Gives(..) | Opens(..) => Answer::Done,
    }
}

/// The answers to these steps, and then this one, if any.
fn answers_to(alloc: Global, steps: &[Step], last: Option<i32>) -> Result<Vec<Answer>, AllocError> {
    let mut answers = Vec::new(alloc);
    for step in steps {
        answers.push(answer_to(*step))?;
    }
    if let Some(errno) = last {
        answers.push(Answer::Fault(errno))?;
    }
    Ok(answers)
}

/// Whether the script asks for this step after those before it, and a fault in its place ends the script with its error.
/// Of the last step, which is an end, a further answer is ignored.
fn is_next(
    alloc: Global,
    row: &Row<'_>,
    ticket: &Ticket,
    done: &[Step],
    step: Step,
) -> Result<bool, AllocError> {
    let next = script_after(alloc, row, ticket, answers_to(alloc, done, None)?)?;
    let failed = script_after(alloc, row, ticket, answers_to(alloc, done, Some(5))?)?;
    let ends = match step {
        Does(_) | Finds(..) => Stands::Over(Ends::Error(5)),
        Gives(..) | Opens(..) => next,
    };
    Ok(next == before(step) && failed == ends)
}

/// The first step of the row that is not as it says.
pub fn wrong_step(
    alloc: Global,
    row: &Row<'_>,
    ticket: &Ticket,
) -> Result<Option<u32>, AllocError> {
    let mut number = 0u32;
    for (at, step) in row.steps.iter().enumerate() {
        if !is_next(alloc, row, ticket, &row.steps[..at], *step)? {
            return Ok(Some(number));
        }
        number = number.saturating_add(1);
    }
    Ok(None)
}
