//! What a caller has pending between its calls.

ghost use Rattle.std.specs.Prelude.{◌≡◌, IfOk};

use std::alloc::{AllocError, Global};
use std::marker::Model;
use table::{Answered, Ticket, Want};

/// A ticket, with the want that its request was begun with. The want is kept here since a ticket does not show it, and
/// the law says what the ticket's paths are.
#[must_use]
pub struct Started {
    pub ticket: Ticket,
    pub want: Want,
}

/// The tickets that were not finished yet and the answers that were not settled yet. A call refers to one of them by
/// its index.
#[must_use]
pub struct Pending {
    pub(crate) tickets: Vec<Started>,
    pub(crate) answers: Vec<Answered>,
}

impl Model for Pending {
    ghost use Rattle.laws.specs.Outstanding.{Outstanding};

    ghost Value = { Outstanding };

    ghost view = { λ p. record { tickets = p.tickets.items; answers = p.answers.items } };
}

impl Pending {
    ghost use Rattle.std.specs.Prelude.{ℕ, []};
    ghost use Rattle.laws.specs.Runs.{IsCurrentAt};
    ghost use Rattle.table_steps.specs.World.{World};

    /// Nothing pending. On any table all of its tickets are current, since there are none.
    pub fn new(alloc: Global) -> Pending
        ensures empty { result ≡ record { tickets = []; answers = [] } }
        ensures current { (w : World) (id : ℕ) → IsCurrentAt w result id }
    {
        Pending {
            tickets: Vec::new(alloc),
            answers: Vec::new(alloc),
        }
    }

    /// The tickets and the answers.
    pub fn into_parts(self) -> (Vec<Started>, Vec<Answered>)
        ensures tickets { result.0.items ≡ self.tickets }
        ensures answers { result.1.items ≡ self.answers }
    {
        let Pending { tickets, answers } = self;
        (tickets, answers)
    }

    /// The tickets, in the order of their begins.
    pub fn tickets(&self) -> &[Started]
        ensures { result.now ≡ self.now.tickets }
    {
        self.tickets.as_slice()
    }

    /// The answers, in the order of their finishes.
    pub fn answers(&self) -> &[Answered]
        ensures { result.now ≡ self.now.answers }
    {
        self.answers.as_slice()
    }
}

/// A copy of the want.
pub(crate) fn copy_of(want: &Want) -> Result<Want, AllocError>
    ensures { IfOk result (λ w. w ≡ want.now) }
{
    match want {
        Want::Node { number, handle } => Ok(Want::Node {
            number: *number,
            handle: *handle,
        }),
        Want::Name { parent, name } => Ok(Want::Name {
            parent: *parent,
            name: name.copy()?,
        }),
        Want::Remove {
            parent,
            name,
            may_hide,
        } => Ok(Want::Remove {
            parent: *parent,
            name: name.copy()?,
            may_hide: *may_hide,
        }),
        Want::Move {
            parent,
            name,
            new_parent,
            new_name,
            keep,
        } => Ok(Want::Move {
            parent: *parent,
            name: name.copy()?,
            new_parent: *new_parent,
            new_name: new_name.copy()?,
            keep: *keep,
        }),
        Want::Exchange {
            parent,
            name,
            new_parent,
            new_name,
        } => Ok(Want::Exchange {
            parent: *parent,
            name: name.copy()?,
            new_parent: *new_parent,
            new_name: new_name.copy()?,
        }),
        Want::Page { folder, names } => Ok(Want::Page {
            folder: *folder,
            names: names.copy()?,
        }),
        Want::Open { number, access } => Ok(Want::Open {
            number: *number,
            access: *access,
        }),
        Want::Create {
            parent,
            name,
            access,
        } => Ok(Want::Create {
            parent: *parent,
            name: name.copy()?,
            access: *access,
        }),
        Want::Release { number, fh } => Ok(Want::Release {
            number: *number,
            fh: *fh,
        }),
        Want::Link {
            number,
            parent,
            name,
        } => Ok(Want::Link {
            number: *number,
            parent: *parent,
            name: name.copy()?,
        }),
    }
}
