//! What the history of a table records of a call.

use ledger::Ledgers;
use shared_history::Naming;
use std::marker::{Brand, PhantomData};
use std::snapshot::Snapshot;
use table::{Answered, Begin, Outcome, Settled, Table};
use table_files::OpenFile;
use table_requests::Want;

/// A call on the table, with its arguments and its result.
#[derive(Drop)]
pub enum Event {
    Begin {
        unique: u64,
        want: Snapshot<Want>,
        told: Snapshot<Begin>,
    },
    Finish {
        id: u64,
        outcome: Snapshot<Outcome>,
        told: Snapshot<Answered>,
    },
    Settle {
        answered: Snapshot<Answered>,
        taken: bool,
        told: Snapshot<Settled>,
    },
    Forget {
        number: u64,
        n: u64,
        told: u64,
    },
    /// A look-up of the file open under a handle.
    Look {
        fh: u64,
        told: Snapshot<Option<OpenFile>>,
    },
}

/// The call, and the table after it.
#[derive(Drop)]
pub struct LogEntry<T: Ledgers> {
    pub event: Event,
    pub after: Snapshot<Table<T>>,
}

/// Which history it is, how the table was opened, and for how many threads. Each call of a program chooses them.
pub trait Opening {
    ghost use Rattle.std.specs.Prelude.{ℕ};
    ghost use Rattle.atomic_table.specs.Seated.{TableId};
    ghost use Rattle.terms.specs.declared.limits.Limits.{Limits};

    ghost history: { TableId };

    ghost limits: { Limits };

    ghost threads: { ℕ };
}

impl Opening for Brand {
    ghost use Rattle.std.specs.Prelude.{[]};
    ghost use Rattle.terms.specs.declared.limits.Counts.TheVariants.{Bounded};

    ghost history = { record { words = 0; slots = 0; views_name = 0; atom = 0; block = 0; offset = 0; slot_names = [] } };

    ghost limits = { record { nodes = 0; postings = 0; counts = Bounded; flights = 0; files = 0 } };

    ghost threads = { 0 };
}

/// A log is lawful if it is a run of the opened table.
pub struct Runs<O> {
    of: PhantomData<O>,
}

impl<T: Ledgers, O: Opening> Naming<LogEntry<T>> for Runs<O> {
    ghost use Rattle.table_shared.specs.Runs.{IsRun};
    ghost use Rattle.table_steps.specs.World.{opened_world};

    ghost table = { O.history };

    ghost lawful = { IsRun (opened_world O.limits) };
}
