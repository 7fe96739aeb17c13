//! How many folders are open, and how many names they show. Threads share the counts.

ghost use Rattle.std.specs.Prelude.{◌≡◌, ◌+◌, ◌-◌, ◌<◌, ◌≤◌, [], true, false, IfOk, IfSome};
ghost use Rattle.handles.specs.Counts.{amount, with_amount, limit};

use crate::counted::{Begins, Counted, Lowers, Raises, Sums};
use crate::limits::FolderLimits;
use atomic_table::{Seat, Table};
use std::alloc::{AllocError, Global};

/// The word that counts folders.
const FOLDERS: usize = 0;

/// The word that counts names.
const NAMES: usize = 1;

/// The two counts, and their limits. Each count is the sum of what the tokens have of it: it never falls below zero, and
/// never passes its limit.
#[derive(Drop)]
pub(crate) struct Counts {
    table: Table<u64, Counted, FolderLimits, Sums, Global>,
    limits: FolderLimits,
    ghost words: { table.shared.table_id.words ≡ 2 },
    ghost key: { table.shared.key ≡ limits },
}

/// The token of one folder and its names. It cannot be copied, so what it stands for is given back once. If it is
/// dropped, its folder stays counted.
#[derive(Drop)]
pub(crate) struct Taken {
    pub(crate) seat: Seat<u64, Counted>,
    pub(crate) names: u64,
    ghost has: { seat.me ≡ (record { folders = 1; names = names }, []) },
}

impl Counts {
    /// Both counts are 0.
    pub(crate) fn new(alloc: Global, limits: FolderLimits) -> Result<Counts, AllocError>
        ensures { IfOk result (λ counts. counts.limits ≡ limits) }
    {
        let (table, _) = Table::of_words(alloc, &[0, 0], &limits)?;
        Ok(Counts { table, limits })
    }

    /// Raises a count by `more`. False means that it would exceed its limit `most`, and then it stays as it is.
    fn raise(&self, seat: &mut Seat<u64, Counted>, word: usize, more: u64, most: u64) -> bool
        requires table { seat.old.table_id ≡ self.now.table.shared.table_id }
        requires word { word < 2 }
        requires most { most ≡ limit word self.now.limits }
        ensures table { seat.new.table_id ≡ seat.old.table_id }
        ensures raised { result ≡ true → (seat.new.me ≡ (with_amount word seat.old.me.0 (amount word seat.old.me.0 + more), seat.old.me.1)) × (more ≤ most) }
        ensures same { result ≡ false → seat.new.me ≡ seat.old.me }
    {
        let mut seen = self.table.shared.peek(word);
        for _ in 0..u64::MAX {
            let Some(after) = seen.checked_add(more) else {
                return false;
            };
            if after > most {
                return false;
            }
            let found = self
                .table
                .shared
                .compare_exchange::<Raises>(seat, word, seen, after);
            if found == seen {
                return true;
            }
            seen = found;
        }
        false
    }

    /// Lowers a count by `less`, which the token has of it.
    fn lower(&self, seat: &mut Seat<u64, Counted>, word: usize, less: u64)
        requires table { seat.old.table_id ≡ self.now.table.shared.table_id }
        requires word { word < 2 }
        requires less { less ≤ amount word seat.old.me.0 }
        ensures table { seat.new.table_id ≡ seat.old.table_id }
        ensures lowered { seat.new.me ≡ (with_amount word seat.old.me.0 (amount word seat.old.me.0 - less), seat.old.me.1) }
    {
        self.table.shared.fetch_sub::<Lowers>(seat, word, less);
    }

    /// Counts one more folder with that many names. None means that it would exceed a limit, and then nothing is
    /// counted.
    pub(crate) fn take(&self, names: u64) -> Option<Taken>
        ensures token { IfSome result (λ taken. (taken.seat.table_id ≡ self.now.table.shared.table_id) × (taken.names ≡ names)) }
        ensures within { IfSome result (λ taken. (1 ≤ self.now.limits.folders) × (names ≤ self.now.limits.names)) }
    {
        let (_, mut seat) = self.table.shared.load_new_seat::<Begins>(FOLDERS);
        if !self.raise(&mut seat, FOLDERS, 1, self.limits.folders) {
            return None;
        }
        if !self.raise(&mut seat, NAMES, names, self.limits.names) {
            self.lower(&mut seat, FOLDERS, 1);
            return None;
        }
        Some(Taken { seat, names })
    }

    /// Counts the token's folder and its names no longer.
    pub(crate) fn give_back(&self, taken: Taken)
        requires { taken.seat.table_id ≡ self.now.table.shared.table_id }
    {
        let Taken { mut seat, names } = taken;
        self.lower(&mut seat, FOLDERS, 1);
        self.lower(&mut seat, NAMES, names);
    }
}
