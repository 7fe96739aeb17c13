//! A folder of a system of which nothing is claimed.

ghost use Rattle.std.specs.Prelude.{◌≡◌, ◌≢◌, IfErr, IfOk};
ghost use Rattle.mirrord_sessions.specs.declared.folder.Unserved.TheVariants.{NoSocket};

use crate::disks::not_opened;
use crate::folder::Unserved;
use backing::{Answer, Call, Calls};
use disk::{System, Unknown};
use disk_folder::Folder;
use std::hash::RandomState;
use std::marker::Model;

/// A folder of a system of which nothing is claimed. Contracts know of it how many of its calls have failed.
///
/// It is generic, so that what a folder is made of is checked here once, and not in each function that has one of Linux.
pub(crate) struct ToldFolder<S: System + Drop> {
    folder: Folder<Unknown<S>>,
}

impl<S: System + Drop> Drop for ToldFolder<S> {
    // This is a call so that code that drops a folder is not checked for each of its parts.
    fn drop(self) {
        let ToldFolder { folder: _ } = self;
    }
}

impl<S: System + Drop> Model for ToldFolder<S> {
    ghost use Rattle.std.specs.Prelude.{ℕ};

    ghost Value = { ℕ };

    ghost view = { λ f. f.folder.1 };
}

impl<S: System + Drop> ToldFolder<S> {
    /// The folder of the system. It keeps so many files and folders open at most, besides that one, and hashes by that seed.
    pub(crate) fn new(
        system: S,
        capacity: usize,
        seed: RandomState,
    ) -> Result<ToldFolder<S>, Unserved>
        ensures unused { IfOk result (λ folder. folder ≡ 0) }
        ensures why { IfErr result (λ why. why ≢ NoSocket) }
    {
        match Folder::new(Unknown::new(system), capacity, seed) {
            Ok(folder) => Ok(ToldFolder { folder }),
            Err(error) => Err(not_opened(error)),
        }
    }
}

impl<S: System + Drop> Calls for ToldFolder<S> {
    ghost use Rattle.disk_folder.specs.Explained.{Tells};
    ghost use Rattle.disk_folder.specs.CallLemmas.{gives_counts};

    ghost gives = { Tells };

    ghost faults = { λ failures. failures };

    ghost counts = { gives_counts };

    fn call(&mut self, call: Call<'_>) -> Answer {
        self.folder.call(call)
    }

    fn offer_room(&mut self, buffer: &mut Vec<u8>) {
        self.folder.offer_room(buffer);
    }
}
