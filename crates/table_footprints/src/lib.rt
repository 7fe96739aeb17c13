//! What a want reserves in a table: one footprint for each want.
#![tactic(auto)]

mod closing;
mod data;
mod footprints;
mod found;
mod gatherings;
mod in_folder;
mod pages;
mod refusal;
mod removals;

ghost use Rattle.std.specs.Prelude.{◌≡◌, ◌∷◌, [], IfOk, IfErr};
ghost use Rattle.table_footprints.specs.Cases.{seen_of};
ghost use Rattle.table_footprints.specs.Laws.{AreFootprintsFixed, AreGrounded};
ghost use Rattle.table_footprints.specs.NewRequests.{IsNewRequest, IsRefusedRequest, copied as name_copied, copied_page};
ghost use Rattle.table_footprints.specs.Gatherings.{IsRecord};
ghost use Rattle.table_footprints.specs.Footprints.{hidden_in};

pub use data::NewRequest;
use errno::ENOMEM;
use footprints::reservation_for;
use gatherings::Reservation;
use paths::Name;
use std::alloc::{AllocError, Global};
use table_files::Files;
use table_requests::{Case, Names, Want, Work};
use tree::Tree;

/// For the prover: a want has one footprint, for each state of the nodes.
pub fn footprints_are_fixed()
    ensures { AreFootprintsFixed }
{}

/// For the prover: the locations of each footprint are at or under the nodes that it names, their paths are covered,
/// and the names that change are held exclusively.
pub fn footprints_are_grounded()
    ensures { AreGrounded }
{}

/// What a request with that want is to be recorded with, if the tests of the nodes allow it. The nodes, the open files
/// and the counter of the next hidden name determine the case of the want.
///
/// The tests are made in this order. [`errno::ESTALE`]: a node that the want names is not alive, or is cut; nothing is
/// allocated before this test. [`errno::ENAMETOOLONG`]: a path of the ticket is longer than 4,096 bytes.
/// [`errno::EINVAL`]: a name would be moved below itself. [`errno::ENOTEMPTY`]: a name would be moved onto a folder
/// that contains it. [`errno::ENOMEM`] may come in place of any error but the first, if memory is refused.
pub fn new_request(
    alloc: Global,
    tree: &Tree,
    files: &Files,
    counter: u32,
    want: Want,
) -> Result<NewRequest, i32>
    ensures ok { IfOk result (IsNewRequest (seen_of tree.now files.now counter) want) }
    ensures err { IfErr result (IsRefusedRequest (seen_of tree.now files.now counter) want) }
{
    let reservation = match reservation_for(alloc, tree, files, counter, &want) {
        Ok(reservation) => reservation,
        Err(refusal) => return Err(refusal.errno()),
    };
    match recorded(alloc, want, reservation) {
        Ok(new_request) => Ok(new_request),
        Err(_) => Err(ENOMEM),
    }
}

/// A copy of the name that the want may give to a node.
fn copied(want: &Want) -> Result<Option<Name>, AllocError>
    ensures { IfOk result (λ copy. copy ≡ name_copied want.now) }
{
    match want {
        Want::Node { .. }
        | Want::Remove { .. }
        | Want::Page { .. }
        | Want::Open { .. }
        | Want::Release { .. } => Ok(None),
        Want::Name { name, .. }
        | Want::Move { new_name: name, .. }
        | Want::Exchange { new_name: name, .. }
        | Want::Create { name, .. }
        | Want::Link { name, .. } => Ok(Some(name.copy()?)),
    }
}

/// That name only.
fn one_name(alloc: Global, name: Name) -> Result<Names, AllocError>
    ensures { IfOk result (λ names. names ≡ name ∷ []) }
{
    let mut names = Vec::new(alloc);
    names.push(name)?;
    Ok(Names::from_vec(names))
}

/// A copy of the names of a page, of the candidates under which a file may be hidden, or of the first name of an
/// exchange.
fn copies(alloc: Global, want: &Want, _case: Case, candidates: &Names) -> Result<Names, AllocError>
    requires { candidates.now ≡ hidden_in _case }
    ensures { IfOk result (λ copies. copies ≡ copied_page want.now _case) }
{
    match want {
        Want::Page { names, .. } => names.copy(),
        Want::Remove { .. } | Want::Move { .. } => candidates.copy(),
        Want::Exchange { name, .. } => one_name(alloc, name.copy()?),
        Want::Node { .. }
        | Want::Name { .. }
        | Want::Open { .. }
        | Want::Create { .. }
        | Want::Release { .. }
        | Want::Link { .. } => Ok(Names::new(alloc)),
    }
}

/// The record of a request with that want and that reservation.
fn recorded(alloc: Global, want: Want, reservation: Reservation) -> Result<NewRequest, AllocError>
    requires { reservation.candidates ≡ hidden_in reservation.case }
    ensures { IfOk result (IsRecord want reservation) }
{
    let Reservation {
        case,
        candidates,
        held,
        promise,
        answer,
        pins,
        paths,
    } = reservation;
    let copy = copied(&want)?;
    let copies = copies(alloc, &want, case, &candidates)?;
    let work = Work {
        want,
        case,
        copy,
        candidates,
        copies,
        held,
        promise,
        answer,
    };
    Ok(NewRequest { work, pins, paths })
}
