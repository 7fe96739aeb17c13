//! What the end of a request's work may do: its footprint, with the names taken out of its want.

ghost use Rattle.std.specs.Prelude.{ℕ, List, ◌≡◌, ◌∷◌, [], Some};
ghost use Rattle.table_steps.specs.Ending.{exclusive_in, candidates_in, change_in, folders_in, folders_of, is_page, keys_in, with_in};
ghost use Rattle.table_steps.specs.Steps.{opened_alone, opened_with};
ghost use Rattle.table_footprints.specs.NewRequests.{copied, copied_page};
ghost use Rattle.table_footprints.specs.Footprints.{closed_change, hidden_in, footprint_of};

use crate::keys::{FolderKeys, Keys};
use paths::Name;
use table_files::Access;
use table_requests::{Case, Names, Want};
use tree::Key;

/// The names for which entries may be given.
#[derive(Drop)]
pub(crate) enum EnteredNames {
    Nothing,
    One(Keys),
    Page(FolderKeys),
}

/// How names change when the work is done.
#[derive(Drop)]
pub(crate) enum NameChange {
    Stays,
    /// What is there is cut.
    Cuts(Key),
    /// The node is cut.
    CutsNode(u64),
    /// What is at the first is moved to the second, and what was at the second is cut.
    Moves(Key, Keys),
    /// What is at the first is moved to the second and gets a hidden mark, and what was at the second is cut.
    Hides(Key, Keys),
    /// What is at the second is hidden at the third, and then, if the flag says so, what was at the first is moved to
    /// the second.
    Replaces(Key, Keys, Keys, bool),
    /// What is at either is moved to the other.
    Exchanges(Keys, Keys),
}

/// Which file may be opened.
#[derive(Clone, Copy)]
pub(crate) enum Opens {
    Nothing,
    /// A file of this node.
    Node(u64, Access),
    /// A file of the node whose entry is given.
    Entry(Access),
}

/// What the outcomes of a request may do.
#[derive(Drop)]
pub(crate) struct Acts {
    pub(crate) entries: EnteredNames,
    pub(crate) change: NameChange,
    /// The candidates under which an open file may be hidden.
    pub(crate) candidates: Option<FolderKeys>,
    pub(crate) opens: Opens,
}

/// What happens to the node whose file was closed when the request began: it is cut if it is hidden and that was its
/// last handle.
fn closing_change(number: u64, case: Case) -> NameChange
    ensures { change_in result ≡ closed_change number case }
{
    match case {
        Case::Last => NameChange::CutsNode(number),
        Case::Plain | Case::Absent | Case::Pathless | Case::Hiding { .. } => NameChange::Stays,
    }
}

/// The only name, if there is exactly one.
fn only(names: Names) -> Option<Name>
    ensures { (name : List ℕ) → names ≡ name ∷ [] → result ≡ Some name }
{
    let mut names = names.into_vec();
    names.pop()
}

/// What the footprint of the want says in that case.
pub(crate) fn acts_of(
    want: Want,
    case: Case,
    copy: Option<Name>,
    beside: Names,
    copies: Names,
) -> Acts
    requires copy { copy ≡ copied want }
    requires beside { beside ≡ hidden_in case }
    requires copies { copies ≡ copied_page want case }
    ensures entries { keys_in result.entries ≡ (footprint_of want case).entries }
    ensures page { is_page result.entries ≡ (footprint_of want case).page }
    ensures folders { folders_in result.entries ≡ folders_of (footprint_of want case) }
    ensures change { change_in result.change ≡ (footprint_of want case).done }
    ensures candidates { candidates_in result.candidates ≡ (footprint_of want case).candidates }
    ensures exclusive { exclusive_in result.opens ≡ opened_alone (footprint_of want case) }
    ensures entered { with_in result.opens result.entries ≡ opened_with (footprint_of want case) }
{
    match want {
        Want::Node { .. } => Acts {
            entries: EnteredNames::Nothing,
            change: NameChange::Stays,
            candidates: None,
            opens: Opens::Nothing,
        },
        Want::Name { parent, name } => Acts {
            entries: EnteredNames::One(Keys::new(parent, name, copy)),
            change: NameChange::Stays,
            candidates: None,
            opens: Opens::Nothing,
        },
        Want::Remove { parent, name, .. } => Acts {
            entries: EnteredNames::Nothing,
            change: NameChange::Cuts(Key { parent, name }),
            candidates: Some(FolderKeys {
                folder: parent,
                names: beside,
                copies,
            }),
            opens: Opens::Nothing,
        },
        Want::Move {
            parent,
            name,
            new_parent,
            new_name,
            ..
        } => Acts {
            entries: EnteredNames::Nothing,
            change: NameChange::Moves(Key { parent, name }, Keys::new(new_parent, new_name, copy)),
            candidates: Some(FolderKeys {
                folder: new_parent,
                names: beside,
                copies,
            }),
            opens: Opens::Nothing,
        },
        Want::Exchange {
            parent,
            name,
            new_parent,
            new_name,
        } => Acts {
            entries: EnteredNames::Nothing,
            change: NameChange::Exchanges(
                Keys::new(parent, name, only(copies)),
                Keys::new(new_parent, new_name, copy),
            ),
            candidates: None,
            opens: Opens::Nothing,
        },
        Want::Page { folder, names } => Acts {
            entries: EnteredNames::Page(FolderKeys {
                folder,
                names,
                copies,
            }),
            change: NameChange::Stays,
            candidates: None,
            opens: Opens::Nothing,
        },
        Want::Open { number, access } => Acts {
            entries: EnteredNames::Nothing,
            change: NameChange::Stays,
            candidates: None,
            opens: Opens::Node(number, access),
        },
        Want::Create {
            parent,
            name,
            access,
        } => Acts {
            entries: EnteredNames::One(Keys::new(parent, name, copy)),
            change: NameChange::Stays,
            candidates: None,
            opens: Opens::Entry(access),
        },
        Want::Release { number, .. } => Acts {
            entries: EnteredNames::Nothing,
            change: closing_change(number, case),
            candidates: None,
            opens: Opens::Nothing,
        },
        Want::Link { parent, name, .. } => Acts {
            entries: EnteredNames::One(Keys::new(parent, name, copy)),
            change: NameChange::Stays,
            candidates: None,
            opens: Opens::Nothing,
        },
    }
}
