//! What a want asks for when its request begins: a match over wants for each part of its footprint that the begin needs.

ghost use Rattle.std.specs.Prelude.{ℕ, ◌≡◌, true};
ghost use Rattle.table_footprints.specs.Footprints.{AtName, are_same, closed_change, is_same, footprint_of};
ghost use Rattle.table_steps.specs.Beginning.{used_in};
ghost use Rattle.table_steps.specs.Ending.{IsNodeWant};
ghost use Rattle.table_steps.specs.Steps.{is_cut, is_last};

use paths::Name;
use table_files::Need;
use table_requests::{Case, Handle, Want};

/// Whether both are the same name under the same node.
fn is_one_name(parent: u64, name: &Name, other_parent: u64, other: &Name) -> bool
    ensures { result ≡ are_same (AtName parent name.now) (AtName other_parent other.now) }
{
    parent == other_parent && name.is(other)
}

/// Whether a name is moved to itself, or exchanged with itself.
pub(crate) fn is_same(want: &Want) -> bool
    ensures { result ≡ is_same (footprint_of want.now Case.Plain).done }
{
    match want {
        Want::Move {
            parent,
            name,
            new_parent,
            new_name,
            ..
        } => is_one_name(*parent, name, *new_parent, new_name),
        Want::Exchange {
            parent,
            name,
            new_parent,
            new_name,
        } => is_one_name(*parent, name, *new_parent, new_name),
        Want::Node { .. }
        | Want::Name { .. }
        | Want::Remove { .. }
        | Want::Page { .. }
        | Want::Open { .. }
        | Want::Create { .. }
        | Want::Release { .. }
        | Want::Link { .. } => false,
    }
}

/// Whether the want is that of a node alone, for which the end of the work gives, changes and opens nothing.
pub(crate) fn is_node(want: &Want) -> bool
    ensures { result ≡ true → IsNodeWant want.now }
{
    match want {
        Want::Node { .. } => true,
        Want::Name { .. }
        | Want::Remove { .. }
        | Want::Move { .. }
        | Want::Exchange { .. }
        | Want::Page { .. }
        | Want::Open { .. }
        | Want::Create { .. }
        | Want::Release { .. }
        | Want::Link { .. } => false,
    }
}

/// The handle that the want uses, and the node that its file must belong to.
pub(crate) fn used_by(want: &Want) -> Option<(u64, Handle)>
    ensures { used_in result ≡ (footprint_of want.now Case.Plain).used }
{
    match want {
        Want::Node { number, handle } => match handle {
            Some(handle) => Some((*number, *handle)),
            None => None,
        },
        Want::Release { number, fh } => Some((
            *number,
            Handle {
                fh: *fh,
                need: Need::Any,
            },
        )),
        Want::Name { .. }
        | Want::Remove { .. }
        | Want::Move { .. }
        | Want::Exchange { .. }
        | Want::Page { .. }
        | Want::Open { .. }
        | Want::Create { .. }
        | Want::Link { .. } => None,
    }
}

/// The handle that is closed when a request with that want begins.
pub(crate) fn closed_by(want: &Want) -> Option<u64>
    ensures { result ≡ (footprint_of want.now Case.Plain).closes }
{
    match want {
        Want::Release { number: _, fh } => Some(*fh),
        Want::Node { .. }
        | Want::Name { .. }
        | Want::Remove { .. }
        | Want::Move { .. }
        | Want::Exchange { .. }
        | Want::Page { .. }
        | Want::Open { .. }
        | Want::Create { .. }
        | Want::Link { .. } => None,
    }
}

/// Whether the end of the work removes the node whose file is closed.
fn removes_closed(case: Case) -> bool
    ensures { (number : ℕ) → result ≡ is_cut (closed_change number case) }
{
    match case {
        Case::Last => true,
        Case::Plain | Case::Absent | Case::Pathless | Case::Hiding { .. } => false,
    }
}

/// Whether the want closes the last handle of a hidden file, which the end of the work removes.
pub(crate) fn is_last(want: &Want, case: Case) -> bool
    ensures { result ≡ is_last (footprint_of want.now case) }
{
    match want {
        Want::Release { .. } => removes_closed(case),
        Want::Node { .. }
        | Want::Name { .. }
        | Want::Remove { .. }
        | Want::Move { .. }
        | Want::Exchange { .. }
        | Want::Page { .. }
        | Want::Open { .. }
        | Want::Create { .. }
        | Want::Link { .. } => false,
    }
}
