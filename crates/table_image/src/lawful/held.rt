//! The law of what requests hold: the counts of each path, and that no two requests conflict.

ghost use Rattle.std.specs.Prelude.{◌≡◌, ◌≢◌, ◌↔◌, ◌==◌, IsTrue, All, AllPairs, Any};
ghost use Rattle.table_image.specs.declared.data.Hold.{Hold};
ghost use Rattle.table_image.specs.declared.data.ImageStage.TheVariants as ImageStage;
ghost use Rattle.table_image.specs.ImageLaw.{is_working, shares, holds_exclusively, sharers_of, exclusive_of, AreHoldsCounted, AreClear, AreApart};
ghost use Rattle.table_image.specs.Parts.{IsStored, IsHoldCount, HaveOtherPaths, AreStored};

use crate::data::{Hold, ImageStage, Record};
use paths::Path;

/// Whether work on the request is in progress.
pub fn is_working(holder: &Record) -> bool
    ensures test { result ≡ is_working holder.now.stage }
    ensures working { IsTrue result ↔ (holder.now.stage ≡ ImageStage.Working) }
{
    matches!(holder.stage, ImageStage::Working)
}

/// Whether the request is in progress and shares the path.
fn shares(holder: &Record, path: &Path) -> bool
    ensures { result ≡ shares holder.now path.now }
{
    is_working(holder) && holder.held.shared.contains(path)
}

/// Whether the request is in progress and holds the path exclusively.
fn holds_exclusively(holder: &Record, path: &Path) -> bool
    ensures { result ≡ holds_exclusively holder.now path.now }
{
    is_working(holder) && holder.held.exclusive.contains(path)
}

/// How many requests share the path.
fn sharers_of(records: &[Record], path: &Path) -> u64
    ensures { result ≡ sharers_of records.now path.now }
{
    let mut count = 0;
    for record in records {
        if shares(record, path) {
            count += 1;
        }
    }
    count
}

/// How many requests hold the path exclusively.
fn exclusive_of(records: &[Record], path: &Path) -> u64
    ensures { result ≡ exclusive_of records.now path.now }
{
    let mut count = 0;
    for record in records {
        if holds_exclusively(record, path) {
            count += 1;
        }
    }
    count
}

#[tactic(auto, unfolding(crate::specs::Parts::IsHoldCount))]
/// Whether the numbers of the path are those of the requests, and not both 0.
fn is_counted(hold: &Hold, records: &[Record]) -> bool
    ensures { IsTrue result ↔ IsHoldCount records.now hold.now }
{
    (hold.shared > 0 || hold.exclusive > 0)
        && hold.shared == sharers_of(records, &hold.path)
        && hold.exclusive == exclusive_of(records, &hold.path)
}

/// Whether the numbers of each path are those of the requests, and not both 0.
fn are_counted(holds: &[Hold], records: &[Record]) -> bool
    ensures { IsTrue result ↔ All (IsHoldCount records.now) holds.now }
{
    holds.iter().all(|hold| is_counted(hold, records))
}

/// Whether the two have different paths.
fn have_other_paths(one: &Hold, two: &Hold) -> bool
    ensures { IsTrue result ↔ HaveOtherPaths one.now two.now }
{
    !one.path.is(&two.path)
}

/// Whether none of the others has the same path.
fn has_own_path(one: &Hold, others: &[Hold]) -> bool
    ensures { IsTrue result ↔ All (HaveOtherPaths one.now) others.now }
{
    others.iter().all(|other| have_other_paths(one, other))
}

/// Whether no path comes twice.
fn have_own_paths(holds: &[Hold]) -> bool
    ensures { IsTrue result ↔ AllPairs HaveOtherPaths holds.now }
{
    for (i, hold) in holds.iter().enumerate() {
        if !has_own_path(hold, &holds[i + 1..]) {
            return false;
        }
    }
    true
}

/// Whether the path is stored.
fn is_stored(holds: &[Hold], path: &Path) -> bool
    ensures { IsTrue result ↔ IsStored holds.now path.now }
{
    holds.iter().any(|hold| hold.path.is(path))
}

/// Whether each of the paths is stored.
fn are_stored(holds: &[Hold], paths: &[Path]) -> bool
    ensures { IsTrue result ↔ All (IsStored holds.now) paths.now }
{
    paths.iter().all(|path| is_stored(holds, path))
}

/// Whether each path that the request holds, if it is in progress, is stored.
fn are_names_stored(holds: &[Hold], holder: &Record) -> bool
    ensures { IsTrue result ↔ AreStored holds.now holder.now }
{
    !is_working(holder)
        || are_stored(holds, holder.held.shared.as_slice())
            && are_stored(holds, holder.held.exclusive.as_slice())
}

/// Whether each path that some request holds is stored.
fn are_all_stored(holds: &[Hold], records: &[Record]) -> bool
    ensures { IsTrue result ↔ All (AreStored holds.now) records.now }
{
    records.iter().all(|record| are_names_stored(holds, record))
}

#[tactic(auto, using(crate::proofs::Counted::counts_parts))]
/// Whether the holds say how many requests in progress share each path, and how many hold it exclusively.
pub fn are_holds_counted(holds: &[Hold], records: &[Record]) -> bool
    ensures { IsTrue result ↔ AreHoldsCounted holds.now records.now }
{
    have_own_paths(holds) && are_counted(holds, records) && are_all_stored(holds, records)
}

/// Whether at least one of the two is not in progress, or they do not conflict.
fn are_clear(one: &Record, two: &Record) -> bool
    ensures { IsTrue result ↔ AreClear one.now two.now }
{
    !is_working(one) || !is_working(two) || !one.held.conflicts_with(&two.held)
}

/// Whether the request conflicts with none of the others.
fn is_clear(one: &Record, others: &[Record]) -> bool
    ensures { IsTrue result ↔ All (AreClear one.now) others.now }
{
    others.iter().all(|other| are_clear(one, other))
}

/// Whether no two requests in progress conflict.
pub fn are_apart(records: &[Record]) -> bool
    ensures { IsTrue result ↔ AreApart records.now }
{
    for (i, record) in records.iter().enumerate() {
        if !is_clear(record, &records[i + 1..]) {
            return false;
        }
    }
    true
}
