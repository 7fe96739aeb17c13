//! How often each number was born, apart from the postings: a list sorted by number.

ghost use Rattle.std.specs.Prelude.{◌≡◌, ◌<◌, ◌≤◌, ◌+◌, ◌^◌, ℕ, AllPairs, IfSome, IsOk, OnOk, length, nat_eq, sum_by, vec_capacity, vec_len, if◌then◌else◌};
ghost use Rattle.std.specs.List.{HoldsAt};
ghost use Rattle.ledger.specs.declared.postings.Posting.{Posting};
ghost use Rattle.ledger.specs.declared.births.KeptBirths.{KeptBirths as Kept};
ghost use Rattle.ledger.specs.Births.{AreTallied, IsPlaceOf, IsRising};
ghost use Rattle.ledger.specs.Periods.{Periods, posted};
ghost use Rattle.ledger.specs.Sums.{births_closed, totals_by};

use crate::postings::Posting;
use std::alloc::AllocError;

/// How often a number was born, either ever or in the closed periods.
#[derive(Clone, Copy, Debug, PartialEq, Eq)]
pub struct KeptBirths {
    pub number: u64,
    pub count: u64,
}

/// The index of the number if all numbers from the first one up to it were born.
fn place_in_run(births: &[KeptBirths], number: u64) -> Option<usize>
    ensures within { IfSome result (λ i. i < length births.now) }
    ensures here { IfSome result (HoldsAt (λ (b : Kept). b.number ≡ number) births.now) }
{
    let first = births.first()?;
    let place = number.checked_sub(first.number)? as usize;
    if births.get(place)?.number == number {
        Some(place)
    } else {
        None
    }
}

/// The index of the number, or else the index at which to insert it.
fn place_of(births: &[KeptBirths], number: u64) -> Result<usize, usize>
    requires { IsRising births.now }
    ensures { IsPlaceOf births.now number result }
{
    // The table gives the least free number, so a number that was never born comes after the last one.
    match births.last() {
        Some(last) if number <= last.number => {}
        _ => return Err(births.len()),
    }
    // For the same reason the numbers are mostly without gaps, and then no search is needed.
    match place_in_run(births, number) {
        Some(place) => Ok(place),
        None => search(births, number),
    }
}

/// The same by binary search.
fn search(births: &[KeptBirths], number: u64) -> Result<usize, usize>
    requires { IsRising births.now }
    ensures { IsPlaceOf births.now number result }
{
    births.binary_search_by_key(&number, |b| b.number)
}

/// How often the number was born.
pub(crate) fn births_of(births: &[KeptBirths], number: u64) -> u64
    requires { IsRising births.now }
    ensures { result ≡ births_closed number births.now }
{
    match place_of(births, number) {
        Ok(place) => births[place].count,
        Err(_) => 0,
    }
}

/// Counts one more birth of the number. It does not allocate.
fn raise(births: &mut Vec<KeptBirths>, number: u64)
    requires rising { IsRising births.old.items }
    requires few { births_closed number births.old.items + 1 < 2 ^ 64 }
    requires room { vec_len births.old < vec_capacity births.old }
    ensures rising { IsRising births.new.items }
    ensures raised { (n : ℕ) → births_closed n births.new.items ≡ births_closed n births.old.items + (if nat_eq number n then 1 else 0) }
    ensures more { sum_by (λ (b : Kept). b.count) births.new.items ≡ sum_by (λ (b : Kept). b.count) births.old.items + 1 }
    ensures len { vec_len births.new ≤ vec_len births.old + 1 }
    ensures capacity { vec_capacity births.new ≡ vec_capacity births.old }
{
    match place_of(births, number) {
        Ok(place) => births[place].count += 1,
        Err(place) => match births.insert(place, KeptBirths { number, count: 1 }) {
            Ok(()) => {}
            Err(_) => unreachable!(),
        },
    }
}

/// Counts the posting if it is a birth. It does not allocate.
pub(crate) fn tally(births: &mut Vec<KeptBirths>, posting: Posting)
    requires rising { IsRising births.old.items }
    requires few { (n : ℕ) → births_closed n births.old.items + (totals_by posting).born < 2 ^ 64 }
    requires room { vec_len births.old + (totals_by posting).born ≤ vec_capacity births.old }
    ensures rising { IsRising births.new.items }
    ensures tallied { (ps : Periods) → AreTallied births.old.items ps → AreTallied births.new.items (posted ps posting) }
    ensures more { sum_by (λ (b : Kept). b.count) births.new.items ≡ sum_by (λ (b : Kept). b.count) births.old.items + (totals_by posting).born }
    ensures len { vec_len births.new ≤ vec_len births.old + (totals_by posting).born }
    ensures capacity { vec_capacity births.new ≡ vec_capacity births.old }
{
    match posting {
        Posting::Born { number, .. } => raise(births, number),
        Posting::Entry { .. }
        | Posting::Back { .. }
        | Posting::Forget { .. }
        | Posting::Opening { .. } => {}
    }
}

/// Makes room for the births of `more` further numbers, here and in the list where the end of a period keeps all
/// births.
pub(crate) fn make_places(
    births: &mut Vec<KeptBirths>,
    kept: &mut Vec<KeptBirths>,
    more: usize,
) -> Result<(), AllocError>
    ensures ok { OnOk result (vec_len births.new + more ≤ vec_capacity births.new) }
    ensures kept { OnOk result (vec_len births.new + more ≤ vec_capacity kept.new) }
    ensures births { births.new.items ≡ births.old.items }
    ensures items { kept.new.items ≡ kept.old.items }
    ensures room { vec_capacity births.old ≤ vec_capacity births.new }
    ensures capacity { vec_capacity kept.old ≤ vec_capacity kept.new }
    ensures succeeds { vec_len births.old + more ≤ vec_capacity births.old → vec_len births.old + more ≤ vec_capacity kept.old → IsOk result }
{
    births.reserve(more)?;
    let all = births.len().saturating_add(more);
    kept.reserve(all.saturating_sub(kept.len()))
}

/// Replaces the kept births by these. It does not allocate.
pub(crate) fn keep_births(kept: &mut Vec<KeptBirths>, births: &[KeptBirths])
    requires room { length births.now ≤ vec_capacity kept.old }
    ensures kept { kept.new.items ≡ births.now }
    ensures capacity { vec_capacity kept.new ≡ vec_capacity kept.old }
{
    kept.clear();
    for of_number in births {
        kept.push_reserved(*of_number);
    }
}
