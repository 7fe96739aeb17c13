//! The law of the postings of a period alone: their order, and that no count was ever negative.

ghost use Rattle.std.specs.Prelude.{◌≡◌, ◌↔◌, ◌+◌, ◌<◌, ◌^◌, true, IsTrue, All};
ghost use Rattle.ledger.specs.Sums.{number_of, generation_of, births_of, entries_of, given_back_of, is_opening, carried_by, totals_by, IsAllowed, IsNeverNegative};
ghost use Rattle.table_law.specs.Law.{IsBegun, IsOrdered, MayOpen, MayStand};
ghost use Rattle.table_image.specs.Parts.{Begins, after_closed, births_summed, entered_in_all, given_in_all};

use crate::lawful::births::{births_closed, last_generation};
use ledger::{KeptBirths, Posting};

/// Whether the posting is about that number and generation.
fn is_about(posting: &Posting, number: u64, generation: u64) -> bool
    ensures { IsTrue result ↔ (number_of posting.now ≡ number) × (generation_of posting.now ≡ generation) }
{
    posting.number() == number && posting.generation() == generation
}

/// Whether the posting is the birth or the opening of that number and generation.
fn begins(posting: &Posting, number: u64, generation: u64) -> bool
    ensures { IsTrue result ↔ Begins posting.now number generation }
{
    match *posting {
        Posting::Born { .. } | Posting::Opening { .. } => is_about(posting, number, generation),
        _ => false,
    }
}

/// Whether the number and generation has a birth or an opening: only then may other postings be about it.
fn is_begun(_kept: &[KeptBirths], postings: &[Posting], number: u64, generation: u64) -> bool
    requires { IsOrdered (after_closed _kept.now postings.now) }
    ensures { IsTrue result ↔ IsBegun (after_closed _kept.now postings.now) number generation }
{
    for k in (0..postings.len()).rev() {
        if is_about(&postings[k], number, generation) {
            return true;
        }
    }
    false
}

/// The lookup count of the number in that generation: its entries less what was given back and forgotten.
///
/// The last postings are read first, back to the birth or the opening.
pub fn count(_kept: &[KeptBirths], postings: &[Posting], number: u64, generation: u64) -> u128
    requires ordered { IsOrdered (after_closed _kept.now postings.now) }
    requires never_negative { IsNeverNegative (after_closed _kept.now postings.now) }
    ensures { result + given_back_of number generation (after_closed _kept.now postings.now) ≡ entries_of number generation (after_closed _kept.now postings.now) }
{
    let mut entries: u128 = 0;
    let mut gone: u128 = 0;
    for k in (0..postings.len()).rev() {
        let posting = postings[k];
        entries += u128::from(posting.entered(number, generation));
        gone += u128::from(posting.given(number, generation));
        if begins(&posting, number, generation) {
            return entries - gone;
        }
    }
    entries - gone
}

/// Whether the posting is an opening.
fn is_opening(posting: &Posting) -> bool
    ensures { result ≡ is_opening posting.now }
{
    matches!(*posting, Posting::Opening { .. })
}

/// Whether all of them are openings.
fn are_openings(postings: &[Posting]) -> bool
    ensures { IsTrue result ↔ All (λ p. is_opening p ≡ true) postings.now }
{
    postings.iter().all(is_opening)
}

/// Whether an opening of that number and generation may follow the others.
fn may_open(kept: &[KeptBirths], before: &[Posting], number: u64, generation: u64) -> bool
    requires ordered { IsOrdered (after_closed kept.now before.now) }
    requires small { births_summed kept.now < 2 ^ 64 }
    ensures { IsTrue result ↔ MayOpen (after_closed kept.now before.now) number generation }
{
    are_openings(before)
        && !is_begun(kept, before, number, generation)
        && generation < births_closed(kept, number)
}

/// Whether the generation is the number of births so far.
fn is_next(kept: &[KeptBirths], before: &[Posting], number: u64, generation: u64) -> bool
    requires ordered { IsOrdered (after_closed kept.now before.now) }
    requires small { births_summed kept.now < 2 ^ 64 }
    ensures { IsTrue result ↔ (generation ≡ births_of number (after_closed kept.now before.now)) }
{
    match last_generation(kept, before, number) {
        Some(last) => last.checked_add(1) == Some(generation),
        None => generation == 0,
    }
}

/// Whether the posting may follow the others.
fn may_stand(kept: &[KeptBirths], before: &[Posting], posting: &Posting) -> bool
    requires ordered { IsOrdered (after_closed kept.now before.now) }
    requires small { births_summed kept.now < 2 ^ 64 }
    ensures { IsTrue result ↔ MayStand (after_closed kept.now before.now) posting.now }
{
    match *posting {
        Posting::Born { number, generation } => is_next(kept, before, number, generation),
        Posting::Entry { number, generation } => is_begun(kept, before, number, generation),
        Posting::Back { number, generation } => is_begun(kept, before, number, generation),
        Posting::Forget {
            number,
            generation,
            ..
        } => is_begun(kept, before, number, generation),
        Posting::Opening {
            number,
            generation,
            ..
        } => may_open(kept, before, number, generation),
    }
}

/// Whether openings come first, each birth has the number of births before it as its generation, and everything else
/// comes after the birth or the opening of its number and generation.
pub fn are_ordered(kept: &[KeptBirths], postings: &[Posting]) -> bool
    requires { births_summed kept.now < 2 ^ 64 }
    ensures { IsTrue result ↔ IsOrdered (after_closed kept.now postings.now) }
{
    for (k, posting) in postings.iter().enumerate() {
        if !may_stand(kept, &postings[..k], posting) {
            return false;
        }
    }
    true
}

/// Whether the posting takes no more than there is after the others.
fn is_allowed(kept: &[KeptBirths], before: &[Posting], posting: &Posting) -> bool
    requires ordered { IsOrdered (after_closed kept.now before.now) }
    requires never_negative { IsNeverNegative (after_closed kept.now before.now) }
    ensures { IsTrue result ↔ IsAllowed (after_closed kept.now before.now) posting.now }
{
    match *posting {
        Posting::Born { .. } | Posting::Entry { .. } | Posting::Opening { .. } => true,
        Posting::Back { number, generation } => count(kept, before, number, generation) > 0,
        Posting::Forget {
            number,
            generation,
            amount,
        } => u128::from(amount) <= count(kept, before, number, generation),
    }
}

/// Whether at no time more was given back and forgotten than entered.
pub fn are_never_negative(kept: &[KeptBirths], postings: &[Posting]) -> bool
    requires { IsOrdered (after_closed kept.now postings.now) }
    ensures { IsTrue result ↔ IsNeverNegative (after_closed kept.now postings.now) }
{
    for (k, posting) in postings.iter().enumerate() {
        if !is_allowed(kept, &postings[..k], posting) {
            return false;
        }
    }
    true
}

/// How many entries the posting makes, or carries over.
fn made(posting: &Posting) -> u64
    ensures { result ≡ carried_by posting.now + (totals_by posting.now).entries }
{
    match *posting {
        Posting::Entry { .. } => 1,
        Posting::Opening { count, .. } => count,
        _ => 0,
    }
}

/// How many entries the posting takes back or forgets.
fn taken(posting: &Posting) -> u64
    ensures { result ≡ (totals_by posting.now).backs + (totals_by posting.now).forgotten }
{
    match *posting {
        Posting::Back { .. } => 1,
        Posting::Forget { amount, .. } => amount,
        _ => 0,
    }
}

/// The entries of all nodes together, less what was given back and forgotten.
pub fn count_in_all(_kept: &[KeptBirths], postings: &[Posting]) -> u128
    requires { IsNeverNegative (after_closed _kept.now postings.now) }
    ensures { result + given_in_all postings.now ≡ entered_in_all postings.now }
{
    let mut left: u128 = 0;
    for posting in postings {
        left += u128::from(made(posting));
        left -= u128::from(taken(posting));
    }
    left
}
