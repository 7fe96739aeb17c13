//! How often each number was born, counted from what is kept of closed periods and from the postings of the last one.

ghost use Rattle.std.specs.Prelude.{◌≡◌, ◌↔◌, ◌+◌, ◌-◌, ◌*◌, ◌<◌, ◌≤◌, ◌^◌, false, IsTrue, IfSome, IfNone, length, sum_by};
ghost use Rattle.ledger.specs.declared.postings.Posting.TheVariants as Posting;
ghost use Rattle.ledger.specs.Sums.{births_closed, births_of, carried_by, is_birth, IsCarriedOver};
ghost use Rattle.table_law.specs.Law.{IsOrdered};
ghost use Rattle.table_image.specs.Parts.{after_closed, births_summed};

use ledger::{KeptBirths, Posting, Totals};

/// The generation of the number in the posting, if it is a birth of that number.
fn birth_of(posting: &Posting, number: u64) -> Option<u64>
    ensures some { IfSome result (λ g. posting.now ≡ Posting.Born number g) }
    ensures none { IfNone result (is_birth number posting.now ≡ false) }
{
    match *posting {
        Posting::Born {
            number: born,
            generation,
        } if born == number => Some(generation),
        _ => None,
    }
}

/// How often the number was born in the closed periods.
pub fn births_closed(kept: &[KeptBirths], number: u64) -> u64
    requires { births_summed kept.now < 2 ^ 64 }
    ensures { result ≡ births_closed number kept.now }
{
    let mut births = 0;
    for entry in kept {
        if entry.number == number {
            births += entry.count;
        }
    }
    births
}

/// The generation of the number's last birth, if it was ever born: it is the number of births before it.
pub fn last_generation(kept: &[KeptBirths], postings: &[Posting], number: u64) -> Option<u64>
    requires ordered { IsOrdered (after_closed kept.now postings.now) }
    requires small { births_summed kept.now < 2 ^ 64 }
    ensures some { IfSome result (λ g. g + 1 ≡ births_of number (after_closed kept.now postings.now)) }
    ensures none { IfNone result (births_of number (after_closed kept.now postings.now) ≡ 0) }
{
    for k in (0..postings.len()).rev() {
        if let Some(generation) = birth_of(&postings[k], number) {
            return Some(generation);
        }
    }
    births_closed(kept, number).checked_sub(1)
}

/// All births of the closed periods.
fn births_in_all(kept: &[KeptBirths]) -> u128
    ensures { result ≡ births_summed kept.now }
{
    let mut births = 0;
    for entry in kept {
        births += u128::from(entry.count);
    }
    births
}

/// How many entries the posting carries over from the period before.
fn carried(posting: &Posting) -> u64
    ensures { result ≡ carried_by posting.now }
{
    match *posting {
        Posting::Opening { count, .. } => count,
        _ => 0,
    }
}

/// All entries that were left when the period began.
fn carried_in_all(postings: &[Posting]) -> u128
    ensures sum { result ≡ sum_by carried_by postings.now }
    ensures few { result ≤ length postings.now * (2 ^ 64 - 1) }
{
    let mut left = 0;
    for posting in postings {
        left += u128::from(carried(posting));
    }
    left
}

/// Whether what is kept of closed periods is consistent, and the last period begins with everything that was left.
pub fn are_carried_over(kept: &[KeptBirths], closed: Totals, postings: &[Posting]) -> bool
    ensures { IsTrue result ↔ IsCarriedOver (record { births = kept.now; totals = closed; last = postings.now }) }
{
    let given = u128::from(closed.backs) + u128::from(closed.forgotten);
    births_in_all(kept) == u128::from(closed.born)
        && closed.born <= closed.entries
        && given + carried_in_all(postings) == u128::from(closed.entries)
}
