//! How often each number is pinned by the requests in flight.
//!
//! Numbers are those of a slab: small, and reused. So the counts are a list indexed by number, and counting needs no
//! look-up.
//!
//! A request is added with its pins, and adds more later, in calls that must not fail. So if the list does not reach a
//! number, its pin is loose, that is, not counted by number. As long as there are loose pins, a query must look at the
//! requests themselves.

ghost use Rattle.std.specs.Prelude.{true, false, ◌≡◌, ◌<◌, ◌≤◌, ◌+◌, ◌-◌, ℕ, nat_eq, if◌then◌else◌};
ghost use Rattle.table_requests.specs.PinCounts.{counted_in, times, AreCounted};

use std::alloc::Global;

/// The list has room for this many numbers above the greatest one pinned: those may be born before memory may be
/// allocated again.
const NUMBERS_AHEAD: usize = 1024;

/// The list is made longer only for numbers below this one, so that it never asks for much more than 2 GiB.
const MOST_NUMBERS: u64 = 1 << 28;

/// How often each number is pinned.
#[derive(Drop)]
pub(crate) struct PinCounts {
    /// How many pins of each number are counted, indexed by the number.
    pub(crate) by_number: Vec<u32>,
    /// The greatest number pinned so far, of those for which the list may be made longer.
    pub(crate) greatest: u64,
    /// How many pins are not counted by number. The greatest value means that the number is not known.
    pub(crate) loose: usize,
}

/// No pins.
pub(crate) fn no_pins(alloc: Global) -> PinCounts
    ensures { AreCounted result (λ n. 0) }
{
    PinCounts {
        by_number: Vec::new(alloc),
        greatest: 0,
        loose: 0,
    }
}

/// How many pins of the number are counted.
pub(crate) fn count_of(counts: &PinCounts, number: u64) -> u32
    ensures { result ≡ counted_in counts.now.by_number.items number }
{
    match counts.by_number.get(number as usize) {
        Some(count) => *count,
        None => 0,
    }
}

/// Counts one more pin of the number, if the list has room for it, which the result says. It does not allocate.
fn raise(counts: &mut PinCounts, number: u64) -> bool
    ensures raised { result ≡ true → (n : ℕ) → counted_in counts.new.by_number.items n ≡ counted_in counts.old.by_number.items n + (if nat_eq number n then 1 else 0) }
    ensures same { result ≡ false → counts.new.by_number.items ≡ counts.old.by_number.items }
    ensures loose { counts.new.loose ≡ counts.old.loose }
{
    match counts.by_number.get_mut(number as usize) {
        Some(count) if *count < u32::MAX => {
            *count += 1;
            true
        }
        _ => false,
    }
}

/// Counts one pin of the number less, if one is counted, which the result says. It does not allocate.
fn lower(counts: &mut PinCounts, number: u64) -> bool
    ensures some { result ≡ true → 0 < counted_in counts.old.by_number.items number }
    ensures lowered { result ≡ true → (n : ℕ) → counted_in counts.new.by_number.items n ≡ counted_in counts.old.by_number.items n - (if nat_eq number n then 1 else 0) }
    ensures none { result ≡ false → counted_in counts.old.by_number.items number ≡ 0 }
    ensures same { result ≡ false → counts.new.by_number.items ≡ counts.old.by_number.items }
    ensures loose { counts.new.loose ≡ counts.old.loose }
{
    match counts.by_number.get_mut(number as usize) {
        Some(count) if *count > 0 => {
            *count -= 1;
            true
        }
        _ => false,
    }
}

/// Notes that the list should reach the number.
fn note(counts: &mut PinCounts, number: u64)
    ensures same { counts.new.by_number.items ≡ counts.old.by_number.items }
    ensures loose { counts.new.loose ≡ counts.old.loose }
{
    if number < MOST_NUMBERS {
        counts.greatest = counts.greatest.max(number);
    }
}

/// Adds one pin of the number. It does not allocate.
pub(crate) fn count(counts: &mut PinCounts, number: u64)
    ensures counted { (total : ℕ → ℕ) → AreCounted counts.old total → AreCounted counts.new (λ n. total n + (if nat_eq number n then 1 else 0)) }
{
    note(counts, number);
    if !raise(counts, number) {
        counts.loose = counts.loose.saturating_add(1);
    }
}

/// Removes one pin of the number. It does not allocate.
fn uncount(counts: &mut PinCounts, number: u64)
    requires some { (total : ℕ → ℕ) × AreCounted counts.old total × (0 < total number) }
    ensures counted { (total : ℕ → ℕ) → AreCounted counts.old total → 0 < total number → AreCounted counts.new (λ n. total n - (if nat_eq number n then 1 else 0)) }
{
    if lower(counts, number) {
        return;
    }
    if counts.loose < usize::MAX {
        counts.loose -= 1;
    }
}

/// Adds one pin of each of the numbers. It does not allocate.
pub(crate) fn count_all(counts: &mut PinCounts, numbers: &[u64])
    ensures counted { (total : ℕ → ℕ) → AreCounted counts.old total → AreCounted counts.new (λ n. total n + times n numbers.now) }
{
    for number in numbers {
        count(counts, *number);
    }
}

/// Removes one pin of each of the numbers. It does not allocate.
pub(crate) fn uncount_all(counts: &mut PinCounts, numbers: &[u64])
    requires some { (total : ℕ → ℕ) × AreCounted counts.old total × ((n : ℕ) → times n numbers.now ≤ total n) }
    ensures counted { (total : ℕ → ℕ) → AreCounted counts.old total → ((n : ℕ) → times n numbers.now ≤ total n) → AreCounted counts.new (λ n. total n - times n numbers.now) }
{
    for number in numbers {
        uncount(counts, *number);
    }
}

/// Makes the list reach the numbers that later requests may pin, if there is memory. Its length is at least doubled, so
/// that this costs a constant per number, and it is at most twice as long as it has to be.
pub(crate) fn make_room(counts: &mut PinCounts)
    ensures counted { (total : ℕ → ℕ) → AreCounted counts.old total → AreCounted counts.new total }
{
    let wanted = (counts.greatest as usize).saturating_add(NUMBERS_AHEAD);
    if counts.by_number.len() < wanted {
        let _ = counts.by_number.resize(wanted.saturating_mul(2), 0);
    }
}
