//! Each call once with ample memory, with the values that follow from the rules of the ledger.
ghost use Rattle.std.specs.Prelude.{◌≡◌};
ghost use Rattle.ledger.specs.declared.postings.Posting.TheVariants.{Born};

use ledger::{Blanks, Book, Gather, Ledger, LedgerFault, Ledgers, Posting, Totals};
use std::alloc::{AllocError, Global};
use std::marker::Brand;
use std::test::Fail;

const BORN: Posting = Posting::Born {
    number: 2,
    generation: 0,
};

const ENTRY: Posting = Posting::Entry {
    number: 2,
    generation: 0,
};

const BACK: Posting = Posting::Back {
    number: 2,
    generation: 0,
};

const FORGET: Posting = Posting::Forget {
    number: 2,
    generation: 0,
    amount: 1,
};

/// A ledger with a birth, two entries and a forget, and just enough room for them.
fn posted(alloc: Global) -> Result<Ledger, LedgerFault> {
    let mut ledger = Ledger::new(alloc, 4);
    ledger.reserve(4, 1)?;
    ledger.post(BORN);
    ledger.post(ENTRY);
    ledger.post(ENTRY);
    ledger.post(FORGET);
    Ok(ledger)
}

const fn born(number: u64, generation: u64) -> Posting
    ensures { result ≡ Born number generation }
{
    Posting::Born { number, generation }
}

/// A ledger with births in no particular order: 7, 3, 9, 3 again, and 5.
fn scattered(alloc: Global) -> Result<Ledger, LedgerFault> {
    let mut ledger = Ledger::new(alloc, 5);
    ledger.reserve(5, 5)?;
    ledger.post(born(7, 0));
    ledger.post(born(3, 0));
    ledger.post(born(9, 0));
    ledger.post(born(3, 1));
    ledger.post(born(5, 0));
    Ok(ledger)
}

/// How often each number up to 10 was born.
fn tell_births(alloc: Global) -> Result<[u64; 11], LedgerFault> {
    let ledger = scattered(alloc)?;
    Ok([
        ledger.births(0),
        ledger.births(1),
        ledger.births(2),
        ledger.births(3),
        ledger.births(4),
        ledger.births(5),
        ledger.births(6),
        ledger.births(7),
        ledger.births(8),
        ledger.births(9),
        ledger.births(10),
    ])
}

#[test]
fn births_in_any_order_are_counted(rt: HostRuntime) -> Result<(), Fail> {
    let births = tell_births(rt.alloc())?;
    assert_eq!(rt; births, [0, 0, 0, 2, 0, 1, 0, 1, 0, 1, 0]);
    Ok(())
}

/// What reserving room for five postings, and then for four, returns where there is room for four.
fn tell_room(alloc: Global) -> [Result<(), LedgerFault>; 2] {
    let mut empty = Ledger::new(alloc, 4);
    [empty.reserve(5, 0), empty.reserve(4, 0)]
}

/// How often node 2 was born, entered and given, the counts of its two generations, and whether the postings are there.
fn tell_posted(alloc: Global) -> Result<([u64; 5], bool), LedgerFault> {
    let ledger = posted(alloc)?;
    let counts = [
        ledger.births(2),
        ledger.entries(2, 0),
        ledger.given(2, 0),
        ledger.count(2, 0),
        ledger.count(2, 1),
    ];
    let postings = [BORN, ENTRY, ENTRY, FORGET];
    Ok((counts, ledger.postings() == postings.as_slice()))
}

#[test]
fn one_of_two_entries_is_left(rt: HostRuntime) -> Result<(), Fail> {
    assert_eq!(rt; tell_room(rt.alloc()), [Err(LedgerFault::Full), Ok(())]);
    let told = tell_posted(rt.alloc())?;
    assert_eq!(rt; told, ([1, 2, 1, 1, 0], true));
    Ok(())
}

// The first share posts a birth, two entries and a give-back; the second posts a forget, unless it is given up.
fn gathered<T: Ledgers>(
    alloc: Global,
    blanks: Blanks,
    leave: bool,
) -> Result<Result<Totals, Gather>, AllocError>
    requires names { blanks ≡ T.names }
    requires shares { T.names.parts ≡ 2 }
{
    let (mut book, mut shares) = Book::<T>::open(alloc, blanks, 2)?;
    book.post(&mut shares[0], &BORN);
    book.post(&mut shares[0], &ENTRY);
    book.post(&mut shares[0], &ENTRY);
    book.post(&mut shares[0], &BACK);
    book.post(&mut shares[1], &FORGET);
    if leave {
        if let Some(share) = shares.pop() {
            share.leave();
        }
    }
    Ok(book.gather(shares))
}

#[test]
fn two_shares_add_up(rt: HostRuntime) -> Result<(), Fail> {
    let totals = Totals {
        born: 1,
        entries: 2,
        backs: 1,
        forgotten: 1,
    };
    let both = gathered::<Brand>(rt.alloc(), Blanks::new(2), false)?;
    assert_eq!(rt; both, Ok(totals));
    Ok(())
}

#[test]
fn a_share_that_was_left_is_missing(rt: HostRuntime) -> Result<(), Fail> {
    let one = gathered::<Brand>(rt.alloc(), Blanks::new(2), true)?;
    assert_eq!(rt; one, Err(Gather::ShareMissing));
    Ok(())
}
