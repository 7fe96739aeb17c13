//! The session without a failure, and with each failure in turn.

use crate::asks::Ask;
use crate::bytes::{bytes_of, joined};
use crate::compare::compare;
use crate::frames::{FIRST_REPLIES, FRAMES, LAST_REPLIES};
use crate::product::{Ran, has_bytes, serve_session, what_stands};
use crate::session::{ASKS, HIDDEN, LEDGER, REQUESTS, STANDS};
use crate::slow::{PLAIN, Plan, run_slow};
use crate::world::FaultAt;
use backing::PlannedFault;
use engine::{Sent, SessionEnd};
use errno::EIO;
use ledger::Blanks;
use std::alloc::{AllocError, Global};
use std::marker::Brand;
use std::test::Fail;
use table_image::Image;
use terms::Kinds;
use tree::Place;
use wire::{Caller, Request, encode_request};

/// How many calls of the tree and how many replies the session has.
const CALLS: usize = 19;

const REPLIES: u32 = 17;

/// The replies if nothing fails, one after another.
fn replies_of(alloc: Global) -> Result<Vec<u8>, Fail> {
    let mut replies = joined(alloc, FIRST_REPLIES)?;
    replies.extend_from_slice(&joined(alloc, LAST_REPLIES)?)?;
    Ok(replies)
}

/// How many of the names in `STANDS` are as they should be.
fn count_right(alloc: Global, ran: &mut Ran) -> Result<usize, AllocError> {
    let mut right = 0usize;
    for (name, told) in STANDS {
        if what_stands(alloc, &mut ran.tree, name)? == *told {
            right = right.saturating_add(1);
        }
    }
    Ok(right)
}

/// Whether the node with that number has that name in the root, and is marked as hidden only if the name is `HIDDEN`.
fn is_named(image: &Image, number: u64, name: &[u8]) -> bool {
    for node in image.nodes.as_slice() {
        if let Place::Named(key) = &node.place {
            if node.number == number && key.parent == 1 && key.name.as_bytes() == name {
                return node.hidden == (name == HIDDEN);
            }
        }
    }
    false
}

// The frames that are sent are those of the requests, numbered from 1.
#[test]
fn frames_of_the_session(rt: HostRuntime) -> Result<(), Fail> {
    let alloc = rt.alloc();
    let mut unique = 0u64;
    for ((node, operation), frame) in REQUESTS.iter().zip(FRAMES) {
        unique = unique.saturating_add(1);
        let request = Request {
            unique,
            node: *node,
            caller: Caller { uid: 0, gid: 0 },
            operation: *operation,
        };
        let mut spelled = Vec::new(alloc);
        encode_request(&request, &mut spelled)?;
        assert!(rt;
            spelled.as_slice() == bytes_of(alloc, frame)?.as_slice(),
            "unique {unique}"
        );
    }
    assert_eq!(rt; REQUESTS.len(), FRAMES.len());
    Ok(())
}

/// What came of a run: whether it ended with DESTROY and offered all replies, whether the replies and the calls were
/// the expected ones, whether the ledger is right, and how many names are as they should be. One function computes all
/// of it, since otherwise each assertion would have to drop the run.
fn tell_fixed(
    alloc: Global,
    ran: &mut Ran,
    replies: &[u8],
) -> Result<(bool, bool, bool, usize), AllocError> {
    Ok((
        ran.end == SessionEnd::Destroyed && ran.offers == REPLIES,
        ran.taken.as_slice() == replies && ran.are_due,
        ran.image.postings.as_slice() == LEDGER && ran.image.lawful(),
        count_right(alloc, ran)?,
    ))
}

// Without a failure, replies, calls, ledger and tree are as typed in.
#[test]
fn fixed_session(rt: HostRuntime) -> Result<(), Fail> {
    let alloc = rt.alloc();
    let replies = replies_of(alloc)?;
    let mut ran = serve_session::<HostRuntime, Brand>(&rt, alloc, Blanks::new(1), &PLAIN, ASKS)?;
    let told = tell_fixed(alloc, &mut ran, &replies)?;
    assert_eq!(rt; told, (true, true, true, STANDS.len()));
    Ok(())
}

// The slow program has the same replies, calls and ledger.
#[test]
fn slow_session(rt: HostRuntime) -> Result<(), Fail> {
    let alloc = rt.alloc();
    let slow = run_slow(alloc, REQUESTS, &PLAIN)?;
    assert!(rt; slow.taken.as_slice() == replies_of(alloc)?.as_slice());
    assert!(rt; slow.world.asks.as_slice() == ASKS);
    assert!(rt; slow.world.ledger.as_slice() == LEDGER);
    Ok(())
}

/// The replies if UNLINK's rename fails.
fn replies_of_failed_hiding(alloc: Global) -> Result<Vec<u8>, Fail> {
    let mut replies = joined(alloc, &FIRST_REPLIES[..4])?;
    replies.extend_from_slice(&bytes_of(alloc, "10000000 fbffffff 0500000000000000")?)?;
    replies.extend_from_slice(&joined(alloc, &FIRST_REPLIES[5..])?)?;
    replies.extend_from_slice(&joined(alloc, LAST_REPLIES)?)?;
    Ok(replies)
}

/// What came of a run whose hiding failed: whether the replies and the calls are right, whether the node keeps its
/// name, and whether the file is where it was moved.
fn tell_hiding(
    alloc: Global,
    ran: &mut Ran,
    replies: &[u8],
) -> Result<(bool, bool, bool), AllocError> {
    Ok((
        ran.taken.as_slice() == replies && ran.are_due,
        is_named(&ran.image, 2, b"a"),
        has_bytes(alloc, &mut ran.tree, HIDDEN, b"abcde")?,
    ))
}

// UNLINK's rename fails although it was done: the reply is EIO, the node keeps its name, RELEASE removes nothing, and
// the file is left where it was moved.
#[test]
fn failed_hiding(rt: HostRuntime) -> Result<(), Fail> {
    let alloc = rt.alloc();
    let plan = Plan {
        fault: Some(FaultAt {
            call: 5,
            fault: PlannedFault::After(EIO),
        }),
        ..PLAIN
    };
    let replies = replies_of_failed_hiding(alloc)?;
    let due = &ASKS[..18];
    let mut ran = serve_session::<HostRuntime, Brand>(&rt, alloc, Blanks::new(1), &plan, due)?;
    let told = tell_hiding(alloc, &mut ran, &replies)?;
    assert_eq!(rt; told, (true, true, true));
    Ok(())
}

/// What came of a run whose removal failed: whether the replies and the calls are right, whether the node keeps its
/// hidden name, and how many names are as they should be.
fn tell_removal(
    alloc: Global,
    ran: &mut Ran,
    replies: &[u8],
) -> Result<(bool, bool, usize), AllocError> {
    Ok((
        ran.taken.as_slice() == replies && ran.are_due,
        is_named(&ran.image, 2, HIDDEN),
        count_right(alloc, ran)?,
    ))
}

// RELEASE's removal fails: the reply is 0, the mark remains, and the end of the session removes the file with one more
// call.
#[test]
fn failed_removal(rt: HostRuntime) -> Result<(), Fail> {
    let alloc = rt.alloc();
    let plan = Plan {
        fault: Some(FaultAt {
            call: 19,
            fault: PlannedFault::Before(EIO),
        }),
        ..PLAIN
    };
    let replies = replies_of(alloc)?;
    let mut due = Vec::from_slice(alloc, ASKS)?;
    due.push(Ask::Remove(HIDDEN))?;
    let mut ran = serve_session::<HostRuntime, Brand>(&rt, alloc, Blanks::new(1), &plan, &due)?;
    let told = tell_removal(alloc, &mut ran, &replies)?;
    assert_eq!(rt; told, (true, true, STANDS.len()));
    Ok(())
}

/// Each call fails, without its effect and after it.
fn failing_calls(alloc: Global) -> Result<Vec<Plan>, AllocError> {
    let mut plans = Vec::new(alloc);
    for made in 0..CALLS {
        let call = made.saturating_add(1);
        let before = FaultAt {
            call,
            fault: PlannedFault::Before(EIO),
        };
        let after = FaultAt {
            call,
            fault: PlannedFault::After(EIO),
        };
        plans.push(Plan {
            fault: Some(before),
            ..PLAIN
        })?;
        plans.push(Plan {
            fault: Some(after),
            ..PLAIN
        })?;
    }
    Ok(plans)
}

/// Each reply is not taken, or breaks the link.
fn failing_replies(alloc: Global) -> Result<Vec<Plan>, AllocError> {
    let mut plans = Vec::new(alloc);
    for made in 0..REPLIES {
        let declined = made.saturating_add(1);
        plans.push(Plan {
            declined,
            fate: Sent::Untaken,
            ..PLAIN
        })?;
        plans.push(Plan {
            declined,
            fate: Sent::Broken,
            ..PLAIN
        })?;
    }
    Ok(plans)
}

// 38 runs, each compared with the slow program's.
#[test]
fn each_call_fails(rt: HostRuntime) -> Result<(), Fail> {
    let plans = failing_calls(rt.alloc())?;
    assert_eq!(rt; plans.len(), 38);
    for plan in &plans {
        compare::<HostRuntime, Brand>(&rt, rt.alloc(), Blanks::new(1), plan)?;
    }
    Ok(())
}

// 34 runs, each compared with the slow program's.
#[test]
fn each_reply_fails(rt: HostRuntime) -> Result<(), Fail> {
    let plans = failing_replies(rt.alloc())?;
    assert_eq!(rt; plans.len(), 34);
    for plan in &plans {
        compare::<HostRuntime, Brand>(&rt, rt.alloc(), Blanks::new(1), plan)?;
    }
    Ok(())
}

// Where files and folders alone are shown, the requests of links are not served, and all else is the same.
#[test]
fn files_and_folders_alone(rt: HostRuntime) -> Result<(), Fail> {
    let plan = Plan {
        kinds: Kinds::Plain,
        ..PLAIN
    };
    compare::<HostRuntime, Brand>(&rt, rt.alloc(), Blanks::new(1), &plan)
}
