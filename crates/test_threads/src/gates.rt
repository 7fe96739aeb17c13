//! Directories whose calls pass a gate.

use crate::overlap::{LOOKS, TWO};
use crate::story::holds_of;
use crate::teller::{check_over, client_of};
use backing::{Answer, Call, Calls};
use std::alloc::{AllocError, Global};
use std::sync::Arc;
use std::sync::atomic::{AtomicU32, Ordering};
use std::test::Fail;
use std::thread;

/// Is told of each call of a directory before it is made, and by which worker.
pub trait Gate {
    fn before_call(&self, worker: usize);
}

/// The directory of one worker, with a gate before each of its calls.
#[derive(Drop)]
pub struct Gated<C: Calls + Drop, G: Gate + Drop> {
    calls: C,
    gate: Arc<G>,
    worker: usize,
}

impl<C: Calls + Drop, G: Gate + Drop> Calls for Gated<C, G> {
    ghost gives = { λ old call answer new. C.gives old.calls call answer new.calls };

    ghost faults = { λ gated. C.faults gated.calls };

    ghost counts = { λ old new call answer given. C.counts old.calls new.calls call answer given };

    fn call(&mut self, call: Call<'_>) -> Answer {
        self.gate.before_call(self.worker);
        self.calls.call(call)
    }
}

/// Each worker's directory behind that gate, with the number of the worker.
pub fn behind_gate<C: Calls + Drop, G: Gate + Drop>(
    alloc: Global,
    directories: Vec<C>,
    gate: &Arc<G>,
) -> Result<Vec<Gated<C, G>>, AllocError> {
    let mut behind = Vec::new(alloc);
    for calls in directories {
        let worker = behind.len();
        behind.push(Gated {
            calls,
            gate: Arc::try_clone(gate)?,
            worker,
        })?;
    }
    Ok(behind)
}

/// Holds the first call until the second has come.
#[derive(Drop)]
struct HoldsFirst {
    /// How many calls of each worker have come.
    came: [AtomicU32; 2],
    /// How many of all calls were made with another one there.
    met: AtomicU32,
}

impl HoldsFirst {
    /// How many calls have come.
    fn count(&self) -> u32 {
        let [first, second] = &self.came;
        first
            .load(Ordering::SeqCst)
            .saturating_add(second.load(Ordering::SeqCst))
    }
}

impl Gate for HoldsFirst {
    fn before_call(&self, worker: usize) {
        if let Some(own) = self.came.get(worker) {
            own.fetch_add(1, Ordering::SeqCst);
        }
        for _look in 0..LOOKS {
            if self.count() > 1 {
                self.met.fetch_add(1, Ordering::SeqCst);
                return;
            }
            thread::yield_now();
        }
    }
}

#[test]
fn a_gate_holds_a_call_until_the_next(rt: HostRuntime) -> Result<(), Fail> {
    let gate = Arc::new(
        rt.alloc(),
        HoldsFirst {
            came: [AtomicU32::new(0), AtomicU32::new(0)],
            met: AtomicU32::new(0),
        },
    )?;
    let holds = holds_of(&rt, rt.alloc(), TWO.workers)?;
    let directories = behind_gate(rt.alloc(), holds, &gate)?;
    let client = client_of(&rt, rt.alloc(), &TWO)?;
    let heard = Arc::try_clone(&client.heard)?;
    check_over(&rt, rt.alloc(), &TWO, client, directories)?;
    // Two in the session, and two with which each directory is looked at afterwards.
    assert_eq!(rt; gate.count(), 6);
    assert_eq!(rt; gate.met.load(Ordering::SeqCst), 6);
    assert_eq!(rt; heard.lock(&rt).nodes.as_slice(), [2, 2].as_slice());
    Ok(())
}
