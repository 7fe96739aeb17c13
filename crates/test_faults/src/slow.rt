//! A whole session as a plain, slow program: each request from its beginning to its end before the next.

use crate::answers::{Answer, done, failed, plain};
use crate::asks::Ask;
use crate::world::{FaultAt, SlowNode, World, count_of};
use engine::{Sent, SessionEnd};
use errno::ENOSYS;
use ledger::Posting;
use std::alloc::{AllocError, Global};
use terms::Kinds;
use wire::{InitOut, Operation, Reply, ReplyBody, encode_reply};

/// The reply to INIT 7.31 with 131,072 bytes of read-ahead and no flags.
const AGREED: InitOut = InitOut {
    major: 7,
    minor: 31,
    max_readahead: 65536,
    flags: 0,
    max_background: 12,
    congestion_threshold: 9,
    max_write: 65536,
    time_gran: 1,
    max_pages: 0,
};

/// What fails in a run, which is a call of the tree or a reply, and which kinds of files are shown.
#[derive(Clone, Copy, Debug, PartialEq, Eq)]
pub struct Plan {
    pub fault: Option<FaultAt>,
    /// The reply that is not taken, counted from 1, or 0.
    pub declined: u32,
    /// What becomes of that reply.
    pub fate: Sent,
    pub kinds: Kinds,
}

/// Nothing fails, and all kinds are shown.
pub const PLAIN: Plan = Plan {
    fault: None,
    declined: 0,
    fate: Sent::Taken,
    kinds: Kinds::All,
};

/// How the slow program ended.
#[derive(Drop)]
pub struct Outcome {
    pub world: World,
    /// The replies that were taken, one after another.
    pub taken: Vec<u8>,
    /// How many replies were offered.
    pub offers: u32,
    pub end: SessionEnd,
}

impl World {
    /// Answers a request of that node, up to its reply.
    fn answer(&mut self, node: u64, operation: Operation<'static>) -> Result<Answer, AllocError> {
        match operation {
            Operation::Init { .. } => Ok(plain(self.alloc, ReplyBody::Init(AGREED))),
            Operation::Lookup { name } => self.lookup(name),
            Operation::Open { .. } => self.open(node),
            Operation::Write { fh, offset, data } => self.write(node, fh, offset, data),
            Operation::Unlink { name } => self.unlink(name),
            Operation::Rename { name, new_name, .. } => self.rename(name, new_name),
            Operation::MakeDir { name, .. } => self.make_folder(name),
            Operation::MakeLink { .. } | Operation::ReadLink | Operation::Link { .. }
                if self.kinds == Kinds::Plain => { Ok(failed(self.alloc, ENOSYS)) }
            Operation::MakeLink { name, text } => self.make_link(name, text),
            Operation::ReadLink => self.read_link(node),
            Operation::Link { old_node, name } => self.link(old_node, name),
            Operation::RemoveDir { name } => self.remove(name, Ask::RemoveDir(name)),
            Operation::OpenDir => self.open_folder(),
            Operation::ReadDirPlus { fh, .. } => self.read_entries(node, fh),
            Operation::Release { fh } => self.release(node, fh),
            Operation::ReleaseDir { fh } => self.close_folder(node, fh),
            Operation::Destroy => Ok(done(self.alloc)),
            _ => Ok(failed(self.alloc, ENOSYS)),
        }
    }

    /// Takes back an entry of the node, if there is one left.
    fn give_back(&mut self, node: SlowNode) -> Result<(), AllocError> {
        let SlowNode {
            number,
            generation,
            ..
        } = node;
        if count_of(&self.ledger, number, generation) > 0 {
            self.ledger.push(Posting::Back { number, generation })?;
        }
        Ok(())
    }

    /// Takes back what an answer gave, and closes what it opened, since its reply was not taken.
    fn undo(&mut self, answer: &Answer) -> Result<(), AllocError> {
        for node in &answer.given {
            self.give_back(*node)?;
        }
        if let Some(handle) = answer.opened {
            self.close(handle)?;
        }
        if answer.listed {
            self.listing = None;
        }
        Ok(())
    }

    /// Tries once to remove the file that is still hidden. There is at most one.
    fn remove_hidden(&mut self) -> Result<(), AllocError> {
        let mut hidden = None;
        for node in &self.nodes {
            if node.is_hidden {
                hidden = node.name;
            }
        }
        if let Some(name) = hidden {
            self.ask(Ask::Remove(name))?;
        }
        Ok(())
    }
}

impl Outcome {
    /// Serves one request to its end. Returns whether the session goes on.
    fn meet(
        &mut self,
        plan: &Plan,
        unique: u64,
        node: u64,
        operation: Operation<'static>,
    ) -> Result<bool, AllocError> {
        let answer = self.world.answer(node, operation)?;
        self.offers = self.offers.saturating_add(1);
        let sent = if self.offers == plan.declined {
            plan.fate
        } else {
            Sent::Taken
        };
        if sent != Sent::Taken {
            self.world.undo(&answer)?;
        }
        self.world.sweep()?;
        if sent == Sent::Broken {
            self.end = SessionEnd::LinkBroken;
            return Ok(false);
        }
        if sent == Sent::Taken {
            let Answer { body, .. } = answer;
            encode_reply(&Reply { unique, body }, &mut self.taken)?;
        }
        if operation == Operation::Destroy {
            self.end = SessionEnd::Destroyed;
            return Ok(false);
        }
        Ok(true)
    }
}

/// Runs the requests, numbered from 1, over the sample tree.
pub fn run_slow(
    alloc: Global,
    requests: &[(u64, Operation<'static>)],
    plan: &Plan,
) -> Result<Outcome, AllocError> {
    let mut outcome = Outcome {
        world: World::new(alloc, plan.fault, plan.kinds)?,
        taken: Vec::new(alloc),
        offers: 0,
        end: SessionEnd::Closed { rest: 0 },
    };
    let mut unique = 0u64;
    for (node, operation) in requests {
        unique = unique.saturating_add(1);
        if !outcome.meet(plan, unique, *node, *operation)? {
            break;
        }
    }
    outcome.world.remove_hidden()?;
    Ok(outcome)
}
