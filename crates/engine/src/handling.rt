//! Handling one frame, depending on whether a version is agreed on.

ghost use Rattle.std.specs.Prelude.{◌≡◌, None, Some};
ghost use Rattle.wire.specs.Requests.{opcode_in, unique_in, IsFramed};
ghost use Rattle.wire.specs.declared.opcode.TheConstants.{INIT};
ghost use Rattle.engine.specs.Classes.{class};
ghost use Rattle.engine.specs.Reference.{agrees, ending, init_reply_of, negotiated_by};
ghost use Rattle.engine.specs.Serving.{around, does};
ghost use Rattle.engine.specs.Walks.{by_rules, stand, HandlesInitFrame, IsHandled, HandlesDestroy, RepliesInit};

use crate::classes::{Class, ClassedFrame};
use crate::ends::SessionEnd;
use crate::links::Sent;
use crate::outlet::{Outlet, refuse, reply_done};
use crate::reach::Reach;
use crate::requests::Session;
use crate::served::Served;
use backing::Calls;
use errno::{EIO, ENOMEM, EPROTO};
use handles::Folders;
use ledger::{Ledgers, Share};
use std::sync::Wait;
use terms::Names;
use wire::{Negotiated, Operation, Reply, ReplyBody, decode, header_of, negotiate};

/// How the session ended with a reply, if it did.
fn ending(sent: Option<Sent>, destroyed: bool) -> Option<SessionEnd>
    ensures { result ≡ ending sent destroyed }
{
    match sent {
        Some(Sent::Broken) => return Some(SessionEnd::LinkBroken),
        Some(Sent::Taken | Sent::Untaken) | None => {}
    }
    if destroyed {
        return Some(SessionEnd::Destroyed);
    }
    None
}

/// The answer to an INIT.
fn init_reply_of(answer: Negotiated) -> ReplyBody
    ensures { result ≡ init_reply_of answer }
{
    match answer {
        Negotiated::Use(out) | Negotiated::Again(out) => ReplyBody::Init(out),
        Negotiated::Refuse => ReplyBody::Failed { errno: EPROTO },
    }
}

/// Whether a version is agreed on after this answer to an INIT, or was before.
pub fn agrees(answer: Negotiated, before: bool) -> bool
    ensures { result ≡ agrees answer before }
{
    match answer {
        Negotiated::Use(_) => true,
        Negotiated::Again(_) | Negotiated::Refuse => before,
    }
}

/// The result of negotiation, if the operation is an INIT.
pub fn negotiated_by(operation: Operation<'_>) -> Option<Negotiated>
    ensures { result ≡ negotiated_by operation.entry }
{
    match operation {
        Operation::Init {
            major,
            minor,
            max_readahead,
            flags,
        } => Some(negotiate(major, minor, max_readahead, flags)),
        _ => None,
    }
}

/// The number that the reply to a frame repeats.
fn unique_of(frame: &[u8]) -> u64
    requires { IsFramed frame.now }
    ensures { result ≡ unique_in frame.now }
{
    let Some(header) = header_of(frame) else {
        unreachable!()
    };
    header.unique
}

/// Answers a DESTROY, which ends the session unless it is faulty. It has no names, so it is the same in any session.
fn handle_destroy<L: Outlet>(link: &mut L, frame: &[u8]) -> Option<SessionEnd>
    requires { IsFramed frame.now }
    ensures { HandlesDestroy L.sends frame.now link.old result link.new }
{
    match decode(frame, Names::Bytes) {
        Ok(request) => ending(Some(reply_done(link, request.unique)), true),
        Err(fault) => ending(Some(refuse(link, unique_of(frame), fault.errno())), false),
    }
}

impl Session {
    /// Answers an INIT by what it comes to. A version is agreed on also where memory is refused for the reply, which is ENOMEM then.
    fn reply_init<L: Outlet>(&mut self, link: &mut L, unique: u64, answer: Negotiated) -> Sent
        ensures replies { RepliesInit L.sends unique answer self.old.agreed link.old result link.new self.new.agreed }
        ensures settings { self.new.settings ≡ self.old.settings }
    {
        let body = init_reply_of(answer);
        match self.offer(link, Reply { unique, body }) {
            Some(sent) => {
                // A version is agreed on whatever becomes of the reply.
                self.agreed = agrees(answer, self.agreed);
                sent
            }
            None => {
                self.agreed = agrees(answer, self.agreed);
                refuse(link, unique, ENOMEM)
            }
        }
    }

    /// Answers an INIT, or its fault.
    fn handle_init<L: Outlet>(&mut self, link: &mut L, frame: &[u8]) -> Sent
        requires framed { IsFramed frame.now }
        requires init { opcode_in frame.now ≡ INIT }
        ensures handles { HandlesInitFrame L.sends frame.now self.old.agreed link.old result link.new self.new.agreed }
        ensures settings { self.new.settings ≡ self.old.settings }
    {
        match decode(frame, Names::Bytes) {
            Ok(request) => match negotiated_by(request.operation) {
                Some(answer) => self.reply_init(link, request.unique, answer),
                None => unreachable!(),
            },
            Err(fault) => refuse(link, unique_of(frame), fault.errno()),
        }
    }

    /// Handles one frame. Some end means that it ended the session.
    pub fn handle_frame<H: Wait, T: Ledgers, R: Reach<T>, L: Outlet, C: Calls, D: Folders>(
        &mut self,
        rt: &H,
        link: &mut L,
        served: &mut Served<C, D>,
        table: &mut R,
        share: &mut Share<T>,
        arrived: ClassedFrame<'_>,
    ) -> Option<SessionEnd>
        requires free { R.steps.is_free (R.world table.old) }
        requires framed { IsFramed arrived.frame.now }
        requires class { arrived.class ≡ class self.old.agreed (opcode_in arrived.frame.now) }
        requires idle { R.steps.is_idle (R.world table.old) }
        ensures handled { IsHandled (by_rules R.steps self.old.settings L.sends) (does C.gives D.keeps) arrived.entry.frame.now
            (around link.old served.old (stand (R.world table.old) self.old.agreed)) result (around link.new served.new (stand (R.world table.new) self.new.agreed)) }
        ensures gains { R.steps.gains (R.world table.old) share.old (R.world table.new) share.new }
        ensures idle { R.steps.is_idle (R.world table.new) }
        ensures settings { self.new.settings ≡ self.old.settings }
    {
        table.attest(); // proof: its law
        let ClassedFrame { class, frame } = arrived;
        match class {
            Class::Ignored => None,
            Class::Unexpected => ending(Some(refuse(link, unique_of(frame), EIO)), false),
            Class::InitFrame => ending(Some(self.handle_init(link, frame)), false),
            Class::DestroyFrame => handle_destroy(link, frame),
            Class::Asking => ending(self.work_off(rt, link, served, table, share, frame), false),
        }
    }
}
