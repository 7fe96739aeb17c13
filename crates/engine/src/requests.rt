//! A session, and how it handles one request.

ghost use Rattle.std.specs.Prelude.{◌≡◌, ◌≤◌, true, false, length, IfNone, IfSome};
ghost use Rattle.wire.specs.Pairs.{pairs_in};
ghost use Rattle.wire.specs.Requests.{opcode_in, unique_in, IsFramed};
ghost use Rattle.wire.specs.Written.{reply_bytes};
ghost use Rattle.ops.specs.Intents.{refusal_errno};
ghost use Rattle.engine.specs.Classes.{is_unanswered};
ghost use Rattle.engine.specs.Keeping.{KeepsBook, KeepsTerms};
ghost use Rattle.engine.specs.Reference.{ForgetsAll};
ghost use Rattle.engine.specs.Replies.{refusal, TakesMemory};
ghost use Rattle.engine.specs.Serving.{around, does};
ghost use Rattle.engine.specs.Walks.{by_rules, IsAnswered, WorkedOff};

use crate::links::Sent;
use crate::outlet::{Outlet, refuse, reply_done};
use crate::reach::Reach;
use crate::running::{Attempt, Source};
use crate::served::Served;
use crate::using::FolderRequest;
use backing::Calls;
use errno::ENOMEM;
use handles::Folders;
use ledger::{Ledgers, Share};
use ops::{Intent, Settings, file_reply, intent_of, refusal_errno};
use std::alloc::Global;
use std::sync::Wait;
use wire::{
    HEADER_LEN, Reply, ReplyBody, WireFault, decode, has_reply, header_of, split_pair, write_reply,
};

/// The state of a session, apart from its link, its directory and its table.
#[derive(Drop)]
pub struct Session {
    pub alloc: Global,
    pub settings: Settings,
    /// Whether a version is agreed on.
    pub agreed: bool,
    /// The buffer in which a reply is written.
    pub buffer: Vec<u8>,
}

/// Answers a faulty frame, unless its opcode gets no reply: by its fault, or, where the session does not serve the
/// opcode, as any other frame of it.
fn refuse_frame<L: Outlet>(
    link: &mut L,
    settings: Settings,
    frame: &[u8],
    fault: WireFault,
) -> Option<Sent>
    requires { HEADER_LEN ≤ length frame.now }
    ensures some { IfSome result (λ sent. (is_unanswered (opcode_in frame.now) ≡ false)
        × L.sends link.old (reply_bytes (refusal (unique_in frame.now) (refusal_errno settings (opcode_in frame.now) fault))) sent link.new) }
    ensures none { IfNone result ((is_unanswered (opcode_in frame.now) ≡ true) × (link.new ≡ link.old)) }
{
    match header_of(frame) {
        Some(header) if has_reply(header.opcode) => {
            let errno = refusal_errno(settings, header.opcode, fault);
            Some(refuse(link, header.unique, errno))
        }
        _ => None,
    }
}

/// Forgets lookups, pair by pair.
fn forget_all<T: Ledgers, R: Reach<T>>(table: &mut R, share: &mut Share<T>, pairs: &[u8])
    requires idle { R.steps.is_idle (R.world table.old) }
    ensures forgets { ForgetsAll R.steps (R.world table.old) (pairs_in pairs.now) (R.world table.new) }
    ensures gains { R.steps.gains (R.world table.old) share.old (R.world table.new) share.new }
    ensures idle { R.steps.is_idle (R.world table.new) }
{
    table.attest(); // proof: its law
    let mut rest = pairs;
    while let Some((lookups, more)) = split_pair(rest) {
        table.forget(share, lookups.node, lookups.nlookup);
        rest = more;
    }
}

impl Session {
    /// A session that has not agreed on a version yet.
    pub fn new(alloc: Global, settings: Settings) -> Session
        ensures settings { result.settings ≡ settings }
        ensures agreed { result.agreed ≡ false }
    {
        Session {
            alloc,
            settings,
            agreed: false,
            buffer: Vec::new(alloc),
        }
    }

    /// Offers a reply. None means that memory for it was refused.
    pub(crate) fn offer<L: Outlet>(&mut self, link: &mut L, reply: Reply) -> Option<Sent>
        ensures some { IfSome result (λ sent. L.sends link.old (reply_bytes reply) sent link.new) }
        ensures none { IfNone result (TakesMemory reply.body × (link.new ≡ link.old)) }
        ensures keeps { KeepsTerms self.old self.new }
    {
        match reply.body {
            ReplyBody::Failed { errno } => return Some(refuse(link, reply.unique, errno)),
            ReplyBody::Done => return Some(reply_done(link, reply.unique)),
            _ => {}
        }
        match write_reply(reply, &mut self.buffer) {
            Ok(()) => Some(link.buffered(&mut self.buffer)),
            Err(_) => None,
        }
    }

    /// Answers a request at once: with the reply, or with ENOMEM if memory for it is refused.
    pub(crate) fn answer<L: Outlet>(&mut self, link: &mut L, reply: Reply) -> Sent
        ensures said { IsAnswered L.sends reply link.old result link.new }
        ensures keeps { KeepsTerms self.old self.new }
    {
        let unique = reply.unique;
        match self.offer(link, reply) {
            Some(sent) => sent,
            None => refuse(link, unique, ENOMEM),
        }
    }

    /// Handles a request of a session that has agreed on a version. If it gets a reply, the result says what became of
    /// that.
    pub(crate) fn work_off<H: Wait, T: Ledgers, R: Reach<T>, L: Outlet, C: Calls, D: Folders>(
        &mut self,
        rt: &H,
        link: &mut L,
        served: &mut Served<C, D>,
        table: &mut R,
        share: &mut Share<T>,
        frame: &[u8],
    ) -> Option<Sent>
        requires free { R.steps.is_free (R.world table.old) }
        requires framed { IsFramed frame.now }
        requires idle { R.steps.is_idle (R.world table.old) }
        ensures worked { WorkedOff (by_rules R.steps self.old.settings L.sends) (does C.gives D.keeps) frame.now
            (around link.old served.old (R.world table.old)) result (around link.new served.new (R.world table.new)) }
        ensures keeps { KeepsBook R.steps self.old (R.world table.old) share.old self.new (R.world table.new) share.new }
        ensures idle { R.steps.is_idle (R.world table.new) }
    {
        table.attest(); // proof: its law
        let request = match decode(frame, self.settings.names) {
            Ok(request) => request,
            Err(fault) => return refuse_frame(link, self.settings, frame, fault),
        };
        let unique = request.unique;
        match intent_of(self.settings, &request) {
            Intent::Reply(body) => Some(self.answer(link, Reply { unique, body })),
            Intent::Want(wanted) => {
                let source = Source::Frame(wanted);
                let attempt = Attempt { request, source };
                Some(self.run(rt, link, served, table, share, attempt))
            }
            Intent::File { fh } => {
                let body = file_reply(request.node, table.find(fh));
                Some(self.answer(link, Reply { unique, body }))
            }
            Intent::Folder { fh, usage } => {
                let asked = FolderRequest { request, fh, usage };
                Some(self.use_folder(rt, link, served, table, share, asked))
            }
            Intent::Forget(lookups) => {
                table.forget(share, lookups.node, lookups.nlookup);
                None
            }
            Intent::ForgetAll { pairs } => {
                forget_all(table, share, pairs);
                None
            }
            Intent::Nothing => None,
        }
    }
}
