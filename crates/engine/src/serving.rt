//! A whole session on one thread.

ghost use Rattle.std.specs.Prelude.{◌≡◌, None, IfNone, IfOk, OnErr};
ghost use Rattle.table_steps.specs.Kept.{world_of};
ghost use Rattle.table.specs.Gains.{GainsInAll};
ghost use Rattle.table_hiding.specs.Hiding.{KeepsHidden};
ghost use Rattle.engine.specs.Hiding.{hiding};
ghost use Rattle.engine.specs.Serving.{around, does, traffic, IsClientRun, IsSessionRun, RemovesAll, RemovesLeft};
ghost use Rattle.engine.specs.Tables.{worlds, IsIdle};
ghost use Rattle.engine.specs.Walks.{side, stand, WorksOffFrames};

use crate::classes::ClassedFrame;
use crate::ends::SessionEnd;
use crate::hearing::{hear, room_in};
use crate::links::Link;
use crate::requests::Session;
use crate::served::Served;
use backing::{Call, Calls};
use handles::Folders;
use holds::Paths;
use ledger::{Ledgers, Share};
use paths::Path;
use std::alloc::AllocError;
use std::sync::Wait;
use table::Table;
use wire::{CutFault, Cutter};

impl Session {
    /// Handles the frames that are whole. Some end means that the session is over.
    fn work_off_frames<H: Wait, T: Ledgers, L: Link, C: Calls, D: Folders>(
        &mut self,
        rt: &H,
        link: &mut L,
        served: &mut Served<C, D>,
        table: &mut Table<T>,
        share: &mut Share<T>,
        cutter: &mut Cutter,
    ) -> Option<SessionEnd>
        requires idle { IsIdle (world_of table.old) }
        ensures drains { WorksOffFrames worlds self.old.settings (traffic L.receives L.sends) (does C.gives D.keeps)
            (side (around link.old served.old (stand (world_of table.old) self.old.agreed)) cutter.old.kept)
            (side (around link.new served.new (stand (world_of table.new) self.new.agreed)) cutter.new.kept) result }
        ensures gains { GainsInAll (world_of table.old) share.old (world_of table.new) share.new }
        ensures on { IfNone result (cutter.new.stopped ≡ cutter.old.stopped) }
        ensures idle { IsIdle (world_of table.new) }
        ensures settings { self.new.settings ≡ self.old.settings }
    {
        table.attest(); // proof: its law
        loop {
            let (len, over) = match cutter.peek() {
                Ok(None) => return None,
                Ok(Some(frame)) => {
                    link.expect_more(cutter.rest() > frame.len());
                    let arrived = ClassedFrame::of(self.agreed, frame);
                    let over = self.handle_frame(rt, link, served, table, share, arrived);
                    (frame.len(), over)
                }
                Err(CutFault::BadLength { len }) => return Some(SessionEnd::BadLength { len }),
                Err(CutFault::Memory) => unreachable!(),
            };
            cutter.skip(len);
            match over {
                None => {}
                Some(end) => return Some(end),
            }
        }
    }
}

/// Handles what a client sends until its session is over.
fn serve_client<H: Wait, T: Ledgers, L: Link, C: Calls, D: Folders>(
    rt: &H,
    session: Session,
    link: &mut L,
    served: &mut Served<C, D>,
    table: &mut Table<T>,
    share: &mut Share<T>,
) -> SessionEnd
    requires fresh { IsIdle (world_of table.old) }
    ensures serves { IsClientRun worlds session.settings (traffic L.receives L.sends) (does C.gives D.keeps)
        (around link.old served.old (world_of table.old)) (around link.new served.new (world_of table.new)) result }
    ensures gains { GainsInAll (world_of table.old) share.old (world_of table.new) share.new }
{
    table.attest(); // proof: its law
    let mut session = session;
    session.agreed = false;
    let mut cutter = Cutter::new(session.alloc);
    let mut room = room_in(session.alloc);
    for _ in rt.forever() {
        match hear(link, &mut cutter, &mut room) {
            None => {}
            Some(end) => return end,
        }
        match session.work_off_frames(rt, link, served, table, share, &mut cutter) {
            None => {}
            Some(end) => return end,
        }
    }
    unreachable!()
}

/// Removes these files, with one call each. If a call fails, its file remains.
fn remove_all<C: Calls>(calls: &mut C, paths: &[Path])
    ensures { RemovesAll C.gives calls.old paths.now calls.new }
{
    for path in paths {
        let _ = calls.call(Call::Remove(path));
    }
}

/// Removes the files in the list, if there was memory for it.
fn remove_listed<C: Calls>(calls: &mut C, listed: Result<Paths, AllocError>)
    ensures listed { IfOk listed (λ paths. RemovesAll C.gives calls.old paths calls.new) }
    ensures unlisted { OnErr listed (calls.new ≡ calls.old) }
{
    match listed {
        Ok(paths) => remove_all(calls, paths.as_slice()),
        Err(_) => {}
    }
}

/// Removes the files that are still hidden, with one call each. If memory for the list of them is refused, nothing is
/// removed.
pub fn remove_leftovers<T: Ledgers, C: Calls>(calls: &mut C, table: &Table<T>)
    ensures { RemovesLeft worlds C.gives calls.old (world_of table.now) calls.new }
{
    remove_listed(calls, table.leftover());
}

/// Serves a client on one thread until its session ends, and then removes the files that are still hidden. The session
/// begins anew: no version is agreed on. The share counts the postings. No request may be in flight in the table. It may
/// wait for the link.
pub fn serve<H: Wait, T: Ledgers, L: Link, C: Calls, D: Folders>(
    rt: &H,
    session: Session,
    link: &mut L,
    served: &mut Served<C, D>,
    table: &mut Table<T>,
    share: &mut Share<T>,
) -> SessionEnd
    requires fresh { IsIdle (world_of table.old) }
    ensures serves { IsSessionRun worlds session.settings (traffic L.receives L.sends) (does C.gives D.keeps)
        (around link.old served.old (world_of table.old)) (around link.new served.new (world_of table.new)) result }
    ensures gains { GainsInAll (world_of table.old) share.old (world_of table.new) share.new }
    ensures hidden { KeepsHidden (world_of table.old) → IsSessionRun hiding session.settings (traffic L.receives L.sends) (does C.gives D.keeps)
        (around link.old served.old (world_of table.old)) (around link.new served.new (world_of table.new)) result }
{
    table.attest(); // proof: its law
    let end = serve_client(rt, session, link, served, table, share);
    remove_leftovers(&mut served.calls, table);
    end
}
