//! The reader as a role.

ghost use Rattle.std.specs.Prelude.{◌≡◌, ◌+◌, length, map, None, Some, IfSome, IfNone};
ghost use Rattle.std.specs.Option.{option_map};
ghost use Rattle.crossbeam_channel.specs.Claims.{view, IsSeatAt};
ghost use Rattle.crossbeam_channel.specs.Ends.{sends_on};
ghost use Rattle.engine_queues.specs.Jobs.{numbers};
ghost use Rattle.engine_turns.specs.Shown.{queued_of, reading, shown};
ghost use Rattle.engine_turns.specs.Verdicts.{Reads};
ghost use Rattle.engine_turns.specs.Reads.{beginning, HasRead, HasReadAll};

use crate::origins::Source;
use crate::reader::Reader;
use crate::reading::ReaderEnd;
use crate::spare_buffers::SpareBuffers;
use crate::waiting::wait_unless;
use engine::{LinkIn, SessionEnd};
use std::marker::PhantomData;
use std::sync::Wait;

/// A reader with its link. It has read everything that it queued since it began with the link of `S`, and the queue has returned
/// nothing to it.
#[derive(Drop)]
pub struct ReaderRole<I: LinkIn + Drop, S: Source<I>> {
    pub reader: Reader,
    pub link: I,
    /// How a receive ended the session, after one has.
    pub end: Option<SessionEnd>,
    pub source: PhantomData<S>,
    ghost queue: { S.jobs ≡ Some (sends_on reader.to) },
    ghost parts: { (view reader.pass).parts + S.parted ≡ 8 },
    ghost none_back: { reader.handed_back ≡ None },
    ghost read: { ∥ HasRead I.receives S.heard_from end (reading link reader) ∥₁ },
}

/// Does not return if the queue has returned a job.
fn wait_if_returned<H: Wait>(rt: &H, reader: &Reader)
    ensures { reader.now.handed_back ≡ None }
{
    wait_unless(rt, reader.handed_back.is_none());
}

impl<I: LinkIn + Drop, S: Source<I>> ReaderRole<I, S> {
    /// A reader that has received nothing.
    pub fn new(reader: Reader, link: I) -> ReaderRole<I, S>
        requires queue { S.jobs ≡ Some (sends_on reader.to) }
        requires parts { (view reader.pass).parts + S.parted ≡ 8 }
        requires from { S.heard_from ≡ Some link }
        requires fresh { reading link reader ≡ beginning link }
        requires none_back { reader.handed_back ≡ None }
        ensures { (result.reader ≡ reader) × (result.link ≡ link) × (result.end ≡ None) }
    {
        ReaderRole {
            reader,
            link,
            end: None,
            source: PhantomData,
        }
    }

    /// Makes one receive, and queues a job for each frame that is then whole. After the session has ended it does
    /// nothing. If the queue returned a job, this would wait forever: the queue has a receiver as long as there is a
    /// worker.
    pub fn turn<H: Wait>(&mut self, rt: &H, spares: &mut SpareBuffers)
        ensures over { IfSome self.old.end (λ _. self.new ≡ self.old) }
        ensures reads { IfNone self.old.end (Reads I.receives (reading self.old.link self.old.reader) self.new.end (reading self.new.link self.new.reader)) }
    {
        match self.end {
            Some(_) => {}
            None => {
                let end = self.reader.turn(rt, &mut self.link, spares);
                wait_if_returned(rt, &self.reader);
                self.end = end;
            }
        }
    }

    /// What is left of the reader and its link after its end.
    pub fn into_end(self) -> (ReaderEnd, I)
        ensures seat { IfSome S.jobs (λ jobs. IsSeatAt jobs result.0.pass) }
        ensures parts { (view result.0.pass).parts + S.parted ≡ 8 }
        ensures takes_none { length (view result.0.pass).taken ≡ 0 }
        ensures numbered { map (λ j. j.ordinal) (view result.0.pass).put ≡ numbers 0 (length (view result.0.pass).put) }
        ensures same { (result.0.end ≡ self.end) × (result.0.last_job ≡ self.reader.last_job) × (view result.0.pass ≡ view self.reader.pass) }
        ensures read { ∥ HasReadAll I.receives S.heard_from result.0.end (queued_of (view result.0.pass).put) (option_map shown result.0.last_job) result.1 ∥₁ }
    {
        let ReaderRole {
            reader,
            link,
            end,
            source: _,
        } = self;
        (ReaderEnd::new(reader, end), link)
    }
}
