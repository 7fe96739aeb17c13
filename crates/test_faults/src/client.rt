//! A scripted client, and sessions with it.

ghost use Rattle.std.specs.Prelude.{◌≡◌, ◌≤◌, IfOk};
ghost use Rattle.table_steps.specs.Kept.{world_of};
ghost use Rattle.table_steps.specs.World.{opened_world};

use crate::watched::Watched;
use engine::{Link, LinkIn, LinkOut, Received, Sent, Served, Session, SessionEnd, Settings, serve};
use handles::Dirs;
use ledger::{Blanks, Ledgers, Share};
use std::alloc::{AllocError, Global};
use std::random::RandomSource;
use std::sync::Wait;
use table::{Counts, Limits, Seeds, Table};
use table_image::Image;
use terms::{AttributeSource, Kinds, Names};
use test_support::Handles;

/// Sends its frames one after another, and takes all replies except one. In its frames and replies, handles of open
/// folders are given by their positions (`Handles`).
#[derive(Drop)]
pub struct Client {
    frames: Vec<Vec<u8>>,
    given: usize,
    handles: Handles,
    /// How many replies were offered.
    pub offers: u32,
    /// The reply that is not taken, counted from 1, or 0.
    declined: u32,
    /// What becomes of that reply.
    fate: Sent,
    /// The replies that were taken, one after another.
    pub taken: Vec<u8>,
    failures: u64,
}

impl Client {
    /// A client that sends these frames, and returns `fate` for that reply, counted from 1.
    pub fn new(alloc: Global, frames: Vec<Vec<u8>>, declined: u32, fate: Sent) -> Client {
        Client {
            frames,
            given: 0,
            handles: Handles::new(alloc),
            offers: 0,
            declined,
            fate,
            taken: Vec::new(alloc),
            failures: 0,
        }
    }
}

impl LinkIn for Client {
    ghost use Rattle.engine.specs.Links.{counted, lost};

    ghost receives = { λ old brought new. new.failures ≡ counted old.failures (lost brought) };

    ghost failed_receives = { λ link. link.failures };

    ghost counts_receives = { λ _ _ _ counts. counts };

    fn receive(&mut self, room: &mut [u8]) -> Received {
        let Some(frame) = self.frames.get(self.given) else {
            return Received::End;
        };
        self.given = self.given.saturating_add(1);
        if frame.len() > room.len() {
            self.failures = self.failures.saturating_add(1);
            return Received::Broken;
        }
        room[..frame.len()].copy_from_slice(frame);
        self.handles.write(&mut room[..frame.len()]);
        Received::Bytes(frame.len())
    }
}

impl LinkOut for Client {
    ghost use Rattle.engine.specs.Links.{counted, missed};

    ghost sends = { λ old _ sent new. new.failures ≡ counted old.failures (missed sent) };

    ghost failed_sends = { λ link. link.failures };

    ghost counts_sends = { λ _ _ _ _ counts. counts };

    fn send(&mut self, frame: &[u8]) -> Sent {
        self.offers = self.offers.saturating_add(1);
        // The handle in it is read whether or not the reply is then taken.
        let told = self.handles.told(*self.taken.allocator(), frame);
        if self.offers == self.declined && self.fate != Sent::Taken {
            self.failures = self.failures.saturating_add(1);
            return self.fate;
        }
        let kept = match told {
            Ok(told) => self.taken.extend_from_slice(&told),
            Err(_) => Err(AllocError),
        };
        match kept {
            Ok(()) => Sent::Taken,
            Err(_) => {
                self.failures = self.failures.saturating_add(1);
                Sent::Broken
            }
        }
    }
}

impl Link for Client {
    ghost use Rattle.std.specs.Prelude.{refl};

    ghost one_count = { λ _. refl };
}

/// How a session ended, and its table at the end.
#[derive(Drop)]
pub struct Over {
    pub end: SessionEnd,
    pub image: Image,
}

/// A new table, and its only share.
fn open_one<T: Ledgers>(
    alloc: Global,
    limits: Limits,
    seeds: Seeds,
    blanks: Blanks,
) -> Result<(Table<T>, Share<T>), AllocError>
    requires names { blanks ≡ T.names }
    requires shares { T.names.parts ≡ 1 }
    requires root { 1 ≤ limits.nodes }
    requires free { limits.counts ≡ Counts.Free → limits.nodes ≤ limits.postings }
    ensures opened { IfOk result (λ (table, _). world_of table ≡ opened_world limits) }
{
    let (table, mut shares) = Table::<T>::open(alloc, limits, seeds, blanks, 1)?;
    let share = shares.pop().unwrap();
    shares.destroy_empty();
    Ok((table, share))
}

/// Serves a tree to a client, with a new table. These kinds of files are shown.
pub fn serve_on<H: Wait + RandomSource, T: Ledgers>(
    rt: &H,
    alloc: Global,
    blanks: Blanks,
    kinds: Kinds,
    served: &mut Served<Watched<'_>, &Dirs>,
    client: &mut Client,
) -> Result<Over, AllocError>
    requires names { blanks ≡ T.names }
    requires shares { T.names.parts ≡ 1 }
{
    let Ok(seeds) = Seeds::new(rt) else {
        return Err(AllocError);
    };
    let (mut table, mut share) = open_one::<T>(alloc, Limits::default(), seeds, blanks)?;
    let settings = Settings {
        attributes: AttributeSource::Fixed { uid: 0, gid: 0 },
        kinds,
        names: Names::Text,
    };
    let session = Session::new(alloc, settings);
    let end = serve(rt, session, client, served, &mut table, &mut share);
    share.leave();
    let image = table.export()?;
    Ok(Over { end, image })
}
