//! A scripted client, and sessions with it.

ghost use Rattle.std.specs.Prelude.{◌≡◌};

use crate::Handles;
use backing::MemTree;
use engine::{Link, LinkIn, LinkOut, Received, Sent, Served, Session, SessionEnd, serve};
use handles::Folders;
use ledger::{Blanks, Ledgers, Totals};
use log::info;
use log::sink::{Lines, Memory};
use ops::Settings;
use std::alloc::{AllocError, Global};
use std::marker::Brand;
use std::random::RandomSource;
use std::sync::Wait;
use table::{Limits, Seeds, Table};
use terms::{AttributeSource, Kinds, Names};

/// Sends its frames one after another, and takes all replies except one. It records the traffic. In its frames and
/// replies, handles of open folders are given by their positions (`Handles`).
#[derive(Drop)]
pub struct Client {
    frames: Vec<Vec<u8>>,
    given: usize,
    handles: Handles,
    sends: u32,
    /// The reply that is not taken, counted from 1.
    declined: u32,
    /// Whether the link breaks at it.
    breaks: bool,
    /// The replies that were taken, in order.
    pub taken: Vec<u8>,
    failures: u64,
    log: Memory,
}

impl Client {
    /// A client that sends these frames, and does not take that reply, counted from 1.
    pub fn new(alloc: Global, frames: Vec<Vec<u8>>, declined: u32) -> Client {
        Client {
            frames,
            given: 0,
            handles: Handles::new(alloc),
            sends: 0,
            declined,
            breaks: false,
            taken: Vec::new(alloc),
            failures: 0,
            log: Memory::new(alloc),
        }
    }

    /// The same client, whose link breaks at the reply that it does not take.
    pub fn breaking(self) -> Client {
        Client {
            breaks: true,
            ..self
        }
    }

    /// The traffic, one line each.
    pub fn into_record(self) -> Lines {
        self.log.into_lines()
    }
}

impl LinkIn for Client {
    ghost use Rattle.engine.specs.Links.{counted, lost};

    ghost receives = { λ old brought new. new.failures ≡ counted old.failures (lost brought) };

    ghost failed_receives = { λ link. link.failures };

    ghost counts_receives = { λ _ _ _ counts. counts };

    fn receive(&mut self, room: &mut [u8]) -> Received {
        let Some(frame) = self.frames.get(self.given) else {
            info!(self.log; target: "link", "the end is heard");
            return Received::End;
        };
        self.given = self.given.saturating_add(1);
        if frame.len() > room.len() {
            self.failures = self.failures.saturating_add(1);
            return Received::Broken;
        }
        room[..frame.len()].copy_from_slice(frame);
        self.handles.write(&mut room[..frame.len()]);
        info!(self.log; target: "link", "{} bytes are heard", frame.len());
        Received::Bytes(frame.len())
    }
}

impl LinkOut for Client {
    ghost use Rattle.engine.specs.Links.{counted, missed};

    ghost sends = { λ old _ sent new. new.failures ≡ counted old.failures (missed sent) };

    ghost failed_sends = { λ link. link.failures };

    ghost counts_sends = { λ _ _ _ _ counts. counts };

    fn send(&mut self, frame: &[u8]) -> Sent {
        self.sends = self.sends.saturating_add(1);
        // The handle in it is read whether or not the reply is then taken.
        let told = self.handles.told(*self.taken.allocator(), frame);
        info!(self.log; target: "link", "{} bytes are offered", frame.len());
        if self.sends == self.declined {
            self.failures = self.failures.saturating_add(1);
            return if self.breaks {
                Sent::Broken
            } else {
                Sent::Untaken
            };
        }
        let kept = match told {
            Ok(told) => self.taken.extend_from_slice(&told),
            Err(_) => Err(AllocError),
        };
        match kept {
            Ok(()) => Sent::Taken,
            Err(_) => {
                self.failures = self.failures.saturating_add(1);
                Sent::Broken
            }
        }
    }
}

impl Link for Client {
    ghost use Rattle.std.specs.Prelude.{refl};

    ghost one_count = { λ _. refl };
}

/// Fixed attributes, of files and folders alone; the owner is user 0 and group 0.
pub const FIXED: Settings = Settings {
    attributes: AttributeSource::Fixed { uid: 0, gid: 0 },
    kinds: Kinds::Plain,
    names: Names::Text,
};

/// The same of all kinds of files.
pub const ALL: Settings = Settings {
    attributes: AttributeSource::Fixed { uid: 0, gid: 0 },
    kinds: Kinds::All,
    names: Names::Text,
};

/// Attributes of the host, of files and folders alone.
pub const OF_HOST: Settings = Settings {
    attributes: AttributeSource::Host,
    kinds: Kinds::Plain,
    names: Names::Text,
};

/// The same of all kinds of files.
pub const ALL_OF_HOST: Settings = Settings {
    attributes: AttributeSource::Host,
    kinds: Kinds::All,
    names: Names::Text,
};

/// How a session ended, and the totals of its share.
#[derive(Clone, Copy, Debug, PartialEq, Eq)]
pub struct Over {
    pub end: SessionEnd,
    pub totals: Totals,
}

/// Serves a tree and open folders to a client with these settings, with a new table with these limits.
pub fn serve_client<H: Wait + RandomSource, D: Folders>(
    rt: &H,
    alloc: Global,
    settings: Settings,
    limits: Limits,
    served: &mut Served<MemTree, D>,
    client: &mut Client,
) -> Result<Over, AllocError> {
    let session = Session::new(alloc, settings);
    serve_over::<H, Brand, D>(rt, session, limits, Blanks::new(1), served, client)
}

// The same with a table whose share's blanks are these.
fn serve_over<H: Wait + RandomSource, T: Ledgers, D: Folders>(
    rt: &H,
    session: Session,
    limits: Limits,
    blanks: Blanks,
    served: &mut Served<MemTree, D>,
    client: &mut Client,
) -> Result<Over, AllocError>
    requires names { blanks ≡ T.names }
    requires shares { T.names.parts ≡ 1 }
{
    // The root is a node, and a period has room for all nodes.
    if limits.nodes == 0 || limits.postings < limits.nodes {
        return Err(AllocError);
    }
    let Ok(seeds) = Seeds::new(rt) else {
        return Err(AllocError);
    };
    let alloc = *client.taken.allocator();
    let (mut table, mut shares) = Table::<T>::open(alloc, limits, seeds, blanks, 1)?;
    let mut share = shares.pop().unwrap();
    shares.destroy_empty();
    let end = serve(rt, session, client, served, &mut table, &mut share);
    let totals = share.totals();
    share.leave();
    Ok(Over { end, totals })
}
