//! The two halves of a scripted client.

ghost use Rattle.std.specs.Prelude.{◌≡◌};

use engine::{LinkIn, LinkOut, Received, Sent};
use std::alloc::{AllocError, Global};
use std::sync::{Arc, Mutex, Wait};

/// Sends its pieces one after another.
#[derive(Drop)]
pub struct Asks<H: Wait + Drop> {
    pub rt: H,
    pub heard: Arc<Mutex<Heard>>,
    pub pieces: Vec<Vec<u8>>,
    pub given: usize,
    pub failures: u64,
}

impl<H: Wait + Drop> Asks<H> {
    /// It has sent nothing yet.
    pub fn new(rt: H, heard: Arc<Mutex<Heard>>, pieces: Vec<Vec<u8>>) -> Asks<H> {
        Asks {
            rt,
            heard,
            pieces,
            given: 0,
            failures: 0,
        }
    }
}

impl<H: Wait + Drop> LinkIn for Asks<H> {
    ghost use Rattle.engine.specs.Links.{counted, lost};

    ghost receives = { λ old brought new. new.failures ≡ counted old.failures (lost brought) };

    ghost failed_receives = { λ link. link.failures };

    ghost counts_receives = { λ _ _ _ counts. counts };

    fn receive(&mut self, room: &mut [u8]) -> Received {
        self.heard.lock(&self.rt).count_receive();
        let Some(piece) = self.pieces.get(self.given) else {
            return Received::End;
        };
        self.given = self.given.saturating_add(1);
        if piece.len() > room.len() {
            self.failures = self.failures.saturating_add(1);
            return Received::Broken;
        }
        room[..piece.len()].copy_from_slice(piece);
        Received::Bytes(piece.len())
    }
}

/// What becomes of the replies. They are counted from 1.
#[derive(Clone, Copy)]
pub enum Fates {
    /// All are taken.
    Taken,
    /// That reply has this fate, and the others are taken.
    Reply(u32, Sent),
    /// The same, counting only replies with an entry, whose frames have 144 bytes.
    Entry(u32, Sent),
    /// The first replies have these fates, in order, and those after them are taken.
    InTurn(&'static [Sent]),
}

impl Fates {
    /// What becomes of a reply: it is number `offers` of all, and number `entry` of those with an entry, if it has one.
    fn of(self, offers: u32, entry: Option<u32>) -> Sent {
        let (is_declined, fate) = match self {
            Fates::Taken => (false, Sent::Taken),
            Fates::Reply(number, fate) => (offers == number, fate),
            Fates::Entry(number, fate) => (entry == Some(number), fate),
            Fates::InTurn(fates) => return fate_in(fates, offers),
        };
        if is_declined { fate } else { Sent::Taken }
    }
}

/// The fate with that number.
fn fate_in(fates: &[Sent], number: u32) -> Sent {
    let Some(index) = number.checked_sub(1) else {
        return Sent::Taken;
    };
    match fates.get(index as usize) {
        Some(fate) => *fate,
        None => Sent::Taken,
    }
}

/// The number in the last eight of these bytes, lowest byte first: at the end of a header, that of the request; eight
/// bytes on in an entry, that of its node.
pub fn last_of(bytes: &[u8]) -> u64 {
    let Some(from) = bytes.len().checked_sub(16) else {
        return 0;
    };
    let mut number = 0u64;
    for i in 0..8 {
        let byte = bytes[from + 15 - i];
        number = number.wrapping_mul(256).wrapping_add(byte as u64);
    }
    number
}

/// What a client was asked for, and what it was offered.
#[derive(Drop)]
pub struct Heard {
    /// How many receives.
    pub receives: u32,
    /// How many replies.
    pub offers: u32,
    /// How many replies with an entry.
    pub entries: u32,
    /// The replies that were taken, one after another.
    pub bytes: Vec<u8>,
    /// The nodes of those with an entry.
    pub nodes: Vec<u64>,
}

/// Takes replies, or declines them.
#[derive(Drop)]
pub struct Hears<H: Wait + Drop> {
    pub rt: H,
    pub heard: Arc<Mutex<Heard>>,
    pub fates: Fates,
    pub failures: u64,
}

impl Heard {
    /// Nothing yet.
    pub fn new(alloc: Global) -> Heard {
        Heard {
            receives: 0,
            offers: 0,
            entries: 0,
            bytes: Vec::new(alloc),
            nodes: Vec::new(alloc),
        }
    }

    fn count_receive(&mut self) {
        self.receives = self.receives.saturating_add(1);
    }

    fn hear(&mut self, fates: Fates, frame: &[u8]) -> Sent {
        self.offers = self.offers.saturating_add(1);
        let mut entry = None;
        if frame.len() == 144 {
            self.entries = self.entries.saturating_add(1);
            entry = Some(self.entries);
        }
        let fate = fates.of(self.offers, entry);
        if fate != Sent::Taken {
            return fate;
        }
        match self.keep(frame) {
            Ok(()) => Sent::Taken,
            Err(_) => Sent::Broken,
        }
    }

    fn keep(&mut self, frame: &[u8]) -> Result<(), AllocError> {
        if frame.len() == 144 {
            self.nodes.push(last_of(&frame[..24]))?;
        }
        self.bytes.extend_from_slice(frame)
    }
}

impl<H: Wait + Drop> LinkOut for Hears<H> {
    ghost use Rattle.engine.specs.Links.{counted, missed};

    ghost sends = { λ old _ sent new. new.failures ≡ counted old.failures (missed sent) };

    ghost failed_sends = { λ link. link.failures };

    ghost counts_sends = { λ _ _ _ _ counts. counts };

    fn send(&mut self, frame: &[u8]) -> Sent {
        let mut heard = self.heard.lock(&self.rt);
        let sent = heard.hear(self.fates, frame);
        drop(heard);
        if sent != Sent::Taken {
            self.failures = self.failures.saturating_add(1);
        }
        sent
    }
}
