//! Serves the stories, and compares what came with what they say.

ghost use Rattle.std.specs.Prelude.{◌≡◌};

use crate::client::{Asks, Heard, Hears, last_of};
use crate::story::{Comes, SETTINGS, Shows, Story, holds_of, path_of_file, pieces_of};
use backing::{Answer, Call, Calls, Child};
use engine::{LinkIn, LinkOut, Sent, SessionEnd};
use engine_threads::{Account, Ended, Given, serve_threads};
use paths::Path;
use std::alloc::{AllocError, Global};
use std::random::RandomSource;
use std::sync::{Arc, Mutex, Wait};
use std::test::Fail;
use std::thread::Threads;
use table::{Limits, Seeds};
use wire::Operation;

/// The result of a session.
#[derive(Clone, Copy, Debug, PartialEq, Eq)]
pub struct Came {
    pub end: SessionEnd,
    pub is_read: bool,
    pub offers: u32,
    pub last: u64,
    pub workers: usize,
    pub taken: u64,
    /// How many jobs were put: so many whole frames came, without the one that ended the session and what came after it.
    pub put: u64,
    /// If the story says how often a node is born.
    pub births: Option<u64>,
    pub totals: Option<(u64, u64, u64)>,
    /// How many entries the client has.
    pub kept: u64,
    pub back: Back,
}

/// What comes back after a session, as it is then.
#[derive(Clone, Copy, Debug, PartialEq, Eq)]
pub struct Back {
    /// Whether a receive from the link in asks this client.
    pub receives: bool,
    /// Whether this client takes one more reply from the link out.
    pub takes: bool,
    pub directories: usize,
    /// How many of the directories show what the story says.
    pub showing: usize,
}

fn summed(counts: &[u64]) -> u64 {
    let mut sum = 0u64;
    for count in counts {
        sum = sum.saturating_add(*count);
    }
    sum
}

/// The births, if the story says how many, and how many entries were given, given back and forgotten.
fn totals_of(
    account: &Option<Account>,
    story: &Story<'_>,
) -> (Option<u64>, Option<(u64, u64, u64)>) {
    let Some(account) = account else {
        return (None, None);
    };
    let totals = account.sums.totals();
    let born = match story.births {
        Some(_) => Some(totals.born),
        None => None,
    };
    (born, Some((totals.entries, totals.backs, totals.forgotten)))
}

/// The number in the last reply, if the story says it.
fn last_heard(heard: &Heard, story: &Story<'_>) -> u64 {
    match story.last {
        0 => 0,
        _ => last_of(heard.bytes.as_slice()),
    }
}

/// How many workers took jobs, and how many jobs they took in all.
fn taken_of(account: &Option<Account>) -> (usize, u64) {
    match account {
        Some(account) => (account.taken.len(), summed(account.taken.as_slice())),
        None => (0, 0),
    }
}

/// How many jobs were put, if the client has sent that many of its pieces: one for each whole frame that came before
/// DESTROY.
fn put_of(story: &Story<'_>, sent: usize) -> u64 {
    if sent == 0 {
        return 0;
    }
    let mut put = 1u64;
    for (_node, operation) in story.asks {
        if matches!(operation, Operation::Destroy) {
            return put;
        }
        if story.comes == Comes::Alone && put >= sent as u64 {
            return put;
        }
        put = put.saturating_add(1);
    }
    put
}

/// What a directory shows.
fn shown_by<C: Calls>(alloc: Global, calls: &mut C) -> Result<Shows, AllocError> {
    let root = Path::from_names(Vec::new(alloc))?;
    let Answer::Names(children) = calls.call(Call::List(&root)) else {
        return Ok(Shows::Other);
    };
    let [Child { name, kind: _ }] = children.as_slice() else {
        return Ok(if children.as_slice().is_empty() {
            Shows::Nothing
        } else {
            Shows::Other
        });
    };
    let Answer::Stat { size: 3, .. } = calls.call(Call::Stat(&path_of_file(alloc)?)) else {
        return Ok(Shows::Other);
    };
    Ok(if name.as_bytes() == b"a".as_slice() {
        Shows::File
    } else {
        Shows::Other
    })
}

/// Uses once what came back: a receive, a reply, and a look at what each directory shows.
fn use_back<H: Wait + Drop, O: LinkOut + Drop, C: Calls + Drop>(
    rt: &H,
    alloc: Global,
    back: &mut Given<Asks<H>, O, C>,
    heard: &Mutex<Heard>,
    shows: Shows,
) -> Result<Back, AllocError> {
    let (receives, offers) = {
        let heard = heard.lock(rt);
        (heard.receives, heard.offers)
    };
    let _received = back.link_in.receive(&mut [0; 16]);
    let sent = back.link_out.send(b"more");
    let mut showing = 0usize;
    for calls in &mut back.calls {
        if shown_by(alloc, calls)? == shows {
            showing = showing.saturating_add(1);
        }
    }
    let heard = heard.lock(rt);
    Ok(Back {
        receives: heard.receives == receives.saturating_add(1),
        takes: sent == Sent::Taken && heard.offers == offers.saturating_add(1),
        directories: back.calls.len(),
        showing,
    })
}

/// The result of a session, of which this came back.
fn came_of<H: Wait + Drop, O: LinkOut + Drop, C: Calls + Drop>(
    rt: &H,
    alloc: Global,
    mut ended: Ended<Asks<H>, O, C>,
    heard: &Mutex<Heard>,
    story: &Story<'_>,
) -> Result<Came, AllocError> {
    let put = put_of(story, ended.back.link_in.given);
    let (births, totals) = totals_of(&ended.account, story);
    let (workers, taken) = taken_of(&ended.account);
    let (is_read, offers, last, kept) = {
        let heard = heard.lock(rt);
        (
            heard.receives > 0,
            heard.offers,
            last_heard(&heard, story),
            heard.nodes.len() as u64,
        )
    };
    Ok(Came {
        end: ended.end,
        is_read,
        offers,
        last,
        workers,
        taken,
        put,
        births,
        totals,
        kept,
        back: use_back(rt, alloc, &mut ended.back, heard, story.shows)?,
    })
}

/// The client of a story, with its links.
#[derive(Drop)]
pub struct Client<H: Wait + Drop, O: Drop> {
    pub asks: Asks<H>,
    pub hears: O,
    pub heard: Arc<Mutex<Heard>>,
}

pub fn client_of<H: Wait + Clone + Drop>(
    rt: &H,
    alloc: Global,
    story: &Story<'_>,
) -> Result<Client<H, Hears<H>>, AllocError> {
    let heard = Arc::new(alloc, Mutex::new(Heard::new(alloc)))?;
    let Ok(own) = rt.clone() else {
        return Err(AllocError);
    };
    let pieces = pieces_of(alloc, story.comes, story.asks, story.rest)?;
    let asks = Asks::new(own, Arc::try_clone(&heard)?, pieces);
    let Ok(own) = rt.clone() else {
        return Err(AllocError);
    };
    let hears = Hears {
        rt: own,
        heard: Arc::try_clone(&heard)?,
        fates: story.fates,
        failures: 0,
    };
    Ok(Client { asks, hears, heard })
}

/// Serves a story to this client with these trees, and returns the result.
fn tell<
    H: Threads + Wait + RandomSource + Clone + Send + Sync + Drop + 'static,
    O: LinkOut + Send + Drop + 'static,
    C: Calls + Send + Drop + 'static,
>(
    rt: &H,
    alloc: Global,
    story: &Story<'_>,
    client: Client<H, O>,
    trees: Vec<C>,
) -> Result<Came, AllocError> {
    let Client { asks, hears, heard } = client;
    let Ok(seeds) = Seeds::new(rt) else {
        return Err(AllocError);
    };
    let given = Given {
        link_in: asks,
        link_out: hears,
        calls: trees,
    };
    let ended = serve_threads(rt, alloc, given, Limits::default(), seeds, SETTINGS);
    came_of(rt, alloc, ended, &heard, story)
}

/// Serves a story with handles to one tree, and fails if the result differs.
pub fn check<H: Threads + Wait + RandomSource + Clone + Send + Sync + Drop + 'static>(
    rt: &H,
    alloc: Global,
    story: &Story<'_>,
) -> Result<(), Fail> {
    let holds = holds_of(rt, alloc, story.workers)?;
    check_by(rt, alloc, story, holds)
}

/// The same with these trees.
pub fn check_by<
    H: Threads + Wait + RandomSource + Clone + Send + Sync + Drop + 'static,
    C: Calls + Send + Drop + 'static,
>(rt: &H, alloc: Global, story: &Story<'_>, trees: Vec<C>) -> Result<(), Fail> {
    let client = client_of(rt, alloc, story)?;
    check_over(rt, alloc, story, client, trees)
}

/// The same with this client.
pub fn check_over<
    H: Threads + Wait + RandomSource + Clone + Send + Sync + Drop + 'static,
    O: LinkOut + Send + Drop + 'static,
    C: Calls + Send + Drop + 'static,
>(
    rt: &H,
    alloc: Global,
    story: &Story<'_>,
    client: Client<H, O>,
    trees: Vec<C>,
) -> Result<(), Fail> {
    let came = tell(rt, alloc, story, client, trees)?;
    let (workers, kept) = match story.totals {
        Some((entries, backs, _)) => (story.workers, entries.saturating_sub(backs)),
        None => (0, 0),
    };
    let wanted = Came {
        end: story.end,
        is_read: story.end != SessionEnd::NoWorkers,
        offers: story.offers,
        last: story.last,
        workers,
        taken: story.taken,
        put: story.taken,
        births: story.births,
        totals: story.totals,
        kept,
        back: Back {
            receives: true,
            takes: true,
            directories: story.workers,
            showing: story.workers,
        },
    };
    if came == wanted {
        Ok(())
    } else {
        Err(Fail::from((story.says, came)))
    }
}
