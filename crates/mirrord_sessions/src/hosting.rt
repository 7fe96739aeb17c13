//! A session with a table of its own.

ghost use Rattle.std.specs.Prelude.{◌≡◌};
ghost use Rattle.engine.specs.Serving.{traffic};
ghost use Rattle.mirrord_sessions.specs.Known.{known_calls, ServesKnown};
ghost use Rattle.mirrord_sessions.specs.Sessions.{folder_limits, ServesLink};

use backing::{Calls, KnownTree};
use engine::{Link, Served, Session, SessionEnd, serve};
use handles::Dirs;
use ledger::{Blanks, Ledgers};
use std::alloc::Global;
use std::marker::Brand;
use std::sync::Wait;
use table::{Seeds, Table};
use terms::Terms;

/// A session that is over.
#[derive(Drop)]
pub struct Finished<C: Drop> {
    /// How it ended.
    pub end: SessionEnd,
    /// The directory, returned.
    pub calls: C,
}

/// What the table of a session is opened with.
#[derive(Clone, Copy)]
struct TableTerms {
    alloc: Global,
    seeds: Seeds,
    terms: Terms,
}

/// Serves a directory and these open folders over a link, with a table that has one share.
fn serve_new<H: Wait, T: Ledgers, L: Link, C: Calls + Drop>(
    rt: &H,
    blanks: Blanks,
    with: TableTerms,
    tree: C,
    dirs: &Dirs,
    link: &mut L,
) -> Finished<C>
    requires names { blanks ≡ T.names }
    requires shares { T.names.parts ≡ 1 }
    requires limits { dirs.now ≡ folder_limits }
    ensures { ServesLink with.terms (traffic L.receives L.sends) C.gives tree result.calls link.old result.end link.new }
{
    let TableTerms {
        alloc,
        seeds,
        terms,
    } = with;
    let opened = Table::<T>::open(alloc, terms.limits(), seeds, blanks, 1);
    let Ok((mut table, mut shares)) = opened else {
        return Finished {
            end: SessionEnd::Memory,
            calls: tree,
        };
    };
    let mut share = shares.pop().unwrap();
    shares.destroy_empty();
    let mut served = Served { calls: tree, dirs };
    let session = Session::new(alloc, terms.settings);
    let end = serve(rt, session, link, &mut served, &mut table, &mut share);
    share.leave();
    // This is a call so that this function is not checked for each part of a table.
    drop(table);
    Finished {
        end,
        calls: served.calls,
    }
}

/// The same with open folders of its own.
fn serve_link<H: Wait, T: Ledgers, L: Link, C: Calls + Drop>(
    rt: &H,
    blanks: Blanks,
    with: TableTerms,
    tree: C,
    link: &mut L,
) -> Finished<C>
    requires names { blanks ≡ T.names }
    requires shares { T.names.parts ≡ 1 }
    ensures { ServesLink with.terms (traffic L.receives L.sends) C.gives tree result.calls link.old result.end link.new }
{
    match Dirs::new(with.alloc) {
        Ok(dirs) => serve_new::<H, T, L, C>(rt, blanks, with, tree, &dirs, link),
        Err(_) => Finished {
            end: SessionEnd::Memory,
            calls: tree,
        },
    }
}

/// Serves a directory to one client until its session ends. It may wait for the link.
pub fn serve_alone<H: Wait, L: Link, C: Calls + Drop>(
    rt: &H,
    alloc: Global,
    seeds: Seeds,
    tree: C,
    link: &mut L,
    terms: Terms,
) -> Finished<C>
    ensures { ServesLink terms (traffic L.receives L.sends) C.gives tree result.calls link.old result.end link.new }
{
    let with = TableTerms {
        alloc,
        seeds,
        terms,
    };
    serve_link::<H, Brand, L, C>(rt, Blanks::new(1), with, tree, link)
}

/// The same for a directory whose tree is known.
pub fn serve_known<H: Wait, L: Link, C: KnownTree + Drop>(
    rt: &H,
    alloc: Global,
    seeds: Seeds,
    tree: C,
    link: &mut L,
    terms: Terms,
) -> Finished<C>
    ensures { ServesKnown terms (traffic L.receives L.sends) (known_calls C.gives C.limit C.tree C.faults) tree result.calls link.old result.end link.new }
{
    serve_alone(rt, alloc, seeds, tree, link, terms)
}
