//! Serving folders with several threads.

ghost use Rattle.std.specs.Prelude.{vec_len};
ghost use Rattle.engine_threads.specs.Served.{behaviours};
ghost use Rattle.mirrord_programs.specs.Workers.{ServesFolders};

use backing::Calls;
use engine::{LinkIn, LinkOut, SessionEnd};
use engine_threads::{Given, serve_threads};
use mirrord_sessions::Terms;
use std::sync::Wait;
use std::thread::Threads;
use table::Seeds;

/// Serves a client that sends over one link and gets its replies over another, with one worker for each folder.
pub(crate) fn serve_workers<
    H: Threads + Wait + AllocGlobal + Clone + Send + Sync + Drop + 'static,
    I: LinkIn + Send + Drop + 'static,
    O: LinkOut + Send + Drop + 'static,
    C: Calls + Send + Drop + 'static,
>(rt: &H, folders: Vec<C>, seeds: Seeds, terms: Terms, link_in: I, link_out: O) -> SessionEnd
    ensures { ServesFolders (behaviours C.gives I.receives O.sends) terms (vec_len folders) folders.items link_in link_out result }
{
    let given = Given {
        link_in,
        link_out,
        calls: folders,
    };
    serve_threads(rt, rt.alloc(), given, terms.limits(), seeds, terms.settings).end
}
