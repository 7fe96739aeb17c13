//! Serving a folder of the system over a Unix socket with several threads.

ghost use Rattle.std.specs.Prelude.{◌≡◌, vec_len};
ghost use Rattle.mirrord_programs.specs.Workers.{from_socket, to_socket, ServesSocketWith, ServesWorkers};

use crate::workers::serve_workers;
use backing::Calls;
use engine::SessionEnd;
use engine_streams::{Polling, StreamLink};
use mirrord_sessions::{
    Connection, RECEIVED, SocketFile, Terms, Unserved, new_seeds, open_folders,
};
use std::alloc::Global;
use std::fs::File;
use std::io;
use std::io::{BufReader, Empty, Sink};
use std::net::Net;
use std::os::unix::net::UnixStream;
use std::random::RandomSource;
use std::rt::Files;
use std::sync::Wait;
use std::thread::Threads;
use table::Seeds;

/// The link over which a client sends.
fn link_from(alloc: Global, input: BufReader<Polling>) -> StreamLink<BufReader<Polling>, Sink>
    ensures { result ≡ from_socket }
{
    StreamLink::new(alloc, input, io::sink())
}

/// The link over which it gets its replies.
fn link_to(alloc: Global, output: UnixStream) -> StreamLink<Empty, UnixStream>
    ensures { result ≡ to_socket }
{
    StreamLink::new(alloc, io::empty(), output)
}

/// Serves the client at the other end of a connection.
fn serve_client<
    H: Threads + Wait + AllocGlobal + Clone + Send + Sync + Drop + 'static,
    C: Calls + Send + Drop + 'static,
>(
    rt: &H,
    folders: Vec<C>,
    seeds: Seeds,
    terms: Terms,
    connection: Connection,
) -> Result<SessionEnd, Unserved>
    ensures { ServesSocketWith C.gives terms (vec_len folders) folders.items result }
{
    let Connection { input, output } = connection;
    let Ok(input) = BufReader::with_capacity(rt.alloc(), RECEIVED, input) else {
        return Err(Unserved::Memory);
    };
    let link_in = link_from(rt.alloc(), input);
    let link_out = link_to(rt.alloc(), output);
    Ok(serve_workers(rt, folders, seeds, terms, link_in, link_out))
}

/// Serves the first client that connects.
fn serve_first<
    H: Threads + Wait + AllocGlobal + Clone + Send + Sync + Drop + 'static,
    C: Calls + Send + Drop + 'static,
>(
    rt: &H,
    folders: Vec<C>,
    seeds: Seeds,
    terms: Terms,
    place: &SocketFile,
) -> Result<SessionEnd, Unserved>
    ensures { ServesSocketWith C.gives terms (vec_len folders) folders.items result }
{
    let connection = place.accept()?;
    serve_client(rt, folders, seeds, terms, connection)
}

/// Serves the first client that connects to a new socket at `path`, whose file is removed afterwards.
fn serve_at<
    H: Threads
        + Wait
        + Net
        + Files<File = File>
        + AllocGlobal
        + Clone
        + Send
        + Sync
        + Drop
        + 'static,
    C: Calls + Send + Drop + 'static,
>(rt: &H, folders: Vec<C>, seeds: Seeds, terms: Terms, path: &str) -> Result<SessionEnd, Unserved>
    ensures { ServesSocketWith C.gives terms (vec_len folders) folders.items result }
{
    let place = SocketFile::new(rt, path)?;
    let ended = serve_first(rt, folders, seeds, terms, &place);
    place.remove(rt, path);
    ended
}

/// The same with seeds of its own.
fn serve_seeded<
    H: Threads
        + Wait
        + Net
        + RandomSource
        + Files<File = File>
        + AllocGlobal
        + Clone
        + Send
        + Sync
        + Drop
        + 'static,
    C: Calls + Send + Drop + 'static,
>(rt: &H, folders: Vec<C>, terms: Terms, path: &str) -> Result<SessionEnd, Unserved>
    ensures { ServesSocketWith C.gives terms (vec_len folders) folders.items result }
{
    let seeds = new_seeds(rt)?;
    serve_at(rt, folders, seeds, terms, path)
}

/// Serves the folder at `root` as `serve_socket` does, but with that many threads, from 1 to 4. Each of them reads,
/// works on requests or writes replies, whichever is due, and has a folder of its own on the same root.
pub fn serve_socket_by<
    H: Threads
        + Wait
        + Net
        + RandomSource
        + Files<File = File>
        + AllocGlobal
        + Clone
        + Send
        + Sync
        + Drop
        + 'static,
>(rt: &H, root: &str, path: &str, workers: u8, terms: Terms) -> Result<SessionEnd, Unserved>
    ensures { ServesWorkers terms workers result }
{
    // The folders are opened before the socket is made, so that a bad folder leaves no file.
    let folders = open_folders(rt, root, terms.settings, workers)?;
    serve_seeded(rt, folders, terms, path)
}
