//! Serving a folder of a disk over a Unix socket with one thread.

ghost use Rattle.disk_folder.specs.Gives.{IsNew, claims};
ghost use Rattle.mirrord_sessions.specs.Folders.{ServesSocket};

use crate::disks::Disks;
use crate::folder::{Unserved, open_seeded, serve_opened};
use crate::socket_file::{Connection, SocketFile};
use disk::Disk;
use disk_folder::Folder;
use engine::SessionEnd;
use engine_streams::Holding;
use std::fs::File;
use std::io::{BufReader, Write};
use std::net::Net;
use std::random::RandomSource;
use std::rt::Files;
use std::sync::Wait;
use table::Seeds;
use terms::Terms;

/// How many bytes one receive from the system takes at most.
pub const RECEIVED: usize = 131_072;

/// Serves the client at the other end of a connection.
fn serve_client<H: Wait + AllocGlobal, D: Disk + Drop>(
    rt: &H,
    folder: Folder<D>,
    seeds: Seeds,
    terms: Terms,
    connection: Connection,
) -> Result<SessionEnd, Unserved>
    requires { IsNew folder }
    ensures { ServesSocket (claims D.honest D.tree D.has_set D.has_synced) terms result }
{
    let Connection { input, output } = connection;
    let Ok(input) = BufReader::with_capacity(rt.alloc(), RECEIVED, input) else {
        return Err(Unserved::Memory);
    };
    let output = Holding::new(rt.alloc(), output);
    let mut over = serve_opened(rt, folder, seeds, terms, input, output);
    // Replies can be left only if more came after the DESTROY; the session is over, whatever becomes of them.
    let _ = over.output.flush();
    Ok(over.end)
}

/// Serves the first client that connects.
fn serve_first<H: Wait + AllocGlobal, D: Disk + Drop>(
    rt: &H,
    folder: Folder<D>,
    seeds: Seeds,
    terms: Terms,
    place: &SocketFile,
) -> Result<SessionEnd, Unserved>
    requires { IsNew folder }
    ensures { ServesSocket (claims D.honest D.tree D.has_set D.has_synced) terms result }
{
    let connection = place.accept()?;
    serve_client(rt, folder, seeds, terms, connection)
}

/// Serves the first client that connects to a new socket at `path`, whose file is removed afterwards.
fn serve_at<H: Wait + Net + Files<File = File> + AllocGlobal, D: Disk + Drop>(
    rt: &H,
    folder: Folder<D>,
    seeds: Seeds,
    terms: Terms,
    path: &str,
) -> Result<SessionEnd, Unserved>
    requires { IsNew folder }
    ensures { ServesSocket (claims D.honest D.tree D.has_set D.has_synced) terms result }
{
    let place = SocketFile::new(rt, path)?;
    let ended = serve_first(rt, folder, seeds, terms, &place);
    place.remove(rt, path);
    ended
}

/// Serves the folder at `root` to the first client that connects to a new socket at `path`, until its session ends. The
/// socket's file is removed afterwards, unless something else has taken its place.
pub fn serve_socket<
    H: Wait + Net + RandomSource + Files<File = File> + AllocGlobal,
    D: Disk + Drop,
    P: Disks<Disk = D>,
>(rt: &H, disks: &P, root: &str, path: &str, terms: Terms) -> Result<SessionEnd, Unserved>
    ensures { ServesSocket (claims D.honest D.tree D.has_set D.has_synced) terms result }
{
    // The folder is opened before the socket is made, so that a bad folder leaves no file.
    let (folder, seeds) = open_seeded(rt, disks, root, terms.settings)?;
    serve_at(rt, folder, seeds, terms, path)
}
