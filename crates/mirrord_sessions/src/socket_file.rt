//! The socket at which one client is awaited.

ghost use Rattle.std.specs.Prelude.{◌≡◌, Decides, IfErr, IsSome};
ghost use Rattle.std.specs.IoError.{error_kind};
ghost use Rattle.std.specs.declared.io.ErrorKind.{ErrorKind};
ghost use Rattle.mirrord_sessions.specs.Starts.{unheard_by};

use crate::folder::Unserved;
use engine_streams::Polling;
use std::fs::File;
use std::io::ErrorKind;
use std::net::Net;
use std::os::unix::fs::MetadataExt;
use std::os::unix::net::{UnixListener, UnixStream};
use std::rt::Files;
use std::{fs, io};

/// Why no client can be awaited.
fn unheard(error: io::Error) -> Unserved
    ensures { result ≡ unheard_by (error_kind error) }
{
    match error.kind() {
        ErrorKind::OutOfMemory => Unserved::Memory,
        _ => Unserved::NoSocket,
    }
}

/// By which a system tells one file from another.
#[derive(Clone, Copy, Debug, PartialEq, Eq)]
struct FileIdentity {
    device: u64,
    inode: u64,
}

/// The identity of what is at the path, without following a link there.
fn identity_of<R: Files<File = File> + AllocGlobal>(rt: &R, path: &str) -> Option<FileIdentity> {
    match fs::symlink_metadata(rt, path) {
        Ok(metadata) => Some(FileIdentity {
            device: metadata.dev(),
            inode: metadata.ino(),
        }),
        Err(_) => None,
    }
}

/// Both ends of a connection to a client, by a descriptor each, so that threads may have one each.
#[derive(Drop)]
pub struct Connection {
    pub input: Polling,
    pub output: UnixStream,
}

/// A socket to which a client may connect, and the file that was created for it.
#[derive(Drop)]
pub struct SocketFile {
    listener: UnixListener,
    made: Option<FileIdentity>,
}

impl SocketFile {
    /// Creates the socket with its file.
    pub fn new<H: Net + Files<File = File> + AllocGlobal>(
        rt: &H,
        path: &str,
    ) -> Result<SocketFile, Unserved>
        ensures { IfErr result (λ why. (kind : ErrorKind) × (why ≡ unheard_by kind)) }
    {
        match UnixListener::bind(rt, path) {
            Ok(listener) => Ok(SocketFile {
                listener,
                made: identity_of(rt, path),
            }),
            Err(error) => Err(unheard(error)),
        }
    }

    /// Waits for one client.
    pub fn accept(&self) -> Result<Connection, Unserved>
        ensures { IfErr result (λ why. (kind : ErrorKind) × (why ≡ unheard_by kind)) }
    {
        match self.listener.accept() {
            Ok((output, _)) => match output.try_clone() {
                Ok(heard) => Ok(Connection {
                    input: Polling::new(heard),
                    output,
                }),
                Err(error) => Err(unheard(error)),
            },
            Err(error) => Err(unheard(error)),
        }
    }

    /// Whether what was found is the file that was created. If that could not be looked at, nothing is.
    fn is_own(&self, found: Option<FileIdentity>) -> bool
        ensures { Decides result (IsSome self.now.made × (found ≡ self.now.made)) }
    {
        self.made.is_some() && found == self.made
    }

    /// Removes the file that was created at `path`, if it is still the one there: whatever else is there stays. If that
    /// fails, the file remains.
    pub fn remove<R: Files<File = File> + AllocGlobal>(&self, rt: &R, path: &str) {
        if self.is_own(identity_of(rt, path)) {
            let _ = fs::remove_file(rt, path);
        }
    }
}
