//! A socket that is polled for a while before a read blocks.

ghost use Rattle.std.specs.Prelude.{IfSome};
ghost use Rattle.std.specs.Io.{ReadsAtMost};

use crate::asking::Asking;
use libc::net::{MSG_DONTWAIT, recv};
use std::io;
use std::io::{ErrorKind, Read};
use std::os::fd::AsRawFd;
use std::os::unix::net::UnixStream;

/// How often one read polls at most before it blocks: for about 30 microseconds.
const ASKED: u32 = 128;

/// Reads from a socket. For a client whose next request comes within some microseconds the thread does not sleep.
///
/// The socket itself stays in blocking mode, since each read that polls says of itself that it does not wait.
#[derive(Drop)]
pub struct Polling {
    stream: UnixStream,
    asking: Asking,
}

/// What came while it was polled.
#[derive(Drop)]
struct Came {
    read: io::Result<usize>,
    /// Whether it was already there at the first attempt.
    at_once: bool,
}

/// One read that does not wait for anything to come.
fn read_at_once(stream: &UnixStream, room: &mut [u8]) -> io::Result<usize>
    ensures { ReadsAtMost result room.new }
{
    let moved = unsafe { recv(stream.as_raw_fd(), room, MSG_DONTWAIT) };
    match usize::try_from(moved) {
        Ok(count) => Ok(count),
        Err(_) => Err(io::Error::from_raw_os_error(os::errno())),
    }
}

/// Polls for what is there, at most that often. None means that nothing came.
fn ask(stream: &UnixStream, room: &mut [u8], times: u32) -> Option<Came>
    ensures { IfSome result (λ came. ReadsAtMost came.read room.new) }
{
    for time in 0..times {
        let read = read_at_once(stream, room);
        let waits = match &read {
            Ok(_) => false,
            Err(error) => error.kind() == ErrorKind::WouldBlock,
        };
        if !waits {
            let at_once = time == 0;
            return Some(Came { read, at_once });
        }
    }
    None
}

impl Polling {
    /// Reads from that socket. The first one polls.
    pub fn new(stream: UnixStream) -> Polling {
        Polling {
            stream,
            asking: Asking::new(),
        }
    }

    /// Polls for a while. None means that nothing came.
    fn poll(&self, room: &mut [u8]) -> Option<Came>
        ensures { IfSome result (λ came. ReadsAtMost came.read room.new) }
    {
        ask(&self.stream, room, ASKED)
    }

    /// Blocks until something comes.
    fn wait(&self, room: &mut [u8]) -> io::Result<usize>
        ensures { ReadsAtMost result room.new }
    {
        let mut stream = &self.stream;
        stream.read(room)
    }
}

impl Read for Polling {
    fn read(&mut self, buf: &mut [u8]) -> io::Result<usize> {
        if !self.asking.begins() {
            return self.wait(buf);
        }
        match self.poll(buf) {
            Some(Came { read, at_once }) => {
                self.asking.came(at_once);
                read
            }
            None => {
                self.asking.in_vain();
                self.wait(buf)
            }
        }
    }
}
