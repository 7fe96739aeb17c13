//! Runs that fail, each with its exit status and its line on standard error.

use crate::frames::{AGREED, INIT, LOOKUP_A, MAKE_M, bytes_of};
use crate::host::Host;
use crate::pipes::pipe;
use crate::sample_folders::{Shown, expect, new_folder, place_of};
use mirrord_programs::{LinuxDisks, Standard, run};
use std::alloc::Global;
use std::io;
use std::io::{ErrorKind, Write};
use std::test::Fail;

/// Takes `room` bytes and then fails: a full disk, or a client that has gone.
#[derive(Drop)]
struct Narrow {
    room: usize,
    kind: ErrorKind,
    taken: Vec<u8>,
}

impl Write for Narrow {
    fn write(&mut self, bytes: &[u8]) -> io::Result<usize> {
        let count = bytes.len().min(self.room);
        if count == 0 {
            return Err(io::Error::new(self.kind, "no room"));
        }
        self.room = self.room.saturating_sub(count);
        self.taken.extend_from_slice(&bytes[..count])?;
        Ok(count)
    }

    fn flush(&mut self) -> io::Result<()> {
        Ok(())
    }
}

fn new_narrow(alloc: Global, room: usize, kind: ErrorKind) -> Narrow {
    Narrow {
        room,
        kind,
        taken: Vec::new(alloc),
    }
}

/// The output breaks in the middle of the reply to MKDIR. The folder that was made remains, and the next request is not
/// handled.
#[test]
fn output_that_breaks_in_a_reply(rt: HostRuntime) -> Result<(), Fail> {
    for kind in [ErrorKind::BrokenPipe, ErrorKind::StorageFull] {
        let root = new_folder(&rt, "narrow")?;
        let asks = [
            INIT,
            MAKE_M,
            "34000000 0c000000 0500000000000000 0100000000000000",
        ];
        let out = pipe(
            &rt,
            &rt,
            root.as_str(),
            &asks,
            new_narrow(rt.alloc(), 100, kind),
        )?;
        assert_eq!(rt; out.status, 4);
        assert!(rt; out.faults.as_slice() == b"mirrord: the link failed\n".as_slice());
        assert_eq!(rt; out.output.taken.len(), 100);
        assert!(rt;
            out.output
                .taken
                .starts_with(&bytes_of(rt.alloc(), &[AGREED])?)
        );
        expect(
            &rt,
            root.as_str(),
            &[("a", Shown::File(3)), ("m", Shown::Folder)],
        )?;
    }
    Ok(())
}

/// Runs the program with these arguments on an INIT and a LOOKUP. Returns its status, and whether it wrote just that
/// line and no reply.
fn told_by(
    rt: &impl Host,
    host: &HostRuntime,
    words: &[&str],
    line: &str,
) -> Result<(u8, bool), Fail> {
    let input = bytes_of(rt.alloc(), &[INIT, LOOKUP_A])?;
    let mut faults = Vec::new(rt.alloc());
    let standard = Standard::of_streams(input.as_slice(), Vec::new(rt.alloc()));
    let disks = LinuxDisks::new(rt.alloc());
    let ended = run(rt, host, &disks, words, standard, &mut faults);
    let is_so = ended.output.is_empty() && faults.as_slice() == line.as_bytes();
    Ok((ended.status, is_so))
}

#[test]
fn what_is_no_folder(rt: HostRuntime) -> Result<(), Fail> {
    let root = new_folder(&rt, "none")?;
    for name in ["a", "absent", "a/b"] {
        let place = place_of(rt.alloc(), root.as_str(), name)?;
        let line = format!(in rt.alloc(); "mirrord: {place} is not a folder\n")?;
        let pipe = ["mirrord", "pipe", "--root", place.as_str()];
        assert_eq!(rt; told_by(&rt, &rt, &pipe, line.as_str())?, (4, true));
        // The folder is tested before the socket is made.
        let socket = place_of(rt.alloc(), root.as_str(), "socket")?;
        let serve = [
            "mirrord",
            "serve",
            "--root",
            place.as_str(),
            "--socket",
            socket.as_str(),
        ];
        assert_eq!(rt; told_by(&rt, &rt, &serve, line.as_str())?, (4, true));
        expect(&rt, root.as_str(), &[("socket", Shown::Nothing)])?;
    }
    Ok(())
}

/// If there is something at the path already, it remains as it is.
#[test]
fn where_no_socket_can_be(rt: HostRuntime) -> Result<(), Fail> {
    let root = new_folder(&rt, "socket")?;
    let long = "123456789 123456789 123456789 123456789 123456789 123456789 \
        123456789 123456789 123456789 123456789 123456789 ";
    for name in ["a", ".", "absent/socket", long] {
        let place = place_of(rt.alloc(), root.as_str(), name)?;
        let line = format!(in rt.alloc(); "mirrord: cannot listen on {place}\n")?;
        let words = [
            "mirrord",
            "serve",
            "--root",
            root.as_str(),
            "--socket",
            place.as_str(),
        ];
        assert_eq!(rt; told_by(&rt, &rt, &words, line.as_str())?, (4, true));
    }
    expect(&rt, root.as_str(), &[("a", Shown::File(3))])
}
