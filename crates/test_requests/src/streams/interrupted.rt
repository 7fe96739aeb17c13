//! Readers whose reads a signal interrupts: nothing is lost, and the link goes on.

use engine::{LinkIn, Received};
use engine_streams::StreamLink;
use std::io;
use std::io::{ErrorKind, Read};
use std::test::Fail;

/// Gives its bytes one by one, and is interrupted that often before each.
#[derive(Drop)]
struct Interrupted<'a> {
    bytes: &'a [u8],
    /// How often before each byte.
    often: u8,
    /// How often before the next one.
    left: u8,
}

impl<'a> Read for Interrupted<'a> {
    fn read(&mut self, buf: &mut [u8]) -> io::Result<usize> {
        if self.left > 0 {
            self.left -= 1;
            return Err(io::Error::from(ErrorKind::Interrupted));
        }
        self.left = self.often;
        let Some((first, rest)) = self.bytes.split_first() else {
            return Ok(0);
        };
        let Some(room) = buf.first_mut() else {
            return Ok(0);
        };
        *room = *first;
        self.bytes = rest;
        Ok(1)
    }
}

#[test]
fn an_interrupted_reader_goes_on(rt: HostRuntime) -> Result<(), Fail> {
    for often in 0..3u8 {
        let reader = Interrupted {
            bytes: b"abc",
            often,
            left: often,
        };
        let mut link = StreamLink::new(rt.alloc(), reader, io::sink());
        let mut room = [0; 8];
        for byte in *b"abc" {
            if link.receive(&mut room) != Received::Bytes(1) || room[0] != byte {
                return Err(Fail::from(("a byte is lost", often, byte)));
            }
        }
        if link.receive(&mut room) != Received::End {
            return Err(Fail::from(("it does not end", often)));
        }
    }
    Ok(())
}
