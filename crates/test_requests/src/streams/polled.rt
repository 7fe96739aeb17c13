//! Reads of a socket that poll before they block: whichever they do, the bytes that were sent come, in order.

use engine_streams::Polling;
use std::io;
use std::io::{ErrorKind, Read, Write};
use std::os::unix::net::UnixStream;
use std::test::Fail;
use std::time::Duration;

/// More reads than block at once after one that polled in vain.
const READS: u8 = 40;

/// Sends one byte after another, and reads each before the next one is sent. Returns whether each came alone.
fn exchange(sender: &UnixStream, reader: &mut Polling) -> io::Result<bool> {
    let mut sender = sender;
    for byte in 0..READS {
        sender.write_all(&[byte])?;
        let mut room = [0; 3];
        if reader.read(&mut room)? != 1 || room[0] != byte {
            return Ok(false);
        }
    }
    Ok(true)
}

#[test]
fn bytes_come_where_they_are_asked_and_where_they_are_waited_for(
    rt: HostRuntime,
) -> Result<(), Fail> {
    let (sender, heard) = UnixStream::pair(&rt)?;
    heard.set_read_timeout(Some(Duration::from_millis(1)))?;
    let mut reader = Polling::new(heard);
    assert!(rt; exchange(&sender, &mut reader)?);
    let mut room = [0; 3];
    match reader.read(&mut room) {
        Ok(_) => assert!(rt; false),
        Err(error) => assert!(rt; error.kind() == ErrorKind::WouldBlock),
    }
    assert!(rt; exchange(&sender, &mut reader)?);
    drop(sender);
    assert_eq!(rt; reader.read(&mut room)?, 0);
    Ok(())
}
