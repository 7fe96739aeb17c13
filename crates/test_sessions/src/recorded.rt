//! The traffic of a link, in order.

use crate::frames::{INIT, LOOKUP_A};
use crate::sampled::{bytes_of, serve_samples};
use std::test::Fail;
use test_support::Client;

/// Two requests and the beginning of a third are received at once: the two are answered before the rest of the third is
/// received.
const RECORD: &[&str] = &[
    "[INFO  link] 118 bytes are heard",
    "[INFO  link] 80 bytes are offered",
    "[INFO  link] 144 bytes are offered",
    "[INFO  link] 23 bytes are heard",
    "[INFO  link] 16 bytes are offered",
    "[INFO  link] the end is heard",
];

/// The first 20 bytes of a LOOKUP of `zz`, unique 7, and the rest of it.
const BEGINNING: &str = "2b000000 01000000 0700000000000000 01000000";

const REST: &str = "00000000 00000000 00000000 00000000 00000000 7a7a00";

#[test]
fn no_reply_waits_for_later_bytes(rt: HostRuntime) -> Result<(), Fail> {
    let alloc = rt.alloc();
    let mut first = bytes_of(alloc, INIT)?;
    first.extend_from_slice(&bytes_of(alloc, LOOKUP_A)?)?;
    first.extend_from_slice(&bytes_of(alloc, BEGINNING)?)?;
    let mut pieces = Vec::new(alloc);
    pieces.push(first)?;
    pieces.push(bytes_of(alloc, REST)?)?;
    let mut client = Client::new(alloc, pieces, 0);
    serve_samples(&rt, alloc, None, &mut client)?;
    let record = client.into_record();
    assert_eq!(rt; record.len(), RECORD.len());
    for (line, wanted) in record.as_slice().iter().zip(RECORD) {
        assert_eq!(rt; line.as_str(), *wanted);
    }
    Ok(())
}
