//! What a session on threads is served with.

use backing::Calls;
use engine::{LinkIn, LinkOut};

/// Both directions of the connection to a client, and a directory for each worker. The directories should show one tree.
#[derive(Drop)]
pub struct Given<I: LinkIn + Drop, O: LinkOut + Drop, C: Calls + Drop> {
    pub link_in: I,
    pub link_out: O,
    pub calls: Vec<C>,
}
