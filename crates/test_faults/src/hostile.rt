//! Frames that no well-behaved client sends, and the replies to them, byte for byte.

use ledger::Posting;
use terms::Kinds;

/// A frame.
#[derive(Clone, Copy)]
pub enum Frame {
    /// In hexadecimal digits.
    Whole(&'static str),
    /// The beginning in hexadecimal digits, a byte, how often it is repeated, and the end in hexadecimal digits.
    Filled(&'static str, u8, usize, &'static str),
}

/// A session over the sample tree.
#[derive(Clone, Copy)]
pub struct Row {
    /// Names the row if it fails.
    pub says: &'static str,
    /// Which kinds of files are shown.
    pub kinds: Kinds,
    /// What is sent after INIT.
    pub frames: &'static [Frame],
    /// What is replied after the reply to INIT, in hexadecimal digits.
    pub replies: &'static [&'static str],
    /// The ledger at the end.
    pub ledger: &'static [Posting],
}
