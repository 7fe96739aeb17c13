//! A text as the calls of the C library take it.

ghost use Rattle.std.specs.Prelude.{◌≡◌, ◌≢◌, ◌<◌, ◌+◌, ◌++◌, ◌↔◌, [], All, IsTrue, OnOk, OnErr, slice_index_or};
ghost use Rattle.libc.specs.Io.{Ended};

use libc::PATH_MAX;
use std::marker::Model;

/// How long a text may be. The last byte of the page stays a NUL.
const ROOM: usize = PATH_MAX - 2;

/// A text with a NUL behind it. Contracts see the text.
#[derive(Drop)]
pub struct Page {
    bytes: [u8; PATH_MAX],
    len: usize,
}

impl Model for Page {
    ghost use Rattle.std.specs.Prelude.{ℕ, List, take};
    ghost use Rattle.linux_disk.specs.Pages.{IsPage};

    ghost Value = { List ℕ };

    ghost view = { λ p. take p.len p.bytes };

    ghost invariant = { λ p. IsPage p.bytes p.len };
}

impl Page {
    /// No text.
    pub fn new() -> Page
        ensures { result ≡ [] }
    {
        Page {
            bytes: [0; PATH_MAX],
            len: 0,
        }
    }

    /// The same text once more.
    pub fn copy(&self) -> Page
        ensures { result ≡ self.now }
    {
        Page {
            bytes: self.bytes,
            len: self.len,
        }
    }

    /// Takes the text away.
    pub fn clear(&mut self)
        ensures { self.new ≡ [] }
    {
        self.bytes[0] = 0;
        self.len = 0;
    }

    /// Adds that to the text, if there is room.
    pub fn push(&mut self, part: &[u8]) -> bool
        requires { All (λ byte. byte ≢ 0) part.now }
        ensures { IsTrue result → self.new ≡ self.old ++ part.now }
    {
        if part.len() > ROOM - self.len {
            return false;
        }
        let end = self.len + part.len();
        self.bytes[self.len..end].copy_from_slice(part);
        self.bytes[end] = 0;
        self.len = end;
        true
    }

    /// The text as it is handed to the system.
    pub fn c_string(&self) -> &[u8; PATH_MAX]
        ensures { Ended result.now }
    {
        &self.bytes
    }

    /// The text.
    pub fn text(&self) -> &[u8]
        ensures text { result.now ≡ self.now }
        ensures plain { All (λ byte. byte ≢ 0) result.now }
    {
        &self.bytes[..self.len]
    }
}
