//! A stream of bytes, cut into frames.

ghost use Rattle.std.specs.Prelude.{◌≡◌, ℕ, List, ◌+◌, ◌-◌, ◌≤◌, ◌↔◌, ◌++◌, [], length, drop, take, vec_len, OnOk, OnErr, IfOk, IfErr, IfSome, IfNone, Some, None, Err};
ghost use Rattle.wire.specs.NextFrame.{IsWhole};
ghost use Rattle.wire.specs.Stream.{HandsOut, BeginsBadly, IsPartial, Splits, StandsFirst};
ghost use Rattle.wire.specs.declared.cutter.CutFault.TheVariants.{Memory};

use crate::standing::{NextFrame, standing_in};
use crate::window::Window;
use std::alloc::{AllocError, Global};
use std::marker::Model;
use std::mem;

/// A whole frame.
pub type Frame = Vec<u8>;

/// Why no frame could be returned, or no bytes taken.
#[derive(Clone, Copy, Debug, PartialEq, Eq)]
pub enum CutFault {
    /// No frame has this length. From then on no frame is returned and no byte is taken.
    BadLength { len: u32 },
    /// An allocation failed. The cutter is unchanged.
    Memory,
}

impl From<AllocError> for CutFault {
    ghost from_gives = { λ _ e. e ≡ Memory };

    fn from(_e: AllocError) -> CutFault {
        CutFault::Memory
    }
}

/// Takes the bytes of a stream in pieces of any size, and returns its frames.
#[derive(Drop)]
pub struct Cutter {
    alloc: Global,
    /// The bytes that are not part of a frame returned so far.
    kept: Window,
    stopped: Option<u32>,
}

impl Model for Cutter {
    ghost use Rattle.wire.specs.Stream.{Cutting};

    ghost Value = { Cutting };

    ghost view = { λ c. record { kept = c.kept; stopped = c.stopped } };

    ghost use Rattle.wire.specs.Stream.{StoppedBy};

    ghost invariant = { λ c. StoppedBy c.kept c.stopped };
}

impl Cutter {
    pub fn new(alloc: Global) -> Self
        ensures { result ≡ record { kept = []; stopped = None } }
    {
        Cutter {
            alloc,
            kept: Window::new(alloc),
            stopped: None,
        }
    }

    /// How many bytes are not part of a frame returned so far.
    pub fn rest(&self) -> usize
        ensures { result ≡ length self.now.kept }
    {
        self.kept.len()
    }

    /// Takes the next piece. On error nothing changes.
    pub fn feed(&mut self, piece: &[u8]) -> Result<(), CutFault>
        ensures ok { OnOk result (self.new ≡ record self.old { kept = self.old.kept ++ piece.now }) }
        ensures err { OnErr result (self.new ≡ self.old) }
        ensures bad { (len : ℕ) → (result ≡ Err (CutFault.BadLength len)) ↔ (self.old.stopped ≡ Some len) }
    {
        if let Some(len) = self.stopped {
            return Err(CutFault::BadLength { len });
        }
        self.kept.push(piece)?;
        Ok(())
    }

    /// Takes `count` bytes of `room`, starting at `from`, as the next piece. If the bytes kept so far are fewer and fit
    /// before them, they are copied there and `room` gets another buffer, which is no shorter. On error nothing
    /// changes.
    pub fn feed_from(
        &mut self,
        room: &mut Vec<u8>,
        from: usize,
        count: usize,
    ) -> Result<(), CutFault>
        requires within { from + count ≤ vec_len room.old }
        ensures ok { OnOk result (self.new ≡ record self.old { kept = self.old.kept ++ take count (drop from room.old.items) }) }
        ensures err { OnErr result ((self.new ≡ self.old) × (room.new.items ≡ room.old.items)) }
        ensures bad { (len : ℕ) → (result ≡ Err (CutFault.BadLength len)) ↔ (self.old.stopped ≡ Some len) }
        ensures room { vec_len room.old ≤ vec_len room.new }
    {
        if let Some(len) = self.stopped {
            return Err(CutFault::BadLength { len });
        }
        self.kept.take_from(room, from, count)?;
        Ok(())
    }

    /// The next whole frame, if there is one. It is not removed.
    pub fn peek(&self) -> Result<Option<&[u8]>, CutFault>
        ensures frame { IfOk result (λ o. IfSome o (λ f. StandsFirst self.now f.now)) }
        ensures none { IfOk result (λ o. IfNone o (IsPartial self.now.kept)) }
        ensures bad { IfErr result (λ fault. (len : ℕ) × (fault ≡ CutFault.BadLength len) × BeginsBadly self.now.kept len) }
    {
        if let Some(len) = self.stopped {
            return Err(CutFault::BadLength { len });
        }
        let kept = self.kept.as_slice();
        match standing_in(kept) {
            NextFrame::Partial => Ok(None),
            NextFrame::Bad(len) => Err(CutFault::BadLength { len }),
            NextFrame::Whole(len) => Ok(Some(&kept[..len])),
        }
    }

    /// Removes the first frame, which has length `len`.
    pub fn skip(&mut self, len: usize)
        requires within { len ≤ length self.old.kept }
        requires going { self.old.stopped ≡ None }
        ensures { self.new ≡ record self.old { kept = drop len self.old.kept } }
    {
        self.kept.skip(len);
    }

    /// Removes the next whole frame, if there is one, and returns a copy of it. The program calls `next_in`; this is for who has no buffer.
    pub fn next(&mut self) -> Result<Option<Frame>, CutFault>
        ensures frame { IfOk result (λ o. IfSome o (λ f. HandsOut self.old f.items self.new)) }
        ensures none { IfOk result (λ o. IfNone o (IsPartial self.old.kept × (self.new ≡ self.old))) }
        ensures bad { (len : ℕ) → (result ≡ Err (CutFault.BadLength len)) ↔ BeginsBadly self.old.kept len }
        ensures for_good { (len : ℕ) → result ≡ Err (CutFault.BadLength len) → self.new ≡ record self.old { stopped = Some len } }
        ensures memory { result ≡ Err CutFault.Memory → self.new ≡ self.old }

        // Memory is allocated only if there is a whole frame.
        ensures asked { result ≡ Err CutFault.Memory → (len : ℕ) × IsWhole self.old.kept len }
    {
        let mut buffer = Vec::new(self.alloc);
        self.next_in(&mut buffer)
    }

    /// Does the same with the memory of this buffer: the copy takes the place of what stands in it, and where a frame is returned a
    /// buffer without memory takes its own.
    pub fn next_in(&mut self, buffer: &mut Vec<u8>) -> Result<Option<Frame>, CutFault>
        ensures frame { IfOk result (λ o. IfSome o (λ f. HandsOut self.old f.items self.new)) }
        ensures none { IfOk result (λ o. IfNone o (IsPartial self.old.kept × (self.new ≡ self.old))) }
        ensures bad { (len : ℕ) → (result ≡ Err (CutFault.BadLength len)) ↔ BeginsBadly self.old.kept len }
        ensures for_good { (len : ℕ) → result ≡ Err (CutFault.BadLength len) → self.new ≡ record self.old { stopped = Some len } }
        ensures memory { result ≡ Err CutFault.Memory → self.new ≡ self.old }

        // Memory is allocated only if there is a whole frame.
        ensures asked { result ≡ Err CutFault.Memory → (len : ℕ) × IsWhole self.old.kept len }
    {
        if let Some(len) = self.stopped {
            return Err(CutFault::BadLength { len });
        }
        match standing_in(self.kept.as_slice()) {
            NextFrame::Partial => Ok(None),
            NextFrame::Bad(len) => {
                self.stopped = Some(len);
                Err(CutFault::BadLength { len })
            }
            NextFrame::Whole(len) => {
                buffer.clear();
                buffer.extend_from_slice(&self.kept.as_slice()[..len])?;
                self.kept.skip(len);
                Ok(Some(mem::replace(buffer, Vec::new(self.alloc))))
            }
        }
    }
}

/// A stream splits into frames and a rest in one way only, so it makes no difference in which pieces it came.
pub fn one_split()
    ensures { (frames others : List (List ℕ)) (rest end stream : List ℕ) →
        Splits stream frames rest → Splits stream others end → (frames ≡ others) × (rest ≡ end) }
{}
