//! Classifying frames by their opcodes.

ghost use Rattle.std.specs.Prelude.{◌≡◌};
ghost use Rattle.wire.specs.Requests.{IsFramed, opcode_in};
ghost use Rattle.engine.specs.Classes.{class};

use wire::{DESTROY, INIT, has_reply, header_of};

/// How a frame is handled.
#[derive(Clone, Copy, Debug, PartialEq, Eq)]
pub enum Class {
    /// It does nothing and gets no reply.
    Ignored,
    /// It is answered EIO, whatever its body.
    Unexpected,
    /// An INIT when no version is agreed on yet.
    InitFrame,
    /// A DESTROY when a version is agreed on.
    DestroyFrame,
    /// Any other request when a version is agreed on.
    Asking,
}

/// How a frame with that opcode is handled, depending on whether a version is agreed on.
pub fn class_of(agreed: bool, opcode: u32) -> Class
    ensures { result ≡ class agreed opcode }
{
    if opcode == INIT {
        return if agreed {
            Class::Unexpected
        } else {
            Class::InitFrame
        };
    }
    if agreed {
        return if opcode == DESTROY {
            Class::DestroyFrame
        } else {
            Class::Asking
        };
    }
    if has_reply(opcode) {
        Class::Unexpected
    } else {
        Class::Ignored
    }
}

/// A whole frame, and how it is handled.
#[derive(Clone, Copy)]
pub struct ClassedFrame<'f> {
    pub class: Class,
    pub frame: &'f [u8],
}

impl<'f> ClassedFrame<'f> {
    /// Classifies a frame by its opcode.
    pub fn of(agreed: bool, frame: &'f [u8]) -> ClassedFrame<'f>
        requires { IsFramed frame.now }
        ensures class { result.class ≡ class agreed (opcode_in frame.now) }
        ensures frame { result.frame.now ≡ frame.now }
    {
        let Some(header) = header_of(frame) else {
            unreachable!()
        };
        ClassedFrame {
            class: class_of(agreed, header.opcode),
            frame,
        }
    }
}
