//! The jobs that the reader puts into the queue.

ghost use Rattle.std.specs.Prelude.{◌≡◌, ◌≤◌, length};
ghost use Rattle.byteorder.specs.Endian.{little_number};
ghost use Rattle.wire.specs.Requests.{IsFramed, opcode_in};
ghost use Rattle.wire.specs.declared.request.TheConstants.{HEADER_LEN, MAX_FRAME_LEN};
ghost use Rattle.engine.specs.Classes as classes;

use engine::{Class, ClassedFrame};
use wire::Frame;

/// A whole frame with its number, whether a version was agreed on before it, and how it is handled.
#[derive(Drop)]
pub struct Job {
    pub ordinal: u64,
    pub agreed: bool,
    pub class: Class,
    pub frame: Frame,
    pub ghost long: { HEADER_LEN ≤ length frame.items },
    pub ghost short: { length frame.items ≤ MAX_FRAME_LEN },
    pub ghost len: { little_number 4 frame.items ≡ length frame.items },
    pub ghost classed: { class ≡ classes.class agreed (opcode_in frame.items) },
}

impl Job {
    /// The job of a frame, which is classified here, once for the reader and for the worker.
    pub(crate) fn new(ordinal: u64, agreed: bool, frame: Frame) -> Job
        requires { IsFramed frame.items }
        ensures { (result.ordinal ≡ ordinal) × (result.agreed ≡ agreed) × (result.frame ≡ frame) }
    {
        let class = ClassedFrame::of(agreed, frame.as_slice()).class;
        Job {
            ordinal,
            agreed,
            class,
            frame,
        }
    }

    /// The memory of its frame, for another.
    pub(crate) fn into_buffer(self) -> Vec<u8> {
        let Job {
            ordinal: _,
            agreed: _,
            class: _,
            frame,
        } = self;
        frame
    }

    /// Its frame, and how it is handled.
    pub(crate) fn classed_frame(&self) -> ClassedFrame<'_>
        ensures class { result.class ≡ classes.class self.now.agreed (opcode_in self.now.frame.items) }
        ensures frame { result.frame.now ≡ self.now.frame.items }
    {
        ClassedFrame {
            class: self.class,
            frame: self.frame.as_slice(),
        }
    }
}
