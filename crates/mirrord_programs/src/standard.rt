//! The files that are open when a program starts.

ghost use Rattle.std.specs.Prelude.{◌≡◌, None};

use engine_streams::{Device, NoDevice, ReadRequest, WriteReply};
use std::io::{BufRead, Write};

/// The files that are open when a program starts, except standard error.
#[derive(Drop)]
pub struct Standard<
    I: BufRead + Drop,
    O: Write + Drop,
    R: ReadRequest + Drop,
    W: WriteReply + Drop,
> {
    pub input: I,
    pub output: O,
    /// The kernel's device, if it is open as standard input.
    pub device: Option<Device<R, W>>,
}

impl<I: BufRead + Drop, O: Write + Drop> Standard<I, O, NoDevice, NoDevice> {
    /// Without a device.
    pub fn of_streams(input: I, output: O) -> Standard<I, O, NoDevice, NoDevice>
        ensures { (result.input ≡ input) × (result.output ≡ output) × (result.device ≡ None) }
    {
        Standard {
            input,
            output,
            device: None,
        }
    }
}
