//! Links over streams such as sockets and pipes, and over the kernel's FUSE device.
#![tactic(auto)]

mod asking;
mod device;
mod device_link;
mod fuse_device;
mod holding;
mod joining;
mod link;
mod polling;
mod writing;

pub use device::{Device, DeviceFault, NoDevice, ReadRequest, WriteReply};
pub use device_link::DeviceLink;
pub use fuse_device::{DeviceReplies, DeviceRequests};
pub use holding::Holding;
pub use link::StreamLink;
pub use polling::Polling;
pub use writing::write_flushed;
