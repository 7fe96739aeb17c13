//! The programs of the server, over any words, readers and writers.
#![tactic(auto)]

mod folders;
mod runs;
mod standard;
mod standing;
mod workers;
mod workers_device;
mod workers_socket;

pub use engine_streams::{Device, DeviceReplies, DeviceRequests};
pub use folders::{FolderServed, RunEnd, Serving, device_run, serve_run};
pub use mirrord_commands::{
    DEFAULT_POSTINGS, Failure, Fault, Options, OptionsRefusal, read_options, tell,
};
pub use mirrord_sessions::{
    Disks, HexLink, LinuxDisks, ProgramEnd, RECEIVED, Streams, TreeServed, hex_run, new_tree,
    pipe_run,
};
pub use runs::run;
pub use standard::Standard;
pub use workers_device::serve_device_by;
pub use workers_socket::serve_socket_by;
