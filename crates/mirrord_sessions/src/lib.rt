//! Sessions on one thread: with a table of their own, from a folder of any disk, over a stream or a Unix socket. Also
//! the programs over a reader and a writer, `pipe` and `hex`, and how each program ends.
#![tactic(auto)]

mod device;
mod disks;
mod ended;
mod folder;
mod hexadecimal;
mod hosting;
mod refused;
mod runs;
mod samples;
mod socket;
mod socket_file;
mod told_folder;
mod worker_folders;

pub use device::serve_device;
pub use disks::{Disks, LinuxDisks, not_opened, not_started};
pub use ended::{ProgramEnd, failure_after, failure_of, status_after, tell_any};
pub use folder::{
    FolderEnd, StreamEnd, Unserved, new_seed, new_seeds, open_folder, serve_folder, serve_opened,
};
pub use hexadecimal::HexLink;
pub use hosting::{Finished, serve_alone, serve_known};
pub use refused::{explain, refuse};
pub use runs::{Streams, TreeServed, hex_run, pipe_run, run_hex};
pub use samples::new_tree;
pub use socket::{RECEIVED, serve_socket};
pub use socket_file::{Connection, SocketFile};
pub use terms::{Bounds, Terms};
pub use worker_folders::{HostFolder, open_folders};
