//! Serving a folder of the system over the kernel's FUSE device with several threads.

ghost use Rattle.std.specs.Prelude.{vec_len};
ghost use Rattle.mirrord_programs.specs.Workers.{ServesDeviceBy, ServesDeviceWith};

use crate::workers::serve_workers;
use backing::Calls;
use engine::SessionEnd;
use engine_streams::{Device, DeviceLink, NoDevice, ReadRequest, WriteReply};
use mirrord_sessions::{Terms, Unserved, new_seeds, open_folders};
use std::random::RandomSource;
use std::sync::Wait;
use std::thread::Threads;
use table::Seeds;

/// Serves the kernel over a device from which nothing was read yet, with one thread for each folder.
fn serve_opened<
    H: Threads + Wait + AllocGlobal + Clone + Send + Sync + Drop + 'static,
    C: Calls + Send + Drop + 'static,
    R: ReadRequest + Send + Drop + 'static,
    W: WriteReply + Send + Drop + 'static,
>(
    rt: &H,
    folders: Vec<C>,
    seeds: Seeds,
    terms: Terms,
    device: Device<R, W>,
) -> Result<SessionEnd, Unserved>
    ensures { ServesDeviceWith C.gives R.gives W.takes terms (vec_len folders) folders.items device.requests device.replies result }
{
    let Device { requests, replies } = device;
    let Ok(link_in) = DeviceLink::new(rt.alloc(), requests, NoDevice) else {
        return Err(Unserved::Memory);
    };
    let Ok(link_out) = DeviceLink::new(rt.alloc(), NoDevice, replies) else {
        return Err(Unserved::Memory);
    };
    Ok(serve_workers(rt, folders, seeds, terms, link_in, link_out))
}

/// The same with seeds of its own.
fn serve_seeded<
    H: Threads + Wait + RandomSource + AllocGlobal + Clone + Send + Sync + Drop + 'static,
    C: Calls + Send + Drop + 'static,
    R: ReadRequest + Send + Drop + 'static,
    W: WriteReply + Send + Drop + 'static,
>(rt: &H, folders: Vec<C>, terms: Terms, device: Device<R, W>) -> Result<SessionEnd, Unserved>
    ensures { ServesDeviceWith C.gives R.gives W.takes terms (vec_len folders) folders.items device.requests device.replies result }
{
    let seeds = new_seeds(rt)?;
    serve_opened(rt, folders, seeds, terms, device)
}

/// Serves the folder at `root` as `serve_device` does, but with that many threads, from 1 to 4. Each of them reads,
/// works on requests or writes replies, whichever is due, and has a folder of its own on the same root.
pub fn serve_device_by<
    H: Threads + Wait + RandomSource + AllocGlobal + Clone + Send + Sync + Drop + 'static,
    R: ReadRequest + Send + Drop + 'static,
    W: WriteReply + Send + Drop + 'static,
>(
    rt: &H,
    root: &str,
    workers: u8,
    terms: Terms,
    device: Device<R, W>,
) -> Result<SessionEnd, Unserved>
    ensures { ServesDeviceBy R.gives W.takes terms workers device.requests device.replies result }
{
    let folders = open_folders(rt, root, terms.settings, workers)?;
    serve_seeded(rt, folders, terms, device)
}
