//! Serving a folder of a disk over the kernel's FUSE device with one thread.

ghost use Rattle.disk_folder.specs.Gives.{claims};
ghost use Rattle.mirrord_sessions.specs.Folders.{ServesDevice};

use crate::disks::Disks;
use crate::folder::{Unserved, open_seeded};
use crate::hosting::serve_alone;
use disk::Disk;
use engine::SessionEnd;
use engine_streams::{Device, DeviceLink, ReadRequest, WriteReply};
use std::random::RandomSource;
use std::sync::Wait;
use terms::Terms;

/// Serves the folder at `root` to the kernel over `device`, until it is unmounted.
pub fn serve_device<
    H: Wait + RandomSource + AllocGlobal,
    D: Disk + Drop,
    P: Disks<Disk = D>,
    R: ReadRequest + Drop,
    W: WriteReply + Drop,
>(rt: &H, disks: &P, root: &str, terms: Terms, device: Device<R, W>) -> Result<SessionEnd, Unserved>
    ensures { ServesDevice (claims D.honest D.tree D.has_set D.has_synced) R.gives W.takes terms device.requests device.replies result }
{
    let (folder, seeds) = open_seeded(rt, disks, root, terms.settings)?;
    let Device { requests, replies } = device;
    let Ok(mut link) = DeviceLink::new(rt.alloc(), requests, replies) else {
        return Err(Unserved::Memory);
    };
    let over = serve_alone(rt, rt.alloc(), seeds, folder, &mut link, terms);
    Ok(over.end)
}
