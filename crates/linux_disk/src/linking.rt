//! Links, which are read and made and never followed, and further names of what stands at one.

ghost use Rattle.std.specs.Prelude.{IfOk, OnOk};
ghost use Rattle.disk.specs.Names.{IsLawfulName, IsLinkText};
ghost use Rattle.linux_disk.specs.Held.{held_value};
ghost use Rattle.linux_disk.specs.Below.{Reaches, WasLinked, WasMadeLink, WasReadLink};

use crate::calls::SystemCalls;
use crate::handle::Handle;
use crate::linux::Linux;
use crate::page::Page;
use crate::store::FileStore;
use disk::DiskError;
use errno::{EIO, ENOMEM};
use paths::Name;

/// One byte more than the text of a link has at most.
const TARGET_ROOM: usize = 4_096;

impl<C: SystemCalls + Drop, S: FileStore<Fd = C::Fd> + Drop> Linux<C, S> {
    /// The text of the link at the name: `readlink`. Of one that fills the buffer there may be more, and no system has such a link (EIO, own).
    pub(crate) fn link_text(
        &self,
        page: &mut Page,
        dir: &Handle<C>,
        name: &Name,
    ) -> Result<Vec<u8>, DiskError>
        requires { IsLawfulName name.now }
        ensures { IfOk result (λ target. WasReadLink C.did C.guards (C.number (held_value dir.now.held)) dir.now.below name.now target.items) }
    {
        let Ok(mut target) = vec![in self.alloc; 0u8; TARGET_ROOM] else {
            return Err(DiskError::Failed(ENOMEM));
        };
        self.reach(page, dir, name)?;
        let n = self.calls.read_link(dir.fd(), page, &mut target)?;
        if n < TARGET_ROOM {
            target.truncate(n);
            Ok(target)
        } else {
            Err(DiskError::Failed(EIO))
        }
    }

    /// Makes a link with that text: `symlink`.
    pub(crate) fn make_link_at(
        &self,
        page: &mut Page,
        dir: &Handle<C>,
        name: &Name,
        text: &[u8],
    ) -> Result<(), DiskError>
        requires name { IsLawfulName name.now }
        requires text { IsLinkText text.now }
        ensures { OnOk result (WasMadeLink C.did C.guards (C.number (held_value dir.now.held)) dir.now.below name.now text.now) }
    {
        self.reach(page, dir, name)?;
        self.calls.make_link(dir.fd(), page, text)
    }

    /// Gives what stands at the name a further one: `link`.
    pub(crate) fn link_name(
        &self,
        pages: (&mut Page, &mut Page),
        from_dir: &Handle<C>,
        from: &Name,
        to_dir: &Handle<C>,
        to: &Name,
    ) -> Result<(), DiskError>
        requires from { IsLawfulName from.now }
        requires to { IsLawfulName to.now }
        ensures { OnOk result (WasLinked C.did (Reaches C.guards (C.number (held_value from_dir.now.held)) from_dir.now.below from.now) (Reaches C.guards (C.number (held_value to_dir.now.held)) to_dir.now.below to.now)) }
    {
        let (old, new) = pages;
        self.reach(old, from_dir, from)?;
        self.reach(new, to_dir, to)?;
        self.calls.link(from_dir.fd(), old, to_dir.fd(), new)
    }
}
