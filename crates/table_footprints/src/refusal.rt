//! Why a footprint is refused.

ghost use Rattle.std.specs.Prelude.{◌≡◌};
ghost use Rattle.table_footprints.specs.Gatherings.{refusal_errno, refusal_of};

use errno::{EINVAL, ENAMETOOLONG, ENOMEM, ENOTEMPTY, ESTALE};
use std::alloc::AllocError;
use tree::TreeFault;

/// Why a footprint is refused.
#[derive(Clone, Copy)]
pub(crate) enum FootprintRefusal {
    /// A node that it names is not alive, or is cut.
    Stale,
    /// A path is longer than 4,096 bytes.
    TooLong,
    /// A name would be moved below itself, or exchanged with one below it.
    IntoItself,
    /// A name would be moved onto a folder that contains it.
    OntoFolder,
    /// Memory was refused.
    Memory,
}

impl FootprintRefusal {
    /// The error number of the refusal.
    pub(crate) fn errno(self) -> i32
        ensures { result ≡ refusal_errno self }
    {
        match self {
            FootprintRefusal::Stale => ESTALE,
            FootprintRefusal::TooLong => ENAMETOOLONG,
            FootprintRefusal::IntoItself => EINVAL,
            FootprintRefusal::OntoFolder => ENOTEMPTY,
            FootprintRefusal::Memory => ENOMEM,
        }
    }
}

impl From<AllocError> for FootprintRefusal {
    ghost use Rattle.table_footprints.specs.declared.refusal.FootprintRefusal.{FootprintRefusal};

    ghost from_gives = { λ _ refusal. refusal ≡ FootprintRefusal.Memory };

    fn from(_error: AllocError) -> FootprintRefusal {
        FootprintRefusal::Memory
    }
}

impl From<TreeFault> for FootprintRefusal {
    ghost from_gives = { λ fault refusal. refusal ≡ refusal_of fault };

    fn from(fault: TreeFault) -> FootprintRefusal {
        match fault {
            TreeFault::Unknown | TreeFault::Cut => FootprintRefusal::Stale,
            TreeFault::PathLong => FootprintRefusal::TooLong,
            TreeFault::Full | TreeFault::Memory => FootprintRefusal::Memory,
        }
    }
}
