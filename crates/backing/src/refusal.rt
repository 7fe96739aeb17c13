//! Why a call on a memory tree did not do its work.

ghost use Rattle.std.specs.Prelude.{◌≡◌};

use errno::ENOMEM;
use std::alloc::{AllocError, AllocFailed};

/// Why a call did not do its work.
#[derive(Clone, Copy)]
pub enum Refusal {
    /// One of its tests failed, with this error number.
    Errno(i32),
    /// Memory was refused.
    Memory,
}

impl Refusal {
    ghost use Rattle.backing.specs.Refusals.{refusal_errno};

    /// The error number of the refusal.
    pub fn errno(self) -> i32
        ensures { result ≡ refusal_errno self }
    {
        match self {
            Refusal::Errno(errno) => errno,
            Refusal::Memory => ENOMEM,
        }
    }
}

impl From<i32> for Refusal {
    ghost use Rattle.backing.specs.declared.refusal.Refusal.TheVariants as Refusal;

    ghost from_gives = { λ errno refusal. refusal ≡ Refusal.Errno errno };

    fn from(errno: i32) -> Refusal {
        Refusal::Errno(errno)
    }
}

impl From<AllocError> for Refusal {
    ghost use Rattle.backing.specs.declared.refusal.Refusal.TheVariants as Refusal;

    ghost from_gives = { λ _ refusal. refusal ≡ Refusal.Memory };

    fn from(_: AllocError) -> Refusal {
        Refusal::Memory
    }
}

impl<T: Drop> From<AllocFailed<T>> for Refusal {
    ghost use Rattle.backing.specs.declared.refusal.Refusal.TheVariants as Refusal;

    ghost from_gives = { λ _ refusal. refusal ≡ Refusal.Memory };

    fn from(_: AllocFailed<T>) -> Refusal {
        Refusal::Memory
    }
}
