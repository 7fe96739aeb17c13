//! Wants whose names are still in the frame of their request.

ghost use Rattle.std.specs.Prelude.{◌≡◌, IfOk, OnErr};

use paths::Name;
use std::alloc::{AllocError, Global};
use table_files::Access;
use table_requests::{Handle, Want};

/// What a request begins with. Its names are slices of the request's frame.
#[derive(Clone, Copy, Debug, PartialEq, Eq)]
pub enum Wanted<'a> {
    /// A node, and the handle of the open file through which it is used, if any.
    Node {
        number: u64,
        handle: Option<Handle>,
    },
    /// A name under a parent.
    Name {
        parent: u64,
        name: &'a [u8],
    },
    /// A name to be removed, whatever is there.
    Remove {
        parent: u64,
        name: &'a [u8],
        /// Whether an open file may be hidden instead.
        may_hide: bool,
    },
    /// A name to be moved to another, whatever is at either.
    Move {
        parent: u64,
        name: &'a [u8],
        new_parent: u64,
        new_name: &'a [u8],
        /// Whether what is at the target is kept.
        keep: bool,
    },
    /// Two names to be exchanged, whatever is at either.
    Exchange {
        parent: u64,
        name: &'a [u8],
        new_parent: u64,
        new_name: &'a [u8],
    },
    /// A further name for a node.
    Link {
        number: u64,
        parent: u64,
        name: &'a [u8],
    },
    /// A file to be opened.
    Open {
        number: u64,
        access: Access,
    },
    /// An open file of a node, to be closed.
    Release {
        number: u64,
        fh: u64,
    },
    /// A file to be created and opened.
    Create {
        parent: u64,
        name: &'a [u8],
        access: Access,
    },
}

impl<'a> Wanted<'a> {
    ghost use Rattle.ops.specs.Intents.{want_of, HasName};

    /// The same want with names of its own, as the table keeps it. Without names it does not allocate.
    pub fn own(self, alloc: Global) -> Result<Want, AllocError>
        ensures ok { IfOk result (λ want. want ≡ want_of self.entry) }
        ensures err { OnErr result (HasName self.entry) }
    {
        match self {
            Wanted::Node { number, handle } => Ok(Want::Node { number, handle }),
            Wanted::Open { number, access } => Ok(Want::Open { number, access }),
            Wanted::Release { number, fh } => Ok(Want::Release { number, fh }),
            Wanted::Create { .. }
            | Wanted::Name { .. }
            | Wanted::Link { .. }
            | Wanted::Remove { .. }
            | Wanted::Move { .. }
            | Wanted::Exchange { .. } => self.own_names(alloc),
        }
    }

    /// The same of a want with names.
    // In a caller its locals would be set up whichever way that one goes.
    #[inline(never)]
    fn own_names(self, alloc: Global) -> Result<Want, AllocError>
        requires { HasName self }
        ensures { IfOk result (λ want. want ≡ want_of self.entry) }
    {
        match self {
            Wanted::Node { .. } | Wanted::Open { .. } | Wanted::Release { .. } => unreachable!(),
            Wanted::Create {
                parent,
                name,
                access,
            } => {
                let name = Name::copy_of(alloc, name)?;
                Ok(Want::Create {
                    parent,
                    name,
                    access,
                })
            }
            Wanted::Name { parent, name } => {
                let name = Name::copy_of(alloc, name)?;
                Ok(Want::Name { parent, name })
            }
            Wanted::Link {
                number,
                parent,
                name,
            } => {
                let name = Name::copy_of(alloc, name)?;
                Ok(Want::Link {
                    number,
                    parent,
                    name,
                })
            }
            Wanted::Remove {
                parent,
                name,
                may_hide,
            } => {
                let name = Name::copy_of(alloc, name)?;
                Ok(Want::Remove {
                    parent,
                    name,
                    may_hide,
                })
            }
            Wanted::Move {
                parent,
                name,
                new_parent,
                new_name,
                keep,
            } => {
                let name = Name::copy_of(alloc, name)?;
                let new_name = Name::copy_of(alloc, new_name)?;
                Ok(Want::Move {
                    parent,
                    name,
                    new_parent,
                    new_name,
                    keep,
                })
            }
            Wanted::Exchange {
                parent,
                name,
                new_parent,
                new_name,
            } => {
                let name = Name::copy_of(alloc, name)?;
                let new_name = Name::copy_of(alloc, new_name)?;
                Ok(Want::Exchange {
                    parent,
                    name,
                    new_parent,
                    new_name,
                })
            }
        }
    }
}
