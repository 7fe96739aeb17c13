//! An open file, and what its handle may be used for.

ghost use Rattle.std.specs.Prelude.{◌≡◌};
ghost use Rattle.table_files.specs.Handles.{allows};

/// What a file is opened for.
#[derive(Clone, Copy, Debug, PartialEq, Eq)]
pub enum Access {
    Reading,
    Writing,
    Both,
}

/// What a handle is used for.
#[derive(Clone, Copy, Debug, PartialEq, Eq)]
pub enum Need {
    Reading,
    Writing,
    /// Anything that any access allows.
    Any,
}

impl Access {
    /// Whether a handle with this access may be used for that.
    pub fn allows(self, need: Need) -> bool
        ensures { result ≡ allows self need }
    {
        match need {
            Need::Any => true,
            Need::Reading => matches!(self, Access::Reading | Access::Both),
            Need::Writing => matches!(self, Access::Writing | Access::Both),
        }
    }
}

/// A file that was opened and not yet closed.
#[derive(Clone, Copy, Debug, PartialEq, Eq)]
pub struct OpenFile {
    /// The number of its node.
    pub number: u64,
    /// The generation that its node had when it was opened.
    pub generation: u64,
    pub access: Access,
}
