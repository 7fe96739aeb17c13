//! The results of scripts.

ghost use Rattle.std.specs.Prelude.{◌≡◌};
ghost use Rattle.ops.specs.Ahead.{outcome_of, IsOfNoPage};

use crate::looks::Looked;
use backing::Children;
use payload::{Details, Kind, Payload};
use table::Outcome;

/// What was found at a path.
#[derive(Clone, Copy, Debug, PartialEq, Eq)]
pub struct FoundFile {
    pub kind: Kind,
    /// In bytes; 0 for a folder.
    pub size: u64,
    pub details: Details,
}

/// The result of a script, for the reply.
#[derive(Drop)]
pub enum ScriptResult {
    /// An error number, from 1 to 4,095.
    Error { errno: i32 },
    /// It was done, and the reply has no body.
    Nothing,
    /// An entry for this is to be given.
    NewEntry(FoundFile),
    /// A file was created: an entry for it is to be given, and it is to be opened.
    NewFile(FoundFile),
    /// The attributes to be returned.
    Attributes(FoundFile),
    /// There is a file, and it is to be opened.
    Opening,
    /// Bytes of a file, or the text of a link.
    Bytes(Payload),
    /// That many bytes were written.
    Written { size: u32 },
    /// The names of a folder. A listing is still to be made from them; if they are not lawful, that is an error, EIO
    /// (own).
    Listed(Children),
    /// What was found at each name of a page. Entries are to be given for those that exist.
    Looked(Looked),
    /// A file was moved to the candidate with this index, counted from 0.
    Hid { candidate: u8 },
    /// A file was moved to the candidate with this index, and then another to its place.
    Replaced { candidate: u8 },
    /// A file was moved to the candidate with this index, and then moving another to its place failed with this error
    /// number, from 1 to 4,095.
    Unmoved { candidate: u8, errno: i32 },
    /// A file that was closed could not be removed; the reply does not say so.
    Kept,
}

impl ScriptResult {
    /// The outcome for the table, given that a listing is lawful. For a page `Looked::into_parts` makes it.
    pub fn outcome(&self) -> Outcome
        requires { IsOfNoPage self.now }
        ensures { result ≡ outcome_of self.now }
    {
        match self {
            ScriptResult::Error { .. } | ScriptResult::Kept => Outcome::Failed,
            ScriptResult::Nothing
            | ScriptResult::Attributes(_)
            | ScriptResult::Opening
            | ScriptResult::Bytes(_)
            | ScriptResult::Written { .. }
            | ScriptResult::Listed(_) => Outcome::Done,
            ScriptResult::NewEntry(_) | ScriptResult::NewFile(_) => Outcome::Entry,
            ScriptResult::Hid { candidate } => Outcome::Hidden(*candidate),
            ScriptResult::Replaced { candidate } => Outcome::HiddenMove {
                candidate: *candidate,
                moved: true,
            },
            ScriptResult::Unmoved { candidate, .. } => Outcome::HiddenMove {
                candidate: *candidate,
                moved: false,
            },
            ScriptResult::Looked(_) => unreachable!(),
        }
    }
}
