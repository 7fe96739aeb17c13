//! What the frame of a job means for the session, found out before it is handled.

ghost use Rattle.std.specs.Prelude.{◌≡◌, IsTrue, IsFalse};
ghost use Rattle.engine.specs.Reference.{negotiated_by};
ghost use Rattle.engine_turns.specs.Verdicts.{greeted, EndsSession, IsVerdict};

use crate::job::Job;
use engine::{Class, agrees, negotiated_by};
use terms::Names;
use wire::{Operation, decode};

/// Whether a version is agreed on by an operation, or was before.
fn greeted(operation: Operation<'_>, before: bool) -> bool
    ensures { result ≡ greeted (negotiated_by operation.entry) before }
{
    match negotiated_by(operation) {
        Some(answer) => agrees(answer, before),
        None => before,
    }
}

impl Job {
    /// Whether a version is agreed on after its frame. An INIT has no names, so it is the same in any session.
    pub(crate) fn agrees_after(&self) -> bool
        ensures { IsVerdict self.now.agreed self.now.frame.items result }
    {
        match self.class {
            Class::InitFrame => match decode(self.frame.as_slice(), Names::Bytes) {
                Ok(request) => greeted(request.operation, self.agreed),
                Err(_fault) => self.agreed,
            },
            Class::Ignored | Class::Unexpected | Class::DestroyFrame | Class::Asking => self.agreed,
        }
    }

    /// Whether the client ends the session with its frame.
    pub(crate) fn ends_session(&self) -> bool
        ensures yes { IsTrue result → EndsSession self.now.agreed self.now.frame.items }
        ensures no { IsFalse result → EndsSession self.now.agreed self.now.frame.items → ⊥ }
    {
        match self.class {
            Class::DestroyFrame => decode(self.frame.as_slice(), Names::Bytes).is_ok(),
            Class::Ignored | Class::Unexpected | Class::InitFrame | Class::Asking => false,
        }
    }
}
