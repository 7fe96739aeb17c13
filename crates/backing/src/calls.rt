//! A directory, as far as its callers know about it.

ghost use Rattle.std.specs.Prelude.{◌≡◌, ℕ, Option};
ghost use Rattle.backing.specs.declared.call.Answer.{Answer};

use crate::call::{Answer, Call};

/// A directory that counts the failures of its device.
pub trait Calls {
    ghost use Rattle.backing.specs.Calls.{Asked, asked};
    ghost use Rattle.backing.specs.Device.{Counts};

    /// Which answers a call may have, and which state the directory may be in afterwards.
    ghost gives: { Self → Asked → Answer → Self → Type 0 };

    /// How many of its calls have failed. The count has 64 bits, and stays at the maximum.
    ghost faults: { Self → ℕ };

    /// Makes one call.
    fn call(&mut self, call: Call<'_>) -> Answer
        ensures { gives self.old (asked call.entry) result self.new };

    /// Offers a buffer that is no longer needed: a later read may use its memory, and leave another buffer in its
    /// place.
    fn offer_room(&mut self, _buffer: &mut Vec<u8>)
        ensures { self.new ≡ self.old }
    {}

    /// A failure gives a fault and increases the count by one. Nothing else changes the count.
    ghost counts: { (old new : Self) (call : Asked) (answer : Answer) → gives old call answer new → Counts (faults old) answer (faults new) };
}

/// A directory whose tree contracts know.
pub trait KnownTree: Calls {
    ghost use Rattle.backing.specs.Calls.{Asked};
    ghost use Rattle.backing.specs.Tree.{Tree, IsTree};
    ghost use Rattle.backing.specs.Device.{Counted};

    ghost tree: { Self → Tree };

    /// How many bytes a file may have, where the directory itself has such a limit.
    ghost limit: { Option ℕ };

    /// Each call is one on the tree, or on a device that fails and counts the failure.
    ghost known: { (old new : Self) (call : Asked) (answer : Answer) → Self.gives old call answer new → Counted limit (tree old) (Self.faults old) call answer (tree new) (Self.faults new) };

    /// Before and after each call the root is a folder, and the parent of each other path is a folder of the tree.
    ghost stands: { (old new : Self) (call : Asked) (answer : Answer) → Self.gives old call answer new → IsTree (tree old) × IsTree (tree new) };
}
