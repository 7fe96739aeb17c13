//! What is proved about the rules of a session. A law is a function that does nothing.

ghost use Rattle.engine.specs.Unserved.{AreUnservedRefused};

/// A request whose opcode the session does not serve is answered ENOSYS, whatever its body.
pub fn unserved_are_refused()
    ensures { AreUnservedRefused }
{}
