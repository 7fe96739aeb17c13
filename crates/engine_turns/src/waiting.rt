//! What no session comes to: whoever comes to it waits forever, since there is nothing right to return.

ghost use Rattle.std.specs.Prelude.{IsTrue};

use std::sync::Wait;

/// Does not return unless that is so.
pub fn wait_unless<H: Wait>(rt: &H, is_so: bool)
    ensures { IsTrue is_so }
{
    if is_so {
        return;
    }
    for _ in rt.forever() {}
    unreachable!()
}
