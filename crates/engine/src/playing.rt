//! Making the calls of a script.

ghost use Rattle.ops.specs.Ahead.{end_of, plan_ahead};
ghost use Rattle.engine.specs.Playing.{Played};

use backing::Calls;
use ops::{Script, ScriptResult};

/// Makes the calls of a script, each once and in order.
pub fn play<C: Calls>(calls: &mut C, script: Script<'_>) -> ScriptResult
    ensures { Played C.gives calls.old (plan_ahead script.entry) calls.new (end_of result) }
{
    let mut script = script;
    while let Some(call) = script.next() {
        let answer = calls.call(call);
        script.feed(answer);
    }
    script.into_result()
}
