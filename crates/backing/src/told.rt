//! The result of a call.

ghost use Rattle.std.specs.Prelude.{◌≡◌, true};
ghost use Rattle.backing.specs.Device.{counted, one_if};
ghost use Rattle.backing.specs.declared.call.Answer.TheVariants as Answer;

use crate::call::Answer;

/// A call's answer, and whether the device failed.
#[derive(Drop)]
pub struct Told {
    pub answer: Answer,
    pub failed: bool,
}

impl Told {
    /// A failure with that error number.
    pub fn failure(errno: i32) -> Told
        ensures { result ≡ record { answer = Answer.Fault errno; failed = true } }
    {
        Told {
            answer: Answer::Fault(errno),
            failed: true,
        }
    }

    /// The answer. A failure of the device is added to the count.
    pub fn into_answer(self, failures: &mut u64) -> Answer
        ensures answer { result ≡ self.answer }
        ensures count { failures.new ≡ counted failures.old (one_if self.failed) }
    {
        count(failures, self.failed);
        self.answer
    }
}

/// Counts one more failure if the device failed. The count stays at its maximum.
pub fn count(failures: &mut u64, failed: bool)
    ensures { failures.new ≡ counted failures.old (one_if failed) }
{
    if failed {
        *failures = failures.saturating_add(1);
    }
}
