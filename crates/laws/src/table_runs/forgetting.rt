//! What is proved about runs, for any table. The law is a function that does nothing.

ghost use Rattle.laws.specs.Forgetting.{AreForgottenGone};

/// If all lookups of a node are forgotten and nothing else keeps it alive, no later request on it begins.
pub fn forgotten_are_gone()
    ensures { AreForgottenGone }
{}
