//! What is proved about the steps for all wants. Each law is a function that does nothing.

ghost use Rattle.table_steps.specs.Laws.{AreActsOwn, AreOthersLeft, AreEntriesHarmless, AreSumsKept, AreSweepsHarmless, AreEndsHarmless, AreLedgersGrown, AreAnswersRecorded, AreBegunReady, AreTalliesFixed};

/// Whatever the outcome, a request changes no names except those that its footprint holds exclusively.
pub fn acts_are_own()
    ensures { AreActsOwn }
{}

/// A change of names without conflicts does not affect what other requests rely on.
pub fn others_are_left()
    ensures { AreOthersLeft }
{}

/// Entries and births do not affect what other requests rely on.
pub fn entries_are_harmless()
    ensures { AreEntriesHarmless }
{}

/// Nor does dropping nodes that nothing keeps alive.
pub fn sweeps_are_harmless()
    ensures { AreSweepsHarmless }
{}

/// Nor does the end of another request's work.
pub fn ends_are_harmless()
    ensures { AreEndsHarmless }
{}

/// What a request's record says it gave and opened is what the end of its work returned.
pub fn answers_are_recorded()
    ensures { AreAnswersRecorded }
{}

/// A request that was begun has what it relies on.
pub fn begun_are_ready()
    ensures { AreBegunReady }
{}

/// The numbers to which the limits apply are determined by the rest of the table.
pub fn tallies_are_fixed()
    ensures { AreTalliesFixed }
{}

/// No request removes a posting.
pub fn ledgers_are_grown()
    ensures { AreLedgersGrown }
{}

/// The end of a period changes neither the counts, nor the births of each number, nor the totals of what was posted.
pub fn sums_are_kept()
    ensures { AreSumsKept }
{}
