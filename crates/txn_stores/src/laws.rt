//! What follows for any store, each law the contract of a function that does nothing.

ghost use Rattle.txn_stores.specs.Statements.{JobsAreJournal, JobsCounted};

/// If each caller's jobs were run once and in their order, what was run is a journal of the callers' scripts: each
/// stands there once, and those of a caller in rising index.
pub fn jobs_are_journal<S, A>()
    ensures { JobsAreJournal S A }
{}

/// If each script is a job, there are as many jobs as scripts.
pub fn jobs_counted<S>()
    ensures { JobsCounted S }
{}
