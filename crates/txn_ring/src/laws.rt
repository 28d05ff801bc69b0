//! What a collection beside a ring concludes, each law the contract of a function that does nothing.

ghost use Rattle.txn_ring.specs.Statements.{OneQueue, QueueStands};

/// In one word list the queue is one list of items.
pub fn one_queue()
    ensures { OneQueue }
{}

/// A ring whose own words stay what they are holds the same items.
pub fn queue_stands()
    ensures { QueueStands }
{}
