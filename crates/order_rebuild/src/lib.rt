//! The order in which calls are printed, rebuilt from the versions of the locks that they used.
//!
//! A call comes before another if both used a lock and it found the lower version, or the same one if it only read
//! and the other wrote, and if the same caller made it earlier.
//!
//! A list that stands in its order already, as one worker leaves it, is seen in one look at each use (`standing`).
//!
//! Other lists as a table gives them, in which each lock is written from version 0 on without a gap and a caller's items
//! stand side by side, are put in order by how many read each version (`readers`, `tallied`, `lanes`): of each lock it is
//! known which version it has by what is placed, and how many readers of it are left; so a caller's next item may come if
//! each of its uses found the version that its lock has, and no reader is left if it wrote. That takes time in
//! proportion to the uses, and to the items times the callers. The rest go a longer way: each item stands in a line for
//! each lock that it used and in one of its caller (`turn`); the lines are sorted once (`lines`), and the items are placed
//! while the lines go on (`ready`, `placing`), in the time of that sort.
#![tactic(auto)]

ghost use Rattle.std.specs.Prelude.{map, IfOk, ℕ, ◌≡◌, ◌<◌, slice_index, vec_len};
ghost use Rattle.order_rebuild.specs.Legal.{ArrangedIsOrderable, OrderIsLegal};
ghost use Rattle.order_rebuild.specs.Order.{IsOrder, Orderable, OneOrder};

use crate::placing::sorted_order;
use crate::standing::standing_order;
use crate::tallied::{counted_order, tallied_order};
use history_model::{Placed, Shape};
use io_ends::OutOfMemory;
pub use readers::Readers;
use std::alloc::Global;

mod lanes;
mod lines;
mod placing;
mod readers;
mod ready;
mod standing;
mod tallied;
mod turn;

/// The places of the items in the order in which they may be printed: again and again, of the items that may come, the
/// one of the least caller. Of a list that cannot be put in order it says nothing.
pub fn order_of<P: Placed>(alloc: Global, done: &[P]) -> Result<Vec<usize>, OutOfMemory>
    ensures { Orderable (map P.spot done.now)
        → IfOk result (λ out. IsOrder (map P.spot done.now) out.items) }
{
    if let Some(out) = standing_order(alloc, done) {
        return Ok(out);
    }
    if let Some(out) = counted_order(alloc, done) {
        return Ok(out);
    }
    sorted_order(alloc, done)
}

/// The order of a list whose readers were counted as it was made, quicker than by `order_of` if they are those of its
/// items: for any counts it is the same order.
pub fn order_counted<P: Placed>(
    alloc: Global,
    done: &[P],
    readers: &Readers,
) -> Result<Vec<usize>, OutOfMemory>
    ensures { Orderable (map P.spot done.now)
        → IfOk result (λ out. IsOrder (map P.spot done.now) out.items) }
{
    if let Some(out) = standing_order(alloc, done) {
        return Ok(out);
    }
    if let Some(out) = tallied_order(alloc, done, readers) {
        return Ok(out);
    }
    order_of(alloc, done)
}

/// A list has one order alone, if no two items have the same caller and index.
pub fn one_order()
    ensures { OneOrder }
{}

/// The entries down the order of their calls are legal, and leave the newest values.
pub fn order_is_legal<S: Shape>()
    ensures { (shape : _) → OrderIsLegal (S.good shape) }
{}

/// The calls of a history that has an arrangement are orderable.
pub fn arranged_is_orderable()
    ensures { ArrangedIsOrderable }
{}
