//! What an insert's answer says of room.

ghost use Rattle.std.specs.Prelude.{◌≡◌};
ghost use Rattle.txn_books.specs.Inner.Rooms.{had_room};

use txn_alloc::Put;

/// Whether a block was there for what was put in, if it needed one.
pub(crate) fn has_room(put: Put) -> bool
    ensures { result ≡ had_room put }
{
    !matches!(put, Put::Full)
}
