//! What stands once, in digits.

ghost use Rattle.std.specs.Prelude.{◌≡◌};

use crate::counts::LAST_COUNT;
use crate::reading::GREATEST_READ_LIMIT;

/// The limit that a whole read may have, and the value at which counts stand still.
pub fn limits_in_digits()
    ensures read { GREATEST_READ_LIMIT ≡ 1_000_000_000 }
    ensures count { LAST_COUNT ≡ 18_446_744_073_709_551_615 }
{}
