//! What spreads the keys of a map.

ghost use Rattle.std.specs.Prelude.{◌≡◌};
ghost use Rattle.txn_alloc.specs.Spread.{spread_of};

/// What a key is multiplied by: 2^64 by the golden ratio, to the nearest odd number.
pub const MULTIPLIER: u64 = 0x9E37_79B9_7F4A_7C15;

/// A number of 64 bits made of the key, so that keys near one another have numbers far apart: the key's product
/// with `MULTIPLIER`, without what is above 64 bits (Knuth, The Art of Computer Programming, volume 3, 1973, section 6.4).
pub fn spread(key: u64) -> u64
    ensures { result ≡ spread_of key }
{
    key.wrapping_mul(MULTIPLIER)
}
