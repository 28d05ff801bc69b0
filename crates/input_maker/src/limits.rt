//! The range of seeds.

/// The greatest seed. The least is 0.
pub const GREATEST_SEED: u32 = 2_147_483_647;
