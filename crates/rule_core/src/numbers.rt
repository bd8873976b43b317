//! The numbers by which a state is written down.
use duty_core::TryVec;

/// The greatest count of numbers that a state has.
pub const MOST_NUMBERS: u32 = 270;

/// The number that each number of a state is below.
pub const NUMBER_LIMIT: u32 = 1_000_000;

/// Numbers, in an order. Contracts see their list.
pub type Numbers = TryVec<u32>;
