//! The numbers of the years 2000 to 2099.

/// The number of minutes of the years 2000 to 2099.
pub const MINUTES_OF_CENTURY: u32 = 52_596_000;

/// The day number of 2000-01-01, where 1970-01-01 is 0.
pub(crate) const FIRST_EPOCH_DAY: i32 = 10_957;
