//! The limits of a tour. Each stands here once, for code and definitions alike.
use duty_core::{CA_CYCLE_2, Minute, US_LONG_WEEK, US_SHORT_WEEK};

/// The fewest days of a United States weekly limit.
pub const FEWEST_DAYS: u32 = US_SHORT_WEEK;

/// The most days of a United States weekly limit.
pub const MOST_DAYS: u32 = US_LONG_WEEK;

/// The greatest number of a Canadian cycle. The first is 1.
pub const MOST_CYCLE: u32 = CA_CYCLE_2;

/// The lengths of a step that a tour of the United States or Canada may have, in minutes.
pub const GRIDS: [u32; 4] = [1, 5, 15, 30];

/// The lengths of a step that a tour of Australia may have, in minutes.
pub const HVNL_GRIDS: [u32; 2] = [15, 30];

/// The first civil minute at which a tour may start: 2001-01-01T00:00.
pub const EARLIEST_START: Minute = 527_040;

/// The last civil minute at which a tour may start: 2098-12-31T23:59.
pub const LATEST_START: Minute = 52_070_399;

/// The fewest stops of a tour.
pub const FEWEST_STOPS: u32 = 1;

/// The most stops of a tour.
pub const MOST_STOPS: u32 = 64;

/// The most bytes of a stop's name. It has at least one.
pub const LONGEST_NAME: u32 = 60;

/// The most driving to a stop, in minutes: a week.
pub const MOST_DRIVE: u32 = 10_080;

/// The longest service at a stop, in minutes: a day.
pub const MOST_SERVICE: u32 = 1_440;

/// The most windows of a stop.
pub const MOST_WINDOWS: u32 = 8;

/// The last minute at which a service may end, counted from the start of the tour: two weeks.
pub const LONGEST_TOUR: u32 = 20_160;

/// The step that no question about a tour reaches, counted from its start.
pub const STEP_LIMIT: u32 = 1_000_000;
