//! The limits of a shift, in steps.
ghost use Rattle.std.specs.Prelude.{◌≡◌, ◌≤◌};
ghost use Rattle.us_bound.specs.declared.steps.TheConstants.{MOST_GRID};
ghost use Rattle.rest_bound.specs.Runs.{AreLimits};
ghost use Rattle.rest_bound.specs.Table.{AreSmall};
ghost use Rattle.us_bound.specs.Projection.{limits_of};

use crate::steps::steps_of;
use duty_core::{
    US_DRIVING_LIMIT, US_FULL_REST, US_SPLIT_LEAST, US_UNBROKEN_LIMIT, US_WINDOW_LIMIT,
};
use rest_bound::Limits;

/// The limits of a shift in steps of `grid` minutes. Where there is no berth, rest may not be split.
pub fn shift_limits(berth: bool, grid: u32) -> Limits
    requires some { 1 ≤ grid }
    requires few { grid ≤ MOST_GRID }
    ensures limits { result ≡ limits_of berth grid }
{
    let full_rest = steps_of(grid, US_FULL_REST);
    Limits {
        driving: steps_of(grid, US_DRIVING_LIMIT),
        elapsed: steps_of(grid, US_WINDOW_LIMIT),
        full_rest,
        split_least: if berth {
            steps_of(grid, US_SPLIT_LEAST)
        } else {
            full_rest
        },
        split_most: if berth {
            full_rest.saturating_sub(1)
        } else {
            0
        },
        unbroken: steps_of(grid, US_UNBROKEN_LIMIT),
    }
}
