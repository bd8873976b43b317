//! Minutes as steps.
ghost use Rattle.std.specs.Prelude.{◌≡◌, ◌≤◌};
ghost use Rattle.duty_core.specs.declared.limits.TheConstants.{COUNT_LIMIT};
ghost use Rattle.us_bound.specs.Projection.{up};
ghost use Rattle.us_bound.specs.declared.steps.TheConstants.{MOST_GRID};

/// The greatest number of minutes that a step of a tour has.
pub const MOST_GRID: u32 = 30;

/// So many minutes in steps of `grid` minutes, rounded up.
pub(crate) fn steps_of(grid: u32, minutes: u32) -> u32
    requires some { 1 ≤ grid }
    requires few { grid ≤ MOST_GRID }
    requires minutes { minutes ≤ COUNT_LIMIT }
    ensures steps { result ≡ up grid minutes }
    ensures range { result ≤ COUNT_LIMIT }
{
    (minutes + (grid - 1)) / grid
}
