//! Roads by hand, at steps of an hour: eleven hours of driving in a shift of fourteen, a full rest of
//! ten, split rests of two at least, and a break after eight.
ghost use Rattle.std.specs.Prelude.{◌<◌, ◌≤◌, true, nat_lt, nat_le, if◌then◌else◌};
ghost use Rattle.rest_bound.specs.declared.limits.TheConstants.{STEP_LIMIT};
ghost use Rattle.rest_bound.specs.Runs.{AreLimits};
ghost use Rattle.rest_bound.specs.Table.{AreSmall};

use crate::counts::Counts;
use crate::least_end::bound;
use crate::limits::{Limits, STEP_LIMIT};
use crate::table::make_table;
use crate::tour::Tour;
use duty_core::NoMemory;
use std::alloc::Global;
use std::process::Abort;
use std::test::Fail;

/// So many pieces of driving, and then duty without driving. From the piece `gate` on no piece may be
/// done before the step `opens`. The driver may idle anywhere.
#[derive(Clone, Copy)]
struct Road {
    driving: usize,
    gate: usize,
    opens: u32,
}

impl Tour for Road {
    ghost plan = { λ r. record { drives = λ p. nat_lt p r.driving; opens = λ p k. if nat_lt p r.gate then true else nat_le r.opens k; idles = λ p. true } };

    fn drives(&self, piece: usize) -> bool {
        piece < self.driving
    }

    fn idles(&self, _piece: usize) -> bool {
        true
    }

    fn next_open(&self, piece: usize, from: u32) -> Option<u32> {
        if piece < self.gate {
            return Some(from);
        }
        Some(from.max(self.opens))
    }
}

/// All that is asked is asked up to this step.
const HORIZON: u32 = 150;

const WITH_BERTH: Limits = Limits {
    driving: 11,
    elapsed: 14,
    full_rest: 10,
    split_least: 2,
    split_most: 9,
    unbroken: 8,
};

const NO_BERTH: Limits = Limits {
    driving: 11,
    elapsed: 14,
    full_rest: 10,
    split_least: 10,
    split_most: 0,
    unbroken: 8,
};

/// Just after a full rest.
const FRESH: Counts = Counts {
    driving: 0,
    elapsed: 0,
    driven: 0,
    since: 0,
    run: 0,
    waiting: None,
    streak: 0,
};

/// After eleven hours of driving, the last three of them in a row.
const SPENT: Counts = Counts {
    driving: 11,
    elapsed: 12,
    driven: 11,
    since: 12,
    run: 0,
    waiting: None,
    streak: 3,
};

/// Driving that may be done at any time.
fn open_road(driving: usize) -> Road {
    Road {
        driving,
        gate: driving,
        opens: 0,
    }
}

/// The bound for a road of so many pieces from these counts at this step, with nothing done yet.
fn end_of(
    alloc: Global,
    road: &Road,
    limits: Limits,
    pieces: usize,
    step: u32,
    counts: Counts,
) -> Result<Option<u32>, NoMemory>
    requires small { AreSmall limits }
    requires limits { AreLimits limits }
    requires pieces { pieces < STEP_LIMIT }
    requires shorter { counts.since ≤ counts.elapsed }
    requires fewer { counts.driven ≤ counts.driving }
{
    let table = make_table(alloc, road, limits, pieces, HORIZON)?;
    Ok(bound(&table, road, 0, step, counts))
}

/// Asserts the bounds for a road, one row each: the pieces, the step and the counts that are asked of,
/// and the bound.
fn assert_ends(
    rt: &impl Abort,
    alloc: Global,
    road: Road,
    limits: Limits,
    rows: &[(usize, u32, Counts, Option<u32>)],
) -> Result<(), Fail>
    requires small { AreSmall limits }
    requires limits { AreLimits limits }
{
    for (pieces, step, counts, wanted) in rows {
        let (pieces, step, counts) = (*pieces, *step, *counts);
        assert!(rt; pieces < STEP_LIMIT as usize);
        assert!(rt; counts.since <= counts.elapsed && counts.driven <= counts.driving);
        let end = end_of(alloc, &road, limits, pieces, step, counts)?;
        assert_eq!(rt; end, *wanted, "{pieces} from {step} after {counts:?}");
    }
    Ok(())
}

#[test]
fn one_piece_takes_a_step(rt: HostRuntime) -> Result<(), Fail> {
    let rows = [
        (1, 5, FRESH, Some(6)),
        (0, 5, FRESH, Some(5)),
        (1, 149, FRESH, Some(150)),
        (1, 150, FRESH, None),
        (0, 150, FRESH, Some(150)),
        (0, 151, FRESH, None),
    ];
    assert_ends(&rt, rt.alloc(), open_road(1), NO_BERTH, &rows)
}

/// Eleven hours of driving on each side of ten hours of rest, each with a break of one: 34. Where
/// rest may be split, the first break is one of the ten: 33.
#[test]
fn twenty_two_hours_of_driving(rt: HostRuntime) -> Result<(), Fail> {
    let no_break = Limits {
        unbroken: 22,
        ..NO_BERTH
    };
    let drive = open_road(22);
    let all = |end| { (22, 0, FRESH, Some(end)) };
    assert_ends(&rt, rt.alloc(), drive, NO_BERTH, &[all(34)])?;
    assert_ends(&rt, rt.alloc(), drive, WITH_BERTH, &[all(33)])?;
    assert_ends(&rt, rt.alloc(), drive, no_break, &[all(32)])
}

/// One more hour of driving needs ten of rest before it. Other duty needs none.
#[test]
fn spent_driving_needs_a_full_rest(rt: HostRuntime) -> Result<(), Fail> {
    let rested = [(1, 100, SPENT, Some(111))];
    assert_ends(&rt, rt.alloc(), open_road(1), NO_BERTH, &rested)?;
    assert_ends(&rt, rt.alloc(), open_road(1), WITH_BERTH, &rested)?;
    let at_once = [(1, 100, SPENT, Some(101))];
    assert_ends(&rt, rt.alloc(), open_road(0), NO_BERTH, &at_once)
}

/// Nine hours of rest want one more; ten are a full rest.
#[test]
fn a_run_in_progress_becomes_full(rt: HostRuntime) -> Result<(), Fail> {
    let nine = Counts {
        elapsed: 21,
        since: 21,
        run: 9,
        streak: 0,
        ..SPENT
    };
    let ten = Counts {
        elapsed: 22,
        since: 22,
        run: 10,
        ..nine
    };
    let rows = [(1, 100, nine, Some(102)), (1, 100, ten, Some(101))];
    assert_ends(&rt, rt.alloc(), open_road(1), NO_BERTH, &rows)?;
    assert_ends(&rt, rt.alloc(), open_road(1), WITH_BERTH, &rows[..1])
}

/// A split rest of seven hours waits. Since the base eleven hours were driven, and three since the
/// split rest: a rest of three hours makes a full one with it. Where all eleven were driven since the
/// split rest, that helps nothing, and ten hours of rest are needed.
#[test]
fn a_split_rest_waits(rt: HostRuntime) -> Result<(), Fail> {
    let later = Counts {
        waiting: Some(7),
        ..SPENT
    };
    let waits = Counts {
        driven: 3,
        since: 3,
        ..later
    };
    let rows = [(1, 100, waits, Some(104)), (1, 100, later, Some(111))];
    assert_ends(&rt, rt.alloc(), open_road(1), WITH_BERTH, &rows)
}

/// Two hours of driving, and duty that may begin at ten.
#[test]
fn a_window_opens_later(rt: HostRuntime) -> Result<(), Fail> {
    let road = Road {
        driving: 2,
        gate: 2,
        opens: 10,
    };
    let rows = [(3, 0, FRESH, Some(11)), (3, 20, FRESH, Some(23))];
    assert_ends(&rt, rt.alloc(), road, NO_BERTH, &rows)?;
    let never = Road { opens: 150, ..road };
    assert_ends(&rt, rt.alloc(), never, NO_BERTH, &[(3, 0, FRESH, None)])
}

/// Driving that may begin four hours on, one hour before the shift's fourteen are over: a split rest
/// until then does not count. Where rest may not be split, a full one comes first.
#[test]
fn a_split_rest_does_not_count(rt: HostRuntime) -> Result<(), Fail> {
    let road = Road {
        driving: 1,
        gate: 0,
        opens: 104,
    };
    let late = Counts {
        driving: 5,
        elapsed: 13,
        driven: 5,
        since: 13,
        ..FRESH
    };
    let at = |end| { (1, 100, late, Some(end)) };
    assert_ends(&rt, rt.alloc(), road, WITH_BERTH, &[at(105)])?;
    assert_ends(&rt, rt.alloc(), road, NO_BERTH, &[at(111)])
}

/// After eight hours of driving in a row a step of anything else comes before more of it.
#[test]
fn a_break_is_due(rt: HostRuntime) -> Result<(), Fail> {
    let eight = Counts {
        driving: 8,
        elapsed: 8,
        driven: 8,
        since: 8,
        streak: 8,
        ..FRESH
    };
    let seven = Counts { streak: 7, ..eight };
    let driven = [
        (2, 100, eight, Some(103)),
        (2, 100, seven, Some(103)),
        (1, 100, seven, Some(101)),
    ];
    assert_ends(&rt, rt.alloc(), open_road(2), NO_BERTH, &driven)?;
    let served = [(1, 100, eight, Some(101))];
    assert_ends(&rt, rt.alloc(), open_road(0), NO_BERTH, &served)
}
