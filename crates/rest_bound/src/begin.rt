//! The first step at which a piece may be begun.
ghost use Rattle.std.specs.Prelude.{◌≡◌, ◌+◌, ◌-◌, ◌*◌, ◌<◌, ◌≤◌, true, false};
ghost use Rattle.rest_bound.specs.declared.limits.TheConstants.{STEP_LIMIT};
ghost use Rattle.rest_bound.specs.Ends.{IsInTime};
ghost use Rattle.rest_bound.specs.Table.{IsSmallMode, IsFirst, IsBegin};

use crate::mode::Mode;
use crate::terms::Terms;
use crate::tour::Tour;
use crate::walk::Walk;

/// Whether driving at this step ends in time, perhaps with a split rest before it, which does not
/// count.
fn in_time(mode: Mode, step: u32, latest: u32, idle: u32) -> bool
    requires mode { IsSmallMode mode }
    requires step { step < STEP_LIMIT }
    requires latest { latest < 3 * STEP_LIMIT }
    ensures yes { result ≡ true → IsInTime mode step latest idle }
    ensures no { result ≡ false → IsInTime mode step latest idle → ⊥ }
{
    let split = idle.min(mode.split_most);
    step < latest || mode.split_least <= split && step < latest + split
}

/// The first step before the horizon at which the piece may be begun, not before `first`. Where it
/// is driving that would end too late, and the idle steps are too few for a split rest, that is the
/// first one after enough of them.
fn begin_from<T: Tour>(terms: &Terms<'_, T>, piece: usize, walk: Walk, first: u32) -> Option<u32>
    requires mode { IsSmallMode terms.now.mode }
    requires horizon { terms.now.table.now.horizon < STEP_LIMIT }
    requires latest { walk.latest < 3 * STEP_LIMIT }
    requires first { walk.at ≤ first }
    requires idle { walk.idle < 3 * STEP_LIMIT }
    ensures { IsFirst (T.plan terms.now.tour.now) terms.now.mode piece walk first terms.now.table.now.horizon result }
{
    let mode = terms.mode;
    let begin = terms.next_open(piece, first)?;
    if !terms.tour.drives(piece) {
        return Some(begin);
    }
    if walk.left == 0 {
        return None;
    }
    let idle = walk.idle + (begin - walk.at);
    if in_time(mode, begin, walk.latest, idle) {
        return Some(begin);
    }
    if idle >= mode.split_least {
        return None;
    }
    let late = terms.next_open(piece, begin + (mode.split_least - idle))?;
    if in_time(mode, late, walk.latest, walk.idle + (late - walk.at)) {
        Some(late)
    } else {
        None
    }
}

/// The first step before the horizon at which the piece may be begun, which is a step later than the
/// walk has come where a break is due before driving.
pub(crate) fn begin_of<T: Tour>(terms: &Terms<'_, T>, piece: usize, walk: Walk) -> Option<u32>
    requires mode { IsSmallMode terms.now.mode }
    requires horizon { terms.now.table.now.horizon < STEP_LIMIT }
    requires at { walk.at ≤ STEP_LIMIT }
    requires latest { walk.latest < 3 * STEP_LIMIT }
    requires idle { walk.idle < 3 * STEP_LIMIT }
    ensures { IsBegin (T.plan terms.now.tour.now) terms.now.mode piece walk terms.now.table.now.horizon result }
{
    if terms.tour.drives(piece) && walk.streak >= terms.mode.unbroken {
        return begin_from(terms, piece, walk, walk.at + 1);
    }
    begin_from(terms, piece, walk, walk.at)
}
