//! Where a history and its schedule stand in the padded history.
ghost use Rattle.std.specs.Prelude.{◌≡◌, ◌+◌, ◌≤◌, ◌↔◌, IsTrue, length};
ghost use Rattle.rule_readings.specs.Values.{IsIn, Meets};
ghost use Rattle.rule_readings.specs.Readings.{scope_of};

use crate::padded::padding_of;
use duty_core::{Minute, Params};
use timeline::Timeline;

/// The places from `from` up to `to`, without `to`.
#[derive(Clone, Copy, Debug, PartialEq, Eq)]
pub(crate) struct Span {
    pub from: u32,
    pub to: u32,
}

/// What readings look at: the history, which begins at the minute `first`, and the schedule, which
/// it ends with, as spans of the padded history.
#[derive(Clone, Copy, Debug, PartialEq, Eq)]
pub(crate) struct Scope {
    pub params: Params,
    pub first: Minute,
    pub history: Span,
    pub planned: Span,
}

/// Whether the place is one of the span.
pub(crate) fn is_in(span: Span, place: u32) -> bool
    ensures { IsTrue result ↔ IsIn span place }
{
    span.from <= place && place < span.to
}

/// Whether a place of the span lies from place `from` up to place `to`, without `to`.
pub(crate) fn meets(span: Span, from: u32, to: u32) -> bool
    ensures { IsTrue result ↔ Meets span from to }
{
    span.from.max(from) < span.to.min(to)
}

/// Where a history stands whose units from number `planned_from` on are the schedule.
pub(crate) fn scope_of(
    params: Params,
    history: &Timeline,
    first: Minute,
    planned_from: u32,
) -> Scope
    requires { planned_from ≤ length history.now }
    ensures { result ≡ scope_of params first history.now planned_from }
{
    let begins = padding_of(params);
    let ends = begins + history.len();
    Scope {
        params,
        first,
        history: Span {
            from: begins,
            to: ends,
        },
        planned: Span {
            from: begins + planned_from,
            to: ends,
        },
    }
}
