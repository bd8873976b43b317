//! A history as the rules see it: long rest before and after.
ghost use Rattle.std.specs.Prelude.{◌≡◌, ℕ, ◌+◌, ◌*◌, ◌≤◌, ◌++◌, length, replicate, IfOk, OnOk, OnErr};
ghost use Rattle.duty_core.specs.declared.activity.Activity.TheVariants.{Off};
ghost use Rattle.duty_core.specs.History.{pad_units, padded, unit_at};
ghost use Rattle.duty_core.specs.Counting.{driving, duty};
ghost use Rattle.timeline.specs.Kinds.{test_of};
ghost use Rattle.rule_readings.specs.Padded.{AreCounts, AreRestRuns};

use duty_core::{
    Activity, DAY_MINUTES, LONGEST_HISTORY, NoMemory, PADDING_DAYS, PADDING_MINUTES, Params,
    is_rest, unit_of,
};
use std::alloc::Global;
use std::marker::Model;
use timeline::{CountOf, Timeline};

/// The greatest length of a padded history, in units.
pub(crate) const LONGEST_PADDED: u32 = LONGEST_HISTORY + 2 * PADDING_MINUTES;

/// A rest run that has ended: the units from place `from` up to place `to`, without `to`.
#[derive(Clone, Copy, Debug, PartialEq, Eq)]
pub(crate) struct RestRun {
    pub from: u32,
    pub to: u32,
}

/// A history as the rules see it: long rest before and after. Its units, the driving and the duty
/// before each place, and the rest runs that have ended are at hand.
#[derive(Drop)]
pub(crate) struct Padded {
    units: Vec<Activity>,
    driven: Vec<u32>,
    worked: Vec<u32>,
    rests: Vec<RestRun>,
    len: u32,
}

impl Model for Padded {
    ghost use Rattle.std.specs.Prelude.{List};
    ghost use Rattle.duty_core.specs.declared.activity.Activity.{Activity};
    ghost use Rattle.rule_readings.specs.Padded.{IsKept};

    ghost Value = { List Activity };

    ghost view = { λ p. p.units.items };

    ghost invariant = { λ p. IsKept p.units.items p.driven.items p.worked.items p.rests.items p.len };
}

impl Padded {
    /// The history, padded. `NoMemory` if there is none for it.
    pub fn new(alloc: Global, params: Params, history: &Timeline) -> Result<Padded, NoMemory>
        ensures { IfOk result (λ p. p ≡ padded params history.now) }
    {
        let padding = padding_of(params);
        let mut units = Vec::new(alloc);
        push_rest(&mut units, padding)?;
        push_history(&mut units, history)?;
        push_rest(&mut units, padding)?;
        let len = 2 * padding + history.len();
        Ok(Padded {
            driven: counts(alloc, CountOf::Driving, &units)?,
            worked: counts(alloc, CountOf::Duty, &units)?,
            rests: rest_runs(alloc, &units)?,
            units,
            len,
        })
    }

    /// The number of units.
    pub fn len(&self) -> u32
        ensures value { result ≡ length self.now }
        ensures bound { result ≤ LONGEST_PADDED }
    {
        self.len
    }

    /// The unit at a place, and `Off` past the end.
    pub fn at(&self, place: u32) -> Activity
        ensures { result ≡ unit_at self.now place }
    {
        if place < self.len {
            self.units[place as usize]
        } else {
            Activity::Off
        }
    }

    /// The driving from place `from` up to place `to`, without `to`, in units.
    pub fn driving(&self, from: u32, to: u32) -> u32
        requires order { from ≤ to }
        requires inside { to ≤ length self.now }
        ensures { result ≡ driving self.now from to }
    {
        self.driven[to as usize] - self.driven[from as usize]
    }

    /// The duty from place `from` up to place `to`, without `to`, in units.
    pub fn duty(&self, from: u32, to: u32) -> u32
        requires order { from ≤ to }
        requires inside { to ≤ length self.now }
        ensures { result ≡ duty self.now from to }
    {
        self.worked[to as usize] - self.worked[from as usize]
    }

    /// The rest runs that have ended, each once, in order.
    pub fn rest_runs(&self) -> &[RestRun]
        ensures runs { AreRestRuns self.now result.now }
        ensures bound { length self.now ≤ LONGEST_PADDED }
    {
        &self.rests
    }
}

/// How much rest stands before and after a history of the book, in units.
pub(crate) fn padding_of(params: Params) -> u32
    ensures value { result ≡ pad_units params }
    ensures bound { 2 * result + LONGEST_HISTORY ≤ LONGEST_PADDED }
{
    PADDING_DAYS * (DAY_MINUTES / unit_of(params))
}

/// Puts so many units of rest after the others.
fn push_rest(units: &mut Vec<Activity>, count: u32) -> Result<(), NoMemory>
    ensures { OnOk result (units.new.items ≡ units.old.items ++ replicate count Off) }
{
    for _ in 0..count {
        units.push(Activity::Off)?;
    }
    Ok(())
}

/// Puts the units of the history after the others.
fn push_history(units: &mut Vec<Activity>, history: &Timeline) -> Result<(), NoMemory>
    ensures { OnOk result (units.new.items ≡ units.old.items ++ history.now) }
{
    for place in 0..history.len() {
        units.push(history.at(place))?;
    }
    Ok(())
}

/// For each place, and for the end, the number of units of the kind before it.
fn counts(alloc: Global, kind: CountOf, units: &[Activity]) -> Result<Vec<u32>, NoMemory>
    requires { length units.now ≤ LONGEST_PADDED }
    ensures { IfOk result (λ counts. AreCounts (test_of kind) units.now counts.items) }
{
    let mut counts = Vec::new(alloc);
    let mut total: u32 = 0;
    counts.push(total)?;
    for unit in units {
        if kind.has(*unit) {
            total += 1;
        }
        counts.push(total)?;
    }
    Ok(counts)
}

/// The rest runs that have ended, each once, in order.
fn rest_runs(alloc: Global, units: &[Activity]) -> Result<Vec<RestRun>, NoMemory>
    requires { length units.now ≤ LONGEST_PADDED }
    ensures { IfOk result (λ runs. AreRestRuns units.now runs.items) }
{
    let mut runs = Vec::new(alloc);
    let mut from: u32 = 0;
    let mut to: u32 = 0;
    for unit in units {
        if !is_rest(*unit) {
            if from < to {
                runs.push(RestRun { from, to })?;
            }
            from = to + 1;
        }
        to += 1;
    }
    Ok(runs)
}
