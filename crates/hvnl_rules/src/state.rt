//! What the book remembers of a history, and how it goes on.
ghost use Rattle.std.specs.Prelude.{◌≡◌, ◌+◌, ◌<◌, Some, None, IfOk, OnOk, if◌then◌else◌, IsTrue};
ghost use Rattle.duty_core.specs.declared.limits.TheConstants.{MINUTE_LIMIT};
ghost use Rattle.hvnl_rules.specs.Nights.{minutes};
ghost use Rattle.hvnl_rules.specs.Machine.{IsHvnlState, root_state, duty_ok, duty_state, rest_state, hvnl_step};
ghost use Rattle.hvnl_rules.specs.Covers.{covers_state};
ghost use Rattle.hvnl_rules.specs.Numbers.{is_hvnl_state};

use crate::nights::NightLog;
use crate::{bounds, held};
use allowance::Allowances;
use duty_core::{AU_7D_REST, Activity, Minute, NoMemory, Params, is_rest, unit_of};
use std::alloc::Global;

/// What the book remembers of a history.
///
/// It is written as numbers in this order: how many limits there are, how many needs, how many open
/// periods of fourteen days, and the units of the run of rest in progress; then for each limit the
/// units and the duty that it leaves; for each need the units that it leaves and the rest that it
/// asks for; for each open period how many minutes ago it began; and for each night how many days
/// ago its date was. Each list keeps its order. There are at most 270 numbers, each below 1,000,000.
///
/// At a minute these are a state just where `is_hvnl_state` of the specifications says so: the
/// limits and needs are open ones, and the run has at most 96 units; no limit looks further ahead
/// than fourteen days, and at each width there are no more limits than starts can have left; each
/// need asks for the rest of a day or of a week, and there is at most one of either; each period
/// is open, began before the run in progress and at least seven hours and a quarter after the one
/// before; the nights stand in their order, none after today and none before fourteen days; and with
/// rest that goes on for good each period has its nights.
#[derive(Drop)]
pub struct HvnlState {
    /// What the next units may hold, by the counted periods.
    pub held: Allowances,
    /// What the periods of fourteen days know of their nights.
    pub nights: NightLog,
}

impl HvnlState {
    /// The state of an empty history: there was rest before.
    pub(crate) fn root(alloc: Global) -> Result<HvnlState, NoMemory>
        ensures { IfOk result (λ s. s ≡ root_state) }
    {
        Ok(HvnlState {
            held: held::rested(alloc)?,
            nights: NightLog::new(alloc),
        })
    }

    /// An equal state.
    pub(crate) fn copy(&self) -> Result<HvnlState, NoMemory>
        ensures { IfOk result (λ s. s ≡ self.now) }
    {
        Ok(HvnlState {
            held: self.held.copy()?,
            nights: self.nights.copy()?,
        })
    }

    /// One unit of this activity, which begins at this minute. False where it may not be; then the
    /// state is none of a history.
    pub(crate) fn go(&mut self, at: Minute, act: Activity) -> Result<bool, NoMemory>
        requires state { IsHvnlState self.old at }
        requires range { at + minutes 1 < MINUTE_LIMIT }
        ensures { IfOk result (λ done. hvnl_step self.old at act ≡ (if done then Some self.new else None)) }
    {
        let after = at + unit_of(Params::Hvnl {});
        if is_rest(act) {
            self.rest(at, after)?;
            return Ok(true);
        }
        self.work(at, after)
    }

    /// One rest unit.
    fn rest(&mut self, at: Minute, after: Minute) -> Result<(), NoMemory>
        requires state { IsHvnlState self.old at }
        requires after { after ≡ at + minutes 1 }
        ensures { OnOk result (self.new ≡ rest_state self.old at) }
    {
        held::rest(&mut self.held);
        let run = self.held.run();
        self.nights.rest(at, run)?;
        self.nights.keep_open(after);
        Ok(())
    }

    /// One duty unit.
    fn work(&mut self, at: Minute, after: Minute) -> Result<bool, NoMemory>
        requires state { IsHvnlState self.old at }
        requires after { after ≡ at + minutes 1 }
        ensures says { IfOk result (λ done. done ≡ duty_ok self.old at) }
        ensures done { IfOk result (λ done. IsTrue done → self.new ≡ duty_state self.old at) }
    {
        let run = self.held.run();
        if !held::work(&mut self.held)? {
            return Ok(false);
        }
        self.nights.work(at, run)?;
        if !self.nights.are_kept(after) {
            return Ok(false);
        }
        self.nights.keep_open(after);
        Ok(true)
    }

    /// Whether the state may stand for the other one at the minute `at`: it asks nothing that the
    /// other does not ask.
    pub(crate) fn covers(&self, other: &HvnlState, at: Minute) -> bool
        ensures { result ≡ covers_state self.now other.now at }
    {
        held::covers(&self.held, &other.held) && self.nights.covers(&other.nights, at)
    }

    /// Whether the state can be one of a history that ends at the minute `at`.
    pub(crate) fn is_state(&self, at: Minute) -> bool
        ensures { result ≡ is_hvnl_state self.now at }
    {
        let run = self.held.run();
        let _held = self.held.are_held();
        run <= AU_7D_REST && (bounds::are_few(&self.held) && self.nights.are_few(run, at))
    }
}
