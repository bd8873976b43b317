//! A padded history with its marks.
ghost use Rattle.std.specs.Prelude.{◌≡◌, ◌≤◌};
ghost use Rattle.duty_core.specs.Day.{day_number};
ghost use Rattle.duty_core.specs.LostMinutes.{lost};
ghost use Rattle.rule_readings.specs.CaHistory.{IsByMinutes};
ghost use Rattle.rule_readings.specs.Lost.{AreLostCounts};
ghost use Rattle.rule_readings.specs.declared.ca_day.TheConstants.{DAY_LIMIT};
ghost use Rattle.rule_readings.specs.declared.padded.TheConstants.{LONGEST_PADDED};

use crate::lost::LostMinutes;
use crate::padded::Padded;
use crate::scope::Scope;
use duty_core::Marks;

/// A padded history with its lost minutes and its marks, and what of it is looked at.
#[derive(Clone, Copy)]
pub(crate) struct History<'a> {
    pub padded: &'a Padded,
    pub lost: &'a LostMinutes,
    pub marks: &'a Marks,
    pub scope: Scope,
}

impl<'a> History<'a> {
    /// The lost minutes of the day with this number.
    pub(crate) fn lost_in(&self, number: u32) -> u32
        requires counts { AreLostCounts self.now.padded.now self.now.lost.now }
        requires minutes { IsByMinutes self.now.scope.params self.now.scope.first }
        requires small { number ≤ DAY_LIMIT }
        ensures value { result ≡ lost (day_number self.now.scope.params self.now.scope.first) self.now.padded.now number }
        ensures bound { result ≤ LONGEST_PADDED }
    {
        let scope = self.scope;
        self.lost
            .in_day(self.padded, scope.params, scope.first, number)
    }
}
