//! A history as its runs.
ghost use Rattle.std.specs.Prelude.{◌≡◌, ℕ, ◌+◌, ◌==◌, ◌<◌, ◌≤◌, ◌↔◌, List, [], ◌++◌, length, replicate, slice_index_or, count_by, OnOk, OnErr, IfOk, IsErrOf};
ghost use Rattle.duty_core.specs.History.{between};
ghost use Rattle.duty_core.specs.declared.activity.Activity.TheVariants.{Off};
ghost use Rattle.duty_core.specs.declared.limits.TheConstants.{LONGEST_HISTORY};
ghost use Rattle.timeline.specs.Runs.{AreRuns};
ghost use Rattle.timeline.specs.Kinds.{test_of};
ghost use Rattle.timeline.specs.declared.fault.TimelineFault.TheVariants.{TooLong};

use crate::fault::TimelineFault;
use crate::kind::CountOf;
use crate::run::Run;
use crate::runs;
use duty_core::{Activity, LONGEST_HISTORY, NoMemory};
use std::alloc::Global;
use std::marker::Model;

/// A history of at most `LONGEST_HISTORY` units, kept as its maximal runs.
#[derive(Drop)]
pub struct Timeline {
    runs: Vec<Run>,
    len: u32,
}

impl Model for Timeline {
    ghost use Rattle.std.specs.Prelude.{List};
    ghost use Rattle.duty_core.specs.declared.activity.Activity.{Activity};
    ghost use Rattle.timeline.specs.Runs.{spread, IsKept};

    ghost Value = { List Activity };

    ghost view = { λ timeline. spread timeline.runs.items };

    ghost invariant = { λ timeline. IsKept timeline.runs.items timeline.len };
}

impl Timeline {
    /// A history of no units.
    pub fn new(alloc: Global) -> Timeline
        ensures { result ≡ [] }
    {
        Timeline {
            runs: Vec::new(alloc),
            len: 0,
        }
    }

    /// Puts `n` units of the activity after the history.
    ///
    /// `TooLong` exactly where it would then be longer than `LONGEST_HISTORY`, and `Memory` where
    /// there is none for one more run. After either the history is as it was.
    pub fn push_run(&mut self, act: Activity, n: u32) -> Result<(), TimelineFault>
        ensures ok { OnOk result (self.new ≡ self.old ++ replicate n act) }
        ensures too_long { IsErrOf result TooLong ↔ (LONGEST_HISTORY < length self.old + n) }
        ensures err { OnErr result (self.new ≡ self.old) }
    {
        if n > LONGEST_HISTORY - self.len {
            return Err(TimelineFault::TooLong);
        }
        if n == 0 {
            return Ok(());
        }
        let end = self.len + n;
        runs::extend(&mut self.runs, act, self.len, end)?;
        self.len = end;
        Ok(())
    }

    /// The number of units.
    pub fn len(&self) -> u32
        ensures value { result ≡ length self.now }
        ensures bound { result ≤ LONGEST_HISTORY }
    {
        self.len
    }

    /// Whether there are no units.
    pub fn is_empty(&self) -> bool
        ensures { result ≡ (length self.now == 0) }
    {
        self.len == 0
    }

    /// The unit at place `k`.
    pub fn at(&self, k: u32) -> Activity
        requires { k < length self.now }
        ensures { slice_index_or self.now k Off ≡ result }
    {
        runs::unit_at(&self.runs, k)
    }

    /// The maximal runs, in order.
    pub fn runs(&self) -> &[Run]
        ensures { AreRuns result.now self.now }
    {
        &self.runs
    }

    /// The number of units of the kind from place `from` up to place `to`, without `to`.
    pub fn count(&self, kind: CountOf, from: u32, to: u32) -> u32
        requires order { from ≤ to }
        requires inside { to ≤ length self.now }
        ensures { result ≡ count_by (test_of kind) (between self.now from to) }
    {
        runs::count(&self.runs, kind, from, to)
    }

    /// An equal history. `NoMemory` if there is none for it.
    pub fn copy(&self) -> Result<Timeline, NoMemory>
        ensures { IfOk result (λ copy. copy ≡ self.now) }
    {
        Ok(Timeline {
            runs: self.runs.clone()?,
            len: self.len,
        })
    }
}
