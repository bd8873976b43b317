//! The limits and needs that are open.
ghost use Rattle.std.specs.Prelude.{◌≡◌, ◌↔◌, ℕ, ◌+◌, ◌-◌, ◌<◌, ◌≤◌, true, false, All, List, [], ◌∷◌, OnOk, OnErr, IfOk, IsTrue, IsFalse, Some, None, if◌then◌else◌};
ghost use Rattle.duty_core.specs.declared.activity.Activity.{Activity};
ghost use Rattle.duty_core.specs.Activity.{works};
ghost use Rattle.allowance.specs.Allow.{Held, Allows, KeepsLimit, MeetsNeed, IsHeld, may_spend, spent, passed, added, needed, settled, no_limits, is_held};

use crate::limit::{Limit, Need, RUN_LIMIT};
use crate::lists::{self, Limits, Needs};
use duty_core::NoMemory;
use smallvec::SmallVec;
use std::alloc::Global;
use std::marker::Model;

/// What the next units may hold, followed by rest for good: each limit on duty is kept, and each
/// need of rest is met, the run of rest in progress counted with the next units.
#[derive(Drop)]
pub struct Allowances {
    limits: Limits,
    needs: Needs,
    run: u32,
}

impl Model for Allowances {
    ghost use Rattle.allowance.specs.Allow.{Held, IsHeld};

    ghost Value = { Held };

    ghost view = { λ a. record { limits = a.limits.items; needs = a.needs.items; run = a.run } };

    ghost invariant = { λ a. IsHeld (record { limits = a.limits.items; needs = a.needs.items; run = a.run }) };
}

impl Allowances {
    /// No limits, no needs, and no rest in progress.
    pub fn new(alloc: Global) -> Allowances
        ensures { result ≡ no_limits }
    {
        Allowances {
            limits: SmallVec::new(alloc),
            needs: SmallVec::new(alloc),
            run: 0,
        }
    }

    /// Equal allowances. `NoMemory` if there is none for them.
    pub fn copy(&self) -> Result<Allowances, NoMemory>
        ensures { IfOk result (λ copy. copy ≡ self.now) }
    {
        Ok(Allowances {
            limits: SmallVec::from_slice(*self.limits.allocator(), self.limits.as_slice())?,
            needs: SmallVec::from_slice(*self.needs.allocator(), self.needs.as_slice())?,
            run: self.run,
        })
    }

    /// The limits, in the order in which they were added.
    pub fn limits(&self) -> &[Limit]
        ensures { result.now ≡ self.now.limits }
    {
        self.limits.as_slice()
    }

    /// The needs, in the order in which they were added.
    pub fn needs(&self) -> &[Need]
        ensures { result.now ≡ self.now.needs }
    {
        self.needs.as_slice()
    }

    /// The length of the run of rest in progress, in units.
    pub fn run(&self) -> u32
        ensures { result ≡ self.now.run }
    {
        self.run
    }

    /// One duty unit. False exactly where it may not be: some limit leaves no duty unit, or some need
    /// would become impossible. Then nothing changes. So it is true exactly where this unit alone,
    /// followed by rest for good, is allowed.
    pub fn spend(&mut self) -> bool
        ensures says { result ≡ may_spend self.old }
        ensures done { IsTrue result → self.new ≡ spent self.old }
        ensures kept { IsFalse result → self.new ≡ self.old }
        ensures future { (x : Activity) (xs : List Activity) → works x ≡ true → Allows self.old (x ∷ xs) ↔ ((result ≡ true) × Allows self.new xs) }
        ensures alone { (x : Activity) → works x ≡ true → Allows self.old (x ∷ []) ↔ (result ≡ true) }
    {
        if !lists::may_spend_both(&self.limits, &self.needs) {
            return false;
        }
        lists::spend_limits(&mut self.limits);
        lists::pass_needs(&mut self.needs);
        self.run = 0;
        true
    }

    /// One rest unit. A limit that no units break any more leaves, and so does a need that is met.
    pub fn pass(&mut self)
        ensures done { self.new ≡ passed self.old }
        ensures future { (x : Activity) (xs : List Activity) → works x ≡ false → Allows self.old (x ∷ xs) ↔ Allows self.new xs }
    {
        lists::pass_limits(&mut self.limits);
        lists::keep_open(&mut self.limits);
        lists::pass_needs(&mut self.needs);
        self.run = self.run.saturating_add(1);
        lists::keep_waiting(&mut self.needs, self.run);
    }

    /// One more limit: at most `duty` duty units in the next `units` units. It is left out where no
    /// units break it or a kept limit implies it, and the kept ones that it implies leave. `NoMemory`
    /// if there is none for it; then nothing changes.
    pub fn add(&mut self, units: u32, duty: u32) -> Result<(), NoMemory>
        ensures ok { OnOk result (self.new ≡ added self.old (record { units = units; duty = duty })) }
        ensures future { OnOk result ((xs : List Activity) → Allows self.new xs ↔ (Allows self.old xs × KeepsLimit xs (record { units = units; duty = duty }))) }
        ensures err { OnErr result (self.new ≡ self.old) }
    {
        lists::add_limit(&mut self.limits, Limit { units, duty })
    }

    /// One more need: `rest` consecutive rest units in the next `units` units, the run in progress
    /// counted with them. It is left out where a kept need asks for as much rest and no later.
    /// `NoMemory` if there is none for it; then nothing changes.
    pub fn need(&mut self, units: u32, rest: u32) -> Result<(), NoMemory>
        requires waits { self.old.run < rest }
        requires can { rest ≤ self.old.run + units }
        ensures ok { OnOk result (self.new ≡ needed self.old (record { units = units; rest = rest })) }
        ensures future { OnOk result ((xs : List Activity) → Allows self.new xs ↔ (Allows self.old xs × MeetsNeed self.old.run xs (record { units = units; rest = rest }))) }
        ensures err { OnErr result (self.new ≡ self.old) }
    {
        lists::add_need(&mut self.needs, Need { units, rest })
    }

    /// Counts a run in progress of more than `longest` units as one of so many. No need waits for
    /// more.
    pub fn settle(&mut self, longest: u32)
        requires { All (λ n. n.rest ≤ longest) self.old.needs }
        ensures done { self.new ≡ settled self.old longest }
        ensures future { (xs : List Activity) → Allows self.old xs ↔ Allows self.new xs }
    {
        self.run = self.run.min(longest);
    }

    /// The allowances with these limits and needs in their order, and this run in progress. `None`
    /// exactly where there are none: where no units break one of the limits, or where one of the
    /// needs is met by the run in progress, or can't be met. `NoMemory` if there is none for them.
    pub fn from_parts(
        alloc: Global,
        limits: &[Limit],
        needs: &[Need],
        run: u32,
    ) -> Result<Option<Allowances>, NoMemory>
        ensures { IfOk result (λ made. made ≡ (if is_held (record { limits = limits.now; needs = needs.now; run = run }) then Some (record { limits = limits.now; needs = needs.now; run = run }) else None)) }
    {
        if !lists::are_open(limits) || !lists::are_open_needs(needs, run) {
            return Ok(None);
        }
        Ok(Some(Allowances {
            limits: SmallVec::from_slice(alloc, limits)?,
            needs: SmallVec::from_slice(alloc, needs)?,
            run,
        }))
    }

    /// Rest for good, with no duty to come, is always allowed.
    pub fn allow_rest(&self)
        ensures { Allows self.now [] }
    {
        let _ = &self.run;
    }

    /// All allowances pass the test of `from_parts`.
    pub fn are_held(&self)
        ensures open { IsHeld self.now }
        ensures test { is_held self.now ≡ true }
    {
        let _ = &self.run;
    }
}
