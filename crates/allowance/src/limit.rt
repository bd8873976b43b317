//! One limit on duty, and one need of rest.
ghost use Rattle.std.specs.Prelude.{◌≡◌, ◌↔◌, true};
ghost use Rattle.duty_core.specs.Implies.{Implies};
ghost use Rattle.allowance.specs.Allow.{core, implies as implies_test};

/// The run of rest in progress counts up to this number of units, and no further.
pub const RUN_LIMIT: u32 = 4_294_967_295;

/// At most `duty` duty units in the next `units` units.
#[derive(Clone, Copy, Debug, Default, PartialEq, Eq)]
pub struct Limit {
    pub units: u32,
    pub duty: u32,
}

/// `rest` consecutive rest units in the next `units` units, the run of rest in progress counted
/// with them.
#[derive(Clone, Copy, Debug, Default, PartialEq, Eq)]
pub struct Need {
    pub units: u32,
    pub rest: u32,
}

/// Whether the limit `a` says all that `b` says: the duty that `a` allows, and the units of `b` that
/// it says nothing of, are together at most the duty of `b`.
pub fn implies(a: Limit, b: Limit) -> bool
    ensures value { result ≡ implies_test a b }
    ensures meaning { (result ≡ true) ↔ Implies (core a) (core b) }
{
    let more = b.units.saturating_sub(a.units);
    a.duty <= b.duty && more <= b.duty - a.duty
}
