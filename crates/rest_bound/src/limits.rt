//! The limits of a shift.

/// The step, and the number of steps, that no call reaches.
pub const STEP_LIMIT: u32 = 100_000_000;

/// What the rules of the United States allow between two full rests. All lengths are in steps.
#[derive(Clone, Copy, Debug, PartialEq, Eq)]
pub struct Limits {
    /// The most driving between full rests: eleven hours (49 CFR 395.3(a)(3)(i)).
    pub driving: u32,
    /// The time after the base by which all driving ends: fourteen hours (49 CFR 395.3(a)(2)).
    pub elapsed: u32,
    /// The length of a full rest, and of two split rests that make one: ten hours
    /// (49 CFR 395.3(a)(1) and 395.1(g)(1)(ii)).
    pub full_rest: u32,
    /// The least length of a split rest: two hours (49 CFR 395.1(g)(1)(ii)). Where rest may not be
    /// split, the length of a full rest.
    pub split_least: u32,
    /// The greatest length of a split rest: a step less than a full rest
    /// (49 CFR 395.1(g)(1)(ii)). Where rest may not be split, 0.
    pub split_most: u32,
    /// The most driving without a step of anything else between: eight hours
    /// (49 CFR 395.3(a)(3)(ii)).
    pub unbroken: u32,
}
