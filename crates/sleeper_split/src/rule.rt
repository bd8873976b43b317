//! How a country lets rest be split.
use crate::count::Used;
use duty_core::{
    CA_ELAPSED_LIMIT, CA_FULL_REST, CA_PAIR_LEAST, CA_SHIFT_DRIVING_LIMIT, CA_SHIFT_DUTY_LIMIT,
    CA_SPLIT_LEAST, US_FULL_REST, US_PAIR_LEAST, US_SPLIT_LEAST,
};

/// What is asked of a pair's time in the berth.
#[derive(Clone, Copy, Debug, PartialEq, Eq)]
pub enum BerthRule {
    /// One of the two has seven consecutive hours in the berth (49 CFR 395.1(g)(1)(ii)).
    SevenInOne,
    /// The later one is spent in the berth, and so is each split rest (SOR/2005-313, section 18).
    AllOfNext,
}

/// How rest may be split. Lengths are in minutes.
#[derive(Clone, Copy, Debug, PartialEq, Eq)]
pub struct SplitRule {
    /// The least length of a split rest.
    pub least: u32,
    /// The length of a full rest.
    pub full: u32,
    /// The least length of a pair, its two rests together.
    pub pair: u32,
    /// What is asked of the pair's time in the berth.
    pub berth: BerthRule,
    /// The driving, duty and elapsed time since the base at each of which nothing more may be
    /// driven. `covers` alone asks for them: a count at its limit is no better than one beyond it.
    /// Where there are none, it compares all counts alike.
    pub limits: Option<Used>,
}

impl SplitRule {
    /// The United States (49 CFR 395.1(g)(1)).
    pub const US: SplitRule = SplitRule {
        least: US_SPLIT_LEAST,
        full: US_FULL_REST,
        pair: US_PAIR_LEAST,
        berth: BerthRule::SevenInOne,
        limits: None,
    };

    /// Canada, south of 60°N (SOR/2005-313, section 18).
    pub const CANADA: SplitRule = SplitRule {
        least: CA_SPLIT_LEAST,
        full: CA_FULL_REST,
        pair: CA_PAIR_LEAST,
        berth: BerthRule::AllOfNext,
        limits: Some(Used {
            driving: CA_SHIFT_DRIVING_LIMIT,
            duty: CA_SHIFT_DUTY_LIMIT,
            elapsed: CA_ELAPSED_LIMIT,
        }),
    };
}
