//! Rests that a driver splits into two, in a sleeper berth: which rests of a history count as full
//! or split rests, which two of them are a pair, and what has been driven and worked since.
#![tactic(auto)]

mod count;
mod covers;
mod ends;
mod laws;
mod numbers;
mod rule;
#[cfg(test)]
mod tests;

pub use count::{OpenRun, Since, SplitCount, Used, WaitingRest};
pub use ends::Ends;
pub use laws::{
    is_exact_in_canada, is_exact_in_united_states, is_told_by_places, rests_safely,
    stands_for_plainly_worse, stands_in_order, stands_on, tells_of_history,
};
pub use numbers::SPLIT_NUMBERS;
pub use rule::{BerthRule, SplitRule};
