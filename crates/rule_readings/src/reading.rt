//! What a rule counts at most, or at least, in a schedule.
use duty_core::{Minute, Rule, TryVec};

/// What a rule counts: as much is used of its limit, at this minute. In minutes, and for Australia's
/// nights in nights.
#[derive(Clone, Copy, Debug, PartialEq, Eq)]
pub struct Reading {
    pub used: u32,
    pub limit: u32,
    pub at: Minute,
}

/// The rules of a book, in its order, each with its reading. A rule that looks at nothing has none.
pub type ReadingList = TryVec<(Rule, Option<Reading>)>;
