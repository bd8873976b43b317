//! What a rule book offers to a search: states of a history, their successors, which state may
//! stand for which, and the laws that tie these to the rules. Going over a log by a book.
#![tactic(auto)]

mod book;
mod nexts;
mod numbers;
mod over_log;
mod pruned;
mod roots;

pub use book::RuleBook;
pub use nexts::{Idles, Next, Nexts};
pub use numbers::{MOST_NUMBERS, NUMBER_LIMIT, Numbers};
pub use over_log::{Replayed, replay};
pub use roots::{Root, Roots};
