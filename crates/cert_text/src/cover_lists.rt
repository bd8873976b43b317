//! Cover lists: how labels grow, which is better, which need not be listed, and what follows from
//! a list.
mod better;
mod bound;
mod grown;
mod laws;
mod minute;
mod pruned;

pub use better::{departs_later, may_idle_after};
pub use bound::{EtaBound, LabelBound};
pub use grown::Grown;
pub use laws::cover_lists_prove;
pub use minute::minute_at;
pub use pruned::is_pruned;
