//! Where a schedule stands after some steps.

/// A schedule so far: the step at which it departed, which is None exactly where `progress` is 0;
/// how many steps of driving and service it has done; and the state of its history.
#[derive(Drop)]
pub struct Label<S> {
    pub depart: Option<u32>,
    pub progress: u32,
    pub state: S,
}
