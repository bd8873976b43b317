//! What a driver has used since the last rests, and what is done in a step.

/// What a driver has used. All lengths are in steps. The base is the end of the full rest, or of
/// the split rest, from which the limits of the shift are counted.
#[derive(Clone, Copy, Debug, PartialEq, Eq)]
pub struct Counts {
    /// Driving since the base.
    pub driving: u32,
    /// Time since the base, with the run of rest in progress and without the split rest that waits.
    pub elapsed: u32,
    /// Driving since the last declared rest: a full rest, or a split rest.
    pub driven: u32,
    /// Time since the last declared rest, with the run of rest in progress.
    pub since: u32,
    /// The run of rest in progress.
    pub run: u32,
    /// The length of a split rest that waits for the rest that it makes a full one with.
    pub waiting: Option<u32>,
    /// Driving since the last step of anything else.
    pub streak: u32,
}

/// What a driver does in a step.
#[derive(Clone, Copy, Debug, PartialEq, Eq)]
pub enum Deed {
    /// The next piece of work. A run of rest before it is a full rest where it is long enough, and
    /// is else not declared.
    Work,
    /// The next piece of work, after the run of rest is declared as a split rest.
    Split,
    /// Duty that does no piece, such as waiting. A run of rest before it is as before work.
    Wait,
    /// Duty that does no piece, after the run of rest is declared as a split rest.
    SplitWait,
    /// Rest.
    Idle,
}
