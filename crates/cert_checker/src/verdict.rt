//! What a check finds.

/// The line of a certificate that has the number of its run lines.
pub const SCHEDULE_LINE: u64 = 4;

/// Why a certificate is rejected. The order is that in which the conditions of one line are tried.
#[derive(Clone, Copy, Debug, PartialEq, Eq)]
pub enum Reason {
    /// The file is longer than a certificate may be.
    TooBig,
    /// The text is not that of a certificate.
    Grammar,
    /// The run lines are no schedule that serves the tour.
    Serves,
    /// The schedule's duration is not the target.
    Length,
    /// The log followed by the schedule breaks a rule with these marks, or the marks break one of
    /// their conditions.
    Lawful,
    /// Some state that the log reaches is covered by no label of layer 0 that has not departed and
    /// has done nothing.
    Root,
    /// The label is none of its step.
    State,
    /// The label is finished, and has taken less than the target.
    Finished,
    /// An earlier label of the layer is better.
    Repeated,
    /// A successor of the label is neither pruned nor answered by a better label.
    Successor,
}

/// The line at which a condition fails first, from 1 on, and the first that fails there.
#[derive(Clone, Copy, Debug, PartialEq, Eq)]
pub struct Rejection {
    pub line: u64,
    pub reason: Reason,
}

/// What a check finds.
#[derive(Clone, Copy, Debug, PartialEq, Eq)]
pub enum Verdict {
    /// The certificate is valid: its schedule, which takes so many steps, is a shortest one.
    Shortest { steps: u32 },
    /// The certificate is valid: there is no solution.
    Infeasible,
    /// The certificate is not valid.
    Rejected { line: u64, reason: Reason },
}
