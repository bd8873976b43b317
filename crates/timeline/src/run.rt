//! A run of one activity.
use duty_core::Activity;

/// Units of one activity: those from place `from` up to place `to`, without `to`.
#[derive(Debug, Clone, Copy, PartialEq, Eq)]
pub struct Run {
    pub act: Activity,
    pub from: u32,
    pub to: u32,
}
