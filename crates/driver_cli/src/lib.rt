//! The planner over any desk and any sink: its words, its files, its search and its answers.
#![tactic(auto)]

mod answer;
mod audit;
mod check;
mod fault_text;
mod fetch;
mod graph;
mod make;
mod plan;
mod program;
mod put;
#[cfg(test)]
mod tests;
mod texts;
mod top;

pub use answer::Status;
pub use program::{exit_code_of_call, words_of};
pub use top::drive_tool;
