//! The words of a call of the planner: which command they ask for.
//!
//! The first word names the command, and `clap` reads the words after it.
#![tactic(auto)]

mod calls;
mod command;
mod laws;
mod matched;
#[cfg(test)]
mod tests;

pub use command::{BUDGET, Command, command_of};
pub use laws::{
    any_names_stand_after_two_hyphens, budgets_are_read, plain_forms_are_commands,
    words_ask_for_one_command,
};
