//! Worked examples of the labels' calls, by the book of the United States.
#![tactic(auto)]

#[cfg(test)]
mod tests;
