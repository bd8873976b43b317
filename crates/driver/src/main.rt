//! The planner as a program: its words are the arguments, its desk the system's files, its sink
//! standard output, and its exit code tells the status.
#![tactic(auto)]

#[cfg(test)]
mod audits;
#[cfg(test)]
mod calls;
#[cfg(test)]
mod certificates;
#[cfg(test)]
mod makes;
#[cfg(test)]
mod naps;
#[cfg(test)]
mod tests;
#[cfg(test)]
mod worked_tours;

use driver_cli::{exit_code_of_call, words_of};
use outside::{DiskDesk, StdSink};
use std::env;
use std::process::ExitCode;

fn main(rt: HostRuntime) -> ExitCode {
    let words = words_of(rt.alloc(), env::args(&rt));
    let mut desk = DiskDesk::new(&rt, rt.alloc());
    let mut out = StdSink::new(&rt);
    ExitCode::from(exit_code_of_call(rt.alloc(), words, &mut desk, &mut out))
}
