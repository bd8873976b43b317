//! What `clap` is told of each command.
ghost use Rattle.std.specs.Prelude.{◌≡◌, [], false, codes, IfOk};
ghost use Rattle.report_text.specs.declared.maker.TheConstants.{MOST_MADE};
ghost use Rattle.clap.specs.Words.{app_of, rule_of, with_rule};
ghost use Rattle.command_words.specs.Calls.{place, number_place, budget_option, call, call_of};

use cert_text::MOST_LABELS;
use clap::{Arg, ArgAction, Command, value_parser};
use report_text::MOST_MADE;
use std::alloc::{AllocError, Global};

/// The commands, by their names.
#[derive(Clone, Copy)]
pub(crate) enum Verb {
    Plan,
    Check,
    Audit,
    Graph,
    Make,
}

/// A word that has to be there, in its place.
fn place<'a>(alloc: Global, id: &'a str) -> Arg<'a>
    ensures rule { rule_of result ≡ place id.now }
    ensures own { result.global ≡ false }
{
    Arg::new(alloc, id).required(true).action(ArgAction::Set)
}

/// The number of a made tour. It is read as a `u64`, since `clap` reads a `u32` by way of an `i64`,
/// and so takes `-0`.
fn number_place<'a>(alloc: Global) -> Arg<'a>
    ensures rule { rule_of result ≡ number_place (codes "number") MOST_MADE }
    ensures own { result.global ≡ false }
{
    place(alloc, "number").value_parser(value_parser!(u64).range(0..=i64::from(MOST_MADE)))
}

/// `--budget` with one value.
fn budget_option<'a>(alloc: Global) -> Arg<'a>
    ensures rule { rule_of result ≡ budget_option }
    ensures own { result.global ≡ false }
{
    Arg::new(alloc, "budget")
        .long("budget")
        .action(ArgAction::Set)
        .value_parser(value_parser!(u64).range(1..=i64::from(MOST_LABELS)))
        .default_value("200000")
}

/// A command of this name, with no arguments, and with no flag for help or a version.
fn call<'a>(alloc: Global, name: &'a str) -> Command<'a>
    ensures { app_of result ≡ call name.now [] }
{
    Command::new(alloc, name)
        .disable_help_flag(true)
        .disable_version_flag(true)
}

/// The call with the names of a tour's and a log's file.
fn with_names<'a>(alloc: Global, call: Command<'a>) -> Result<Command<'a>, AllocError>
    ensures { IfOk result (λ named. app_of named ≡ with_rule (with_rule (app_of call.entry) (place (codes "tour"))) (place (codes "log"))) }
{
    call.arg(place(alloc, "tour"))?.arg(place(alloc, "log"))
}

/// What `clap` is told of this command.
pub(crate) fn call_of<'a>(alloc: Global, verb: Verb) -> Result<Command<'a>, AllocError>
    ensures { IfOk result (λ call. app_of call ≡ call_of verb) }
{
    match verb {
        Verb::Plan => with_names(alloc, call(alloc, "plan"))?
            .arg(place(alloc, "cert"))?
            .arg(budget_option(alloc)),
        Verb::Check => with_names(alloc, call(alloc, "check"))?.arg(place(alloc, "cert")),
        Verb::Audit => with_names(alloc, call(alloc, "audit")),
        Verb::Graph => with_names(alloc, call(alloc, "graph")),
        Verb::Make => with_names(alloc, call(alloc, "make").arg(number_place(alloc))?),
    }
}
