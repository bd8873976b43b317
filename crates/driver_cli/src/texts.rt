//! The texts of the answers.
ghost use Rattle.std.specs.Prelude.{◌≡◌, ◌<◌, ◌++◌, codes, IfOk, OnOk};
ghost use Rattle.civil_minutes.specs.declared.century.TheConstants.{MINUTES_OF_CENTURY};
ghost use Rattle.duty_core.specs.RuleNames.{rule_name};
ghost use Rattle.text_parts.specs.Parts.{IsText};
ghost use Rattle.driver_cli.specs.Texts.{spent_text, read_fault_text, write_fault_text, tour_refused_text, log_refused_text, rule_words, unlawful_text, made_text, made_shortest_text, made_infeasible_text, made_spent_text, accepted_shortest_text, reason_text, rejected_text};

use crate::fault_text::{push_log_fault, push_tour_fault};
use cert_checker::Reason;
use duty_core::{Minute, NoMemory, Rule};
use duty_log::LogFault;
use outside::Word;
use std::alloc::Global;
use text_parts::Text;
use tour_reader::TourFault;

/// The words that are sentences.
pub const USAGE: &str =
    "usage: driver plan TOUR LOG CERT [--budget N]\n       driver check TOUR LOG CERT\n       driver audit TOUR LOG\n       driver graph TOUR LOG\n       driver make N TOUR LOG\n";

/// The answer where the search's budget of labels is spent.
pub fn spent_text(alloc: Global, budget: u32) -> Result<Text, NoMemory>
    ensures { IfOk result (λ text. text ≡ spent_text budget) }
{
    let mut text = Text::of(alloc, "spent ")?;
    text.push_number(alloc, u64::from(budget))?;
    text.push_str("\n")?;
    Ok(text)
}

/// The answer where the file of that name could not be read.
pub fn read_fault_text(alloc: Global, name: &Word) -> Result<Text, NoMemory>
    ensures { IfOk result (λ text. text ≡ read_fault_text name.now) }
{
    let mut text = Text::of(alloc, "read fault ")?;
    text.push_str(name.as_str())?;
    text.push_str("\n")?;
    Ok(text)
}

/// The answer where the file of that name could not be put.
pub fn write_fault_text(alloc: Global, name: &Word) -> Result<Text, NoMemory>
    ensures { IfOk result (λ text. text ≡ write_fault_text name.now) }
{
    let mut text = Text::of(alloc, "write fault ")?;
    text.push_str(name.as_str())?;
    text.push_str("\n")?;
    Ok(text)
}

/// The answer to a tour with this fault.
pub fn tour_refused_text(alloc: Global, fault: &TourFault) -> Result<Text, NoMemory>
    ensures { IfOk result (λ text. text ≡ tour_refused_text fault.now) }
{
    let mut text = Text::of(alloc, "tour refused: ")?;
    push_tour_fault(&mut text, alloc, fault)?;
    text.push_str("\n")?;
    Ok(text)
}

/// The answer to a log with this fault.
pub fn log_refused_text(alloc: Global, fault: LogFault) -> Result<Text, NoMemory>
    ensures { IfOk result (λ text. text ≡ log_refused_text fault) }
{
    let mut text = Text::of(alloc, "log refused: ")?;
    push_log_fault(&mut text, alloc, fault)?;
    text.push_str("\n")?;
    Ok(text)
}

/// Puts a space and its name after the text for each rule.
fn push_rules(text: &mut Text, rules: &[Rule]) -> Result<(), NoMemory>
    ensures { OnOk result (text.new ≡ text.old ++ rule_words rules.now) }
{
    for rule in rules {
        push_rule(text, *rule)?;
    }
    Ok(())
}

/// Puts a space and the rule's name after the text.
fn push_rule(text: &mut Text, rule: Rule) -> Result<(), NoMemory>
    ensures { OnOk result (text.new ≡ text.old ++ (codes " " ++ rule_name rule)) }
{
    text.push_str(" ")?;
    text.push_str(rule.name())
}

/// The answer to a log that is unlawful in the unit that begins at this minute, and up to it breaks
/// these rules.
pub fn unlawful_text(alloc: Global, at: Minute, rules: &[Rule]) -> Result<Text, NoMemory>
    requires { at < MINUTES_OF_CENTURY }
    ensures { IfOk result (IsText (unlawful_text at rules.now)) }
{
    let mut text = Text::of(alloc, "log unlawful at ")?;
    text.push_time(at)?;
    text.push_str(":")?;
    push_rules(&mut text, rules)?;
    text.push_str("\n")?;
    Ok(text)
}

/// The first line of a summary: a made tour, and the number of its stops.
fn made_text(alloc: Global, number: u32, stops: usize) -> Result<Text, NoMemory>
    ensures { IfOk result (λ text. text ≡ made_text number stops) }
{
    let mut text = Text::of(alloc, "made ")?;
    text.push_number(alloc, u64::from(number))?;
    text.push_str(" stops ")?;
    text.push_number(alloc, stops as u64)?;
    text.push_str("\n")?;
    Ok(text)
}

/// The summary of a made tour whose shortest schedules take so many minutes.
pub fn made_shortest_text(
    alloc: Global,
    number: u32,
    stops: usize,
    minutes: u32,
) -> Result<Text, NoMemory>
    ensures { IfOk result (λ text. text ≡ made_shortest_text number stops minutes) }
{
    let mut text = made_text(alloc, number, stops)?;
    text.push_str("shortest ")?;
    text.push_clock(alloc, minutes)?;
    text.push_str("\n")?;
    Ok(text)
}

/// The summary of a made tour that no schedule serves lawfully.
pub fn made_infeasible_text(alloc: Global, number: u32, stops: usize) -> Result<Text, NoMemory>
    ensures { IfOk result (λ text. text ≡ made_infeasible_text number stops) }
{
    let mut text = made_text(alloc, number, stops)?;
    text.push_str("infeasible\n")?;
    Ok(text)
}

/// The summary of a made tour for which the search's budget of labels is spent.
pub fn made_spent_text(
    alloc: Global,
    number: u32,
    stops: usize,
    budget: u32,
) -> Result<Text, NoMemory>
    ensures { IfOk result (λ text. text ≡ made_spent_text number stops budget) }
{
    let mut text = made_text(alloc, number, stops)?;
    text.push_str("spent ")?;
    text.push_number(alloc, u64::from(budget))?;
    text.push_str("\n")?;
    Ok(text)
}

/// The answer to a valid certificate of a shortest schedule, which takes so many minutes.
pub fn accepted_shortest_text(alloc: Global, minutes: u32) -> Result<Text, NoMemory>
    ensures { IfOk result (λ text. text ≡ accepted_shortest_text minutes) }
{
    let mut text = Text::of(alloc, "accepted shortest ")?;
    text.push_clock(alloc, minutes)?;
    text.push_str("\n")?;
    Ok(text)
}

/// The word of a reason.
fn reason_text(reason: Reason) -> &'static str
    ensures { result.now ≡ reason_text reason }
{
    match reason {
        Reason::TooBig => "TOOBIG",
        Reason::Grammar => "GRAMMAR",
        Reason::Serves => "SERVES",
        Reason::Length => "LENGTH",
        Reason::Lawful => "LAWFUL",
        Reason::Root => "ROOT",
        Reason::State => "STATE",
        Reason::Finished => "FINISHED",
        Reason::Repeated => "REPEATED",
        Reason::Successor => "SUCCESSOR",
    }
}

/// The answer to a certificate that fails first at this line, for this reason.
pub fn rejected_text(alloc: Global, line: u64, reason: Reason) -> Result<Text, NoMemory>
    ensures { IfOk result (λ text. text ≡ rejected_text line reason) }
{
    let mut text = Text::of(alloc, "rejected line ")?;
    text.push_number(alloc, line)?;
    text.push_str(": ")?;
    text.push_str(reason_text(reason))?;
    text.push_str("\n")?;
    Ok(text)
}
