//! The lines of what the rules count.
ghost use Rattle.std.specs.Prelude.{◌≡◌, ◌<◌, IfSome, OnOk};
ghost use Rattle.civil_minutes.specs.declared.century.TheConstants.{MINUTES_OF_CENTURY};
ghost use Rattle.rule_readings.specs.Readings.{AreTimedBefore};
ghost use Rattle.text_parts.specs.Parts.{Puts};
ghost use Rattle.report_text.specs.Report.{found_parts, reading_line, reading_lines};

use duty_core::{NoMemory, Rule};
use rule_readings::Reading;
use std::alloc::Global;
use text_parts::Text;

/// Puts a line for each rule after the text.
pub fn push_readings(
    text: &mut Text,
    alloc: Global,
    readings: &[(Rule, Option<Reading>)],
) -> Result<(), NoMemory>
    requires { AreTimedBefore MINUTES_OF_CENTURY readings.now }
    ensures { OnOk result (Puts (reading_lines readings.now) text.old text.new) }
{
    for line in readings {
        push_reading(text, alloc, *line)?;
    }
    Ok(())
}

/// Puts the line of a rule after the text.
fn push_reading(
    text: &mut Text,
    alloc: Global,
    line: (Rule, Option<Reading>),
) -> Result<(), NoMemory>
    requires { IfSome line.1 (λ reading. reading.at < MINUTES_OF_CENTURY) }
    ensures { OnOk result (Puts (reading_line line) text.old text.new) }
{
    let (rule, found) = line;
    text.push_str(rule.name())?;
    text.push_str(" ")?;
    push_found(text, alloc, found)?;
    text.push_str("\n")
}

/// Puts what a rule counts after the text, or `-` where it looks at nothing.
fn push_found(text: &mut Text, alloc: Global, found: Option<Reading>) -> Result<(), NoMemory>
    requires { IfSome found (λ reading. reading.at < MINUTES_OF_CENTURY) }
    ensures { OnOk result (Puts (found_parts found) text.old text.new) }
{
    let Some(reading) = found else {
        return text.push_str("-");
    };
    text.push_number(alloc, u64::from(reading.used))?;
    text.push_str(" of ")?;
    text.push_number(alloc, u64::from(reading.limit))?;
    text.push_str(" at ")?;
    text.push_time(reading.at)
}
