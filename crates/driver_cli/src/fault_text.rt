//! The texts of what is wrong with a tour or a log.
ghost use Rattle.std.specs.Prelude.{◌≡◌, ◌++◌, OnOk};
ghost use Rattle.std.specs.Fmt.{decimal};
ghost use Rattle.driver_cli.specs.FaultText.{stop_text, tour_fault_text, log_fault_text};

use duty_core::NoMemory;
use duty_log::LogFault;
use std::alloc::Global;
use text_parts::Text;
use tour_reader::TourFault;

/// Puts the number of a stop after the text, where there is one.
fn push_stop(text: &mut Text, alloc: Global, stop: Option<u32>) -> Result<(), NoMemory>
    ensures { OnOk result (text.new ≡ text.old ++ stop_text stop) }
{
    if let Some(number) = stop {
        text.push_str(" stop ")?;
        text.push_number(alloc, u64::from(number))?;
    }
    Ok(())
}

/// Puts a name and a number after the text.
fn push_numbered(text: &mut Text, alloc: Global, name: &str, number: u32) -> Result<(), NoMemory>
    ensures { OnOk result (text.new ≡ text.old ++ (name.now ++ decimal number)) }
{
    text.push_str(name)?;
    text.push_number(alloc, u64::from(number))
}

/// Puts what is wrong with a tour after the text.
pub fn push_tour_fault(text: &mut Text, alloc: Global, fault: &TourFault) -> Result<(), NoMemory>
    ensures { OnOk result (text.new ≡ text.old ++ tour_fault_text fault.now) }
{
    match fault {
        TourFault::TooBig => text.push_str("TooBig")?,
        TourFault::NotJson => text.push_str("NotJson")?,
        TourFault::Missing { field, stop } => {
            text.push_str("Missing ")?;
            text.push_str(field.key())?;
            push_stop(text, alloc, *stop)?;
        }
        TourFault::Unknown { name, stop } => {
            text.push_str("Unknown ")?;
            text.push_printable(alloc, name.items())?;
            push_stop(text, alloc, *stop)?;
        }
        TourFault::BadValue { field, stop } => {
            text.push_str("BadValue ")?;
            text.push_str(field.key())?;
            push_stop(text, alloc, *stop)?;
        }
        TourFault::NoStops => text.push_str("NoStops")?,
        TourFault::TooManyStops => text.push_str("TooManyStops")?,
        TourFault::DuplicateStop { name } => {
            text.push_str("DuplicateStop ")?;
            text.push_bytes(name.items())?;
        }
        TourFault::BeyondHorizon { stop } => push_numbered(text, alloc, "BeyondHorizon ", *stop)?,
        TourFault::Memory => text.push_str("Memory")?,
    }
    Ok(())
}

/// Puts what is wrong with a log after the text.
pub fn push_log_fault(text: &mut Text, alloc: Global, fault: LogFault) -> Result<(), NoMemory>
    ensures { OnOk result (text.new ≡ text.old ++ log_fault_text fault) }
{
    match fault {
        LogFault::TooBig => text.push_str("TooBig"),
        LogFault::BadHeader => text.push_str("BadHeader"),
        LogFault::NotCsv { row } => push_numbered(text, alloc, "NotCsv ", row),
        LogFault::BadTime { row } => push_numbered(text, alloc, "BadTime ", row),
        LogFault::BadStatus { row } => push_numbered(text, alloc, "BadStatus ", row),
        LogFault::Empty { row } => push_numbered(text, alloc, "Empty ", row),
        LogFault::Gap { row } => push_numbered(text, alloc, "Gap ", row),
        LogFault::NotOnUnit { row } => push_numbered(text, alloc, "NotOnUnit ", row),
        LogFault::TooLong { row } => push_numbered(text, alloc, "TooLong ", row),
        LogFault::EndsElsewhere => text.push_str("EndsElsewhere"),
        LogFault::Memory => text.push_str("Memory"),
    }
}
