//! The lines of a schedule's marks.
ghost use Rattle.std.specs.Prelude.{◌≡◌, ◌<◌, nat_abs, All, OnOk};
ghost use Rattle.civil_minutes.specs.declared.century.TheConstants.{MINUTES_OF_CENTURY};
ghost use Rattle.duty_core.specs.Marks.{mark_minute};
ghost use Rattle.duty_core.specs.Params.{AreGoodParams};
ghost use Rattle.cert_text.specs.Text.Form.{IsMarkForm};
ghost use Rattle.cert_text.specs.Text.Spelling.{mark_word};
ghost use Rattle.text_parts.specs.Parts.{Puts};
ghost use Rattle.report_text.specs.Report.{mark_line, mark_lines};

use civil_minutes::day_first;
use duty_core::{Mark, Minute, NoMemory, Params};
use log_graph::day_start;
use text_parts::Text;

/// Puts a line for each mark after the text.
pub fn push_marks(text: &mut Text, params: Params, marks: &[Mark]) -> Result<(), NoMemory>
    requires good { AreGoodParams params }
    requires marks { All (IsMarkForm params 0) marks.now }
    ensures { OnOk result (Puts (mark_lines params marks.now) text.old text.new) }
{
    for mark in marks {
        push_mark(text, params, *mark)?;
    }
    Ok(())
}

/// Puts the line of a mark after the text.
fn push_mark(text: &mut Text, params: Params, mark: Mark) -> Result<(), NoMemory>
    requires good { AreGoodParams params }
    requires mark { IsMarkForm params 0 mark }
    ensures { OnOk result (Puts (mark_line params mark) text.old text.new) }
{
    text.push_str("mark ")?;
    text.push_str(mark_word(mark))?;
    text.push_time(mark_minute(params, mark))?;
    text.push_str("\n")
}

/// The word of a mark in a line.
fn mark_word(mark: Mark) -> &'static str
    ensures { result.now ≡ mark_word mark }
{
    match mark {
        Mark::SplitRest { at: _ } => "split ",
        Mark::DeferDay { day: _ } => "defer ",
    }
}

/// The minute of a mark: the first one of its rest run or of its day.
fn mark_minute(params: Params, mark: Mark) -> Minute
    requires good { AreGoodParams params }
    requires mark { IsMarkForm params 0 mark }
    ensures at { result ≡ nat_abs (mark_minute params mark) }
    ensures century { result < MINUTES_OF_CENTURY }
{
    match mark {
        Mark::SplitRest { at } => at,
        Mark::DeferDay { day } => day_first(day, day_start(params)) as u32,
    }
}
