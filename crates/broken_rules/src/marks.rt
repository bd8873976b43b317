//! Marks as words.

use civil_minutes::{day_of, read_minute};
use duty_core::{Mark, Marks, Minute, Params, day_start_of};
use outside::Word;
use std::alloc::Global;

/// The mark that a word and a minute tell.
fn mark_of(kind: &Word, at: Minute, day_start: u16) -> Result<Mark, &'static str> {
    match kind.as_str() {
        "split" => Ok(Mark::SplitRest { at }),
        "defer" if day_start < 1_440 => Ok(Mark::DeferDay {
            day: day_of(at, day_start),
        }),
        _ => Err("mark\n"),
    }
}

/// The marks that the words tell, two words a mark: its kind and its time.
pub fn read_marks(alloc: Global, words: &[Word], params: Params) -> Result<Marks, &'static str> {
    let day_start = day_start_of(params);
    let mut marks = Marks::new(alloc);
    for k in 0..words.len() / 2 {
        let at = read_minute(words[2 * k + 1].as_str().as_bytes()).map_err(|_| "time\n")?;
        let mark = mark_of(&words[2 * k], at, day_start)?;
        marks.push(mark).map_err(|_| "memory\n")?;
    }
    Ok(marks)
}
