//! Texts that are made piece by piece.
ghost use Rattle.std.specs.Prelude.{◌≡◌, ◌++◌, ◌<◌, ◌∷◌, [], ℕ, List, map, IfOk, OnOk};
ghost use Rattle.std.specs.Fmt.{decimal};
ghost use Rattle.civil_minutes.specs.Time.{IsTimeText, digit};
ghost use Rattle.civil_minutes.specs.declared.century.TheConstants.{MINUTES_OF_CENTURY};
ghost use Rattle.text_parts.specs.Parts.{clock_text, total_text, printable};

use civil_minutes::write_minute;
use duty_core::{Minute, NoMemory};
use std::alloc::Global;
use std::marker::Model;

/// A text, as bytes.
#[derive(Drop)]
pub struct Text {
    bytes: Vec<u8>,
}

impl Model for Text {
    ghost use Rattle.std.specs.Prelude.{List, ℕ};

    ghost Value = { List ℕ };

    ghost view = { λ text. text.bytes.items };
}

impl Text {
    /// A text of no bytes.
    pub fn new(alloc: Global) -> Text
        ensures { result ≡ [] }
    {
        Text {
            bytes: Vec::new(alloc),
        }
    }

    /// A text of its own.
    pub fn of(alloc: Global, text: &str) -> Result<Text, NoMemory>
        ensures { IfOk result (λ made. made ≡ text.now) }
    {
        Ok(Text {
            bytes: text.as_bytes().to_vec(alloc)?,
        })
    }

    /// The bytes of the text.
    pub fn as_bytes(&self) -> &[u8]
        ensures { result.now ≡ self.now }
    {
        self.bytes.as_slice()
    }

    /// Puts bytes after the text.
    pub fn push_bytes(&mut self, bytes: &[u8]) -> Result<(), NoMemory>
        ensures { OnOk result (self.new ≡ self.old ++ bytes.now) }
    {
        self.bytes.extend_from_slice(bytes)?;
        Ok(())
    }

    /// Puts a byte after the text.
    pub fn push_byte(&mut self, byte: u8) -> Result<(), NoMemory>
        ensures { OnOk result (self.new ≡ self.old ++ byte ∷ []) }
    {
        self.bytes.push(byte)?;
        Ok(())
    }

    /// Puts another text after it.
    pub fn push_str(&mut self, text: &str) -> Result<(), NoMemory>
        ensures { OnOk result (self.new ≡ self.old ++ text.now) }
    {
        self.push_bytes(text.as_bytes())
    }

    /// Puts a number after it, in decimal.
    pub fn push_number(&mut self, alloc: Global, number: u64) -> Result<(), NoMemory>
        ensures { OnOk result (self.new ≡ self.old ++ decimal number) }
    {
        let digits = number.to_string(alloc)?;
        self.push_str(digits.as_str())
    }

    /// Puts so many minutes after it, as hours and two digits of minutes.
    pub fn push_clock(&mut self, alloc: Global, minutes: u32) -> Result<(), NoMemory>
        ensures { OnOk result (self.new ≡ self.old ++ clock_text minutes) }
    {
        let hours = minutes / 60;
        let rest = minutes % 60;
        let clock = format!(in alloc; "{hours}:{rest:02}")?;
        self.push_str(clock.as_str())
    }

    /// Puts so many minutes after it, as two digits of hours and two of minutes.
    pub fn push_total(&mut self, minutes: u32) -> Result<(), NoMemory>
        requires { minutes < 6_000 }
        ensures { OnOk result (self.new ≡ self.old ++ total_text minutes) }
    {
        let hours = minutes / 60;
        let rest = minutes % 60;
        self.push_bytes(&[
            last_digit(hours / 10),
            last_digit(hours),
            b':',
            last_digit(rest / 10),
            last_digit(rest),
        ])
    }

    /// Puts the time of a civil minute after it, as `YYYY-MM-DDTHH:MM`.
    pub fn push_time(&mut self, at: Minute) -> Result<(), NoMemory>
        requires { at < MINUTES_OF_CENTURY }
        ensures { OnOk result ((time : List ℕ) × IsTimeText time at × (self.new ≡ self.old ++ time)) }
    {
        let time = write_minute(at);
        self.push_bytes(&time)
    }

    /// Puts bytes after it, with `?` for each that is not printable ASCII.
    pub fn push_printable(&mut self, alloc: Global, bytes: &[u8]) -> Result<(), NoMemory>
        ensures { OnOk result (self.new ≡ self.old ++ map printable bytes.now) }
    {
        let shown: Vec<u8> = bytes.iter().map(|byte| printable(*byte)).collect(alloc)?;
        self.push_bytes(&shown)
    }
}

/// The byte of a number's last decimal digit.
fn last_digit(number: u32) -> u8
    ensures { result ≡ digit number }
{
    b'0' + (number % 10) as u8
}

/// The byte where it is printable ASCII, or a space, and `?` else.
fn printable(byte: u8) -> u8
    ensures { result ≡ printable byte }
{
    if 0x20 <= byte && byte <= 0x7e {
        byte
    } else {
        b'?'
    }
}
