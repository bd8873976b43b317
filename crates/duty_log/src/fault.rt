//! What can be wrong with a log.
ghost use Rattle.std.specs.Prelude.{◌≡◌, true};
ghost use Rattle.csv.specs.Reading.{error_kind, stops_reader};
ghost use Rattle.duty_log.specs.declared.fault.LogFault.TheVariants.{Memory};

use csv::ErrorKind;
use duty_core::NoMemory;
use thiserror::Error;

/// The first thing that is wrong with a log. Rows are looked at in their order, and each row in the
/// order of this list. `row` counts from 1, after the header.
#[derive(Clone, Copy, Debug, PartialEq, Eq, Error)]
pub enum LogFault {
    /// The log has more bytes than `LOG_LIMIT`.
    #[error("the log is too big")]
    TooBig,
    /// The first record is not `from,to,status`, or there is none.
    #[error("the log does not begin with from,to,status")]
    BadHeader,
    /// The row has not three fields.
    #[error("row {row} of the log has not three fields")]
    NotCsv { row: u32 },
    /// The row's `from` or `to` is no time.
    #[error("row {row} of the log has a bad time")]
    BadTime { row: u32 },
    /// The row's `status` is no word of the book.
    #[error("row {row} of the log has a bad status")]
    BadStatus { row: u32 },
    /// The row's `to` is not after its `from`.
    #[error("row {row} of the log is empty")]
    Empty { row: u32 },
    /// The row does not begin where the row before it ends.
    #[error("row {row} of the log does not follow the row before")]
    Gap { row: u32 },
    /// The row does not begin and end with a unit of the book.
    #[error("row {row} of the log is not on the book's units")]
    NotOnUnit { row: u32 },
    /// The row ends more than `LONGEST_LOG` minutes after the first row begins.
    #[error("row {row} of the log is too long after the first")]
    TooLong { row: u32 },
    /// The last row does not end where the tour starts.
    #[error("the log does not end at the start of the tour")]
    EndsElsewhere,
    /// There was no memory for what the log says, or the bytes could not be had.
    #[error("there is no memory for the log")]
    Memory,
}

impl From<NoMemory> for LogFault {
    ghost from_gives = { λ _ fault. fault ≡ Memory };

    fn from(_: NoMemory) -> LogFault {
        LogFault::Memory
    }
}

/// The fault where a read of CSV failed: the reader under it did, or memory ran out. `csv` asks
/// nothing else of bytes, where records may be of any length.
pub fn unread(error: csv::Error) -> LogFault
    requires { stops_reader (error_kind error) ≡ true }
    ensures { result ≡ LogFault.Memory }
{
    match error.kind() {
        ErrorKind::Io(_) | ErrorKind::OutOfMemory => LogFault::Memory,
        ErrorKind::Utf8 { .. }
        | ErrorKind::UnequalLengths { .. }
        | ErrorKind::Serialize(_)
        | ErrorKind::Deserialize { .. } => unreachable!(),
    }
}
