//! The words of a book for what a driver does.
ghost use Rattle.std.specs.Prelude.{◌≡◌};
ghost use Rattle.duty_log.specs.Words.{activity_of, north_american_words, australian_words};
ghost use Rattle.std.specs.Map.{lookup};
ghost use Rattle.std.specs.Str.{bytes_eq};

use duty_core::{Activity, Params};

/// The activity that a status of a log stands for, if it is a word of the book.
pub fn activity_of(params: Params, status: &[u8]) -> Option<Activity>
    ensures { result ≡ activity_of params status.now }
{
    match params {
        Params::UsProperty { .. } | Params::Canada { .. } => north_american(status),
        Params::Hvnl {} => australian(status),
    }
}

/// The activity of a word of the United States and Canada.
fn north_american(status: &[u8]) -> Option<Activity>
    ensures { result ≡ lookup (bytes_eq status.now) north_american_words }
{
    if status == b"OFF".as_slice() {
        Some(Activity::Off)
    } else if status == b"SB".as_slice() {
        Some(Activity::Berth)
    } else if status == b"D".as_slice() {
        Some(Activity::Drive)
    } else if status == b"ON".as_slice() {
        Some(Activity::Serve)
    } else {
        None
    }
}

/// The activity of a word of Australia.
fn australian(status: &[u8]) -> Option<Activity>
    ensures { result ≡ lookup (bytes_eq status.now) australian_words }
{
    if status == b"REST".as_slice() {
        Some(Activity::Off)
    } else if status == b"WORK".as_slice() {
        Some(Activity::Serve)
    } else {
        None
    }
}
