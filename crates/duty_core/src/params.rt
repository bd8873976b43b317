//! The parameters of a rule book.
ghost use Rattle.std.specs.Prelude.{◌≡◌};
ghost use Rattle.duty_core.specs.Params.{terms_of, unit_minutes, has_berth, allows};
ghost use Rattle.duty_core.specs.Day.{day_start};

use crate::activity::Activity;

/// How a Canadian tour's history may part its rest. A tour states one way, never both.
#[derive(Clone, Copy, Debug, PartialEq, Eq)]
pub enum RestWay {
    /// Rest is split in a sleeper berth (SOR/2005-313, section 18).
    Split,
    /// Rest is deferred to the next day (SOR/2005-313, section 16).
    Defer,
}

/// The parameters of a rule book.
///
/// `berth` tells whether the truck has a sleeper berth, and `day_start` the minute, below 1,440, at
/// which a day begins.
#[derive(Clone, Copy, Debug, PartialEq, Eq)]
pub enum Params {
    /// United States, property-carrying (49 CFR 395.3). `days` is 7 or 8.
    UsProperty {
        berth: bool,
        days: u8,
        day_start: u16,
    },
    /// Canada, south of 60°N (SOR/2005-313). `cycle` is 1 or 2.
    Canada {
        berth: bool,
        way: RestWay,
        cycle: u8,
        day_start: u16,
    },
    /// Australia, standard hours, solo (Heavy Vehicle (Fatigue Management) National Regulation).
    Hvnl {},
}

/// The length of the book's unit of time, in minutes: 15 for Australia, else 1.
pub fn unit_of(params: Params) -> u32
    ensures { result ≡ unit_minutes params }
{
    match params {
        Params::UsProperty { .. } | Params::Canada { .. } => 1,
        Params::Hvnl {} => 15,
    }
}

/// Whether the truck has a sleeper berth.
pub fn has_berth(params: Params) -> bool
    ensures { result ≡ has_berth params }
{
    match params {
        Params::UsProperty { berth, .. } | Params::Canada { berth, .. } => berth,
        Params::Hvnl {} => false,
    }
}

/// How many minutes after midnight a day of the book begins.
pub fn day_start_of(params: Params) -> u16
    ensures { result ≡ day_start params }
{
    match params {
        Params::UsProperty { day_start, .. } | Params::Canada { day_start, .. } => day_start,
        Params::Hvnl {} => 0,
    }
}

/// How the history may part its rest, in a book where a tour states one way.
pub fn way_of(params: Params) -> Option<RestWay>
    ensures { result ≡ (terms_of params).way }
{
    match params {
        Params::Canada { way, .. } => Some(way),
        Params::UsProperty { .. } | Params::Hvnl {} => None,
    }
}

/// Whether a schedule may hold the activity: duty, and the tour's rest, which is `Berth` where the
/// tour has a berth and `Off` where it has none.
pub fn allowed(params: Params, act: Activity) -> bool
    ensures { result ≡ allows params act }
{
    let berth = has_berth(params);
    match act {
        Activity::Drive | Activity::Serve | Activity::Wait => true,
        Activity::Off => !berth,
        Activity::Berth => berth,
    }
}
