//! The fields of a tour's form.
ghost use Rattle.std.specs.Prelude.{◌≡◌};
ghost use Rattle.tour_reader.specs.Fields.{key};

/// A field of a tour, or of one of its stops.
#[derive(Clone, Copy, Debug, PartialEq, Eq)]
pub enum Field {
    /// `book`: the rule book, `"us"`, `"canada"` or `"hvnl"`.
    Book,
    /// `grid`: the length of a step, in minutes.
    Grid,
    /// `start`: the time at which the first step begins.
    Start,
    /// `berth`: whether the truck has a sleeper berth.
    Berth,
    /// `days`: the days of the United States' weekly limit.
    Days,
    /// `rest`: how a Canadian history parts its rest, `"split"` or `"defer"`.
    Rest,
    /// `cycle`: the number of the Canadian cycle.
    Cycle,
    /// `day_start`: the time of day at which a day begins.
    DayStart,
    /// `stops`: the stops, in their order.
    Stops,
    /// `name` of a stop.
    Name,
    /// `drive` of a stop: the driving to it, in minutes.
    Drive,
    /// `service` of a stop: the service there, in minutes.
    Service,
    /// `windows` of a stop: the times from and to which its service may begin.
    Windows,
}

/// The fields of a stop, in the order in which their faults are told.
pub(crate) const STOP_FIELDS: [Field; 4] = [
    Field::Name,
    Field::Drive,
    Field::Service,
    Field::Windows,
];

impl Field {
    /// The field's name in a form.
    pub fn key(self) -> &'static str
        ensures { result.now ≡ key self }
    {
        match self {
            Field::Book => "book",
            Field::Grid => "grid",
            Field::Start => "start",
            Field::Berth => "berth",
            Field::Days => "days",
            Field::Rest => "rest",
            Field::Cycle => "cycle",
            Field::DayStart => "day_start",
            Field::Stops => "stops",
            Field::Name => "name",
            Field::Drive => "drive",
            Field::Service => "service",
            Field::Windows => "windows",
        }
    }
}
