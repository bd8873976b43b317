//! The rules of the three books, by name.
ghost use Rattle.duty_core.specs.RuleNames.{rule_name};
ghost use Rattle.std.specs.Prelude.{◌≡◌};

/// A rule of a book, in the order of the books.
#[derive(Clone, Copy, Debug, PartialEq, Eq)]
pub enum Rule {
    /// US-WINDOW14: driving within fourteen hours of the base.
    UsWindow14,
    /// US-DRIVE11: at most eleven hours of driving since the base.
    UsDrive11,
    /// US-BREAK8: at most eight hours of driving without a break.
    UsBreak8,
    /// US-WEEK: at most sixty or seventy hours of duty in seven or eight days.
    UsWeek,
    /// US-PAIR: split rests in the berth, two by two.
    UsPair,
    /// CA-DAY13: at most thirteen hours of driving in a day.
    CaDay13,
    /// CA-DAY14: driving within fourteen hours of duty in a day.
    CaDay14,
    /// CA-SHIFT13: at most thirteen hours of driving since the base.
    CaShift13,
    /// CA-SHIFT14: driving within fourteen hours of duty since the base.
    CaShift14,
    /// CA-ELAPSED16: driving within sixteen hours of the base.
    CaElapsed16,
    /// CA-OFF10: ten hours of rest in a day, in blocks of half an hour or more.
    CaOff10,
    /// CA-DEFER: rest of a day that is deferred to the next day.
    CaDefer,
    /// CA-PAIR: split rests in the berth, two by two.
    CaPair,
    /// CA-24IN14: twenty-four hours of rest in fourteen days.
    Ca24in14,
    /// CA-CYCLE: driving within seventy hours of duty in seven days, or a hundred and twenty in
    /// fourteen.
    CaCycle,
    /// CA-70WITHOUT24: in cycle 2, driving within seventy hours of duty since twenty-four hours of
    /// rest.
    Ca70without24,
    /// AU-5H30: work in five and a half hours.
    Au5h30,
    /// AU-8H: work in eight hours.
    Au8h,
    /// AU-11H: work in eleven hours.
    Au11h,
    /// AU-24H: work in twenty-four hours.
    Au24h,
    /// AU-24H-REST: seven hours of rest in twenty-four hours.
    Au24hRest,
    /// AU-7D: work in seven days.
    Au7d,
    /// AU-7D-REST: twenty-four hours of rest in seven days.
    Au7dRest,
    /// AU-14D: work in fourteen days.
    Au14d,
    /// AU-14D-NIGHTS: breaks at night in fourteen days.
    Au14dNights,
}

impl Rule {
    /// The rule's name, as reports and answers tell it: `US-WINDOW14`.
    pub fn name(self) -> &'static str
        ensures { result.now ≡ rule_name self }
    {
        match self {
            Rule::UsWindow14 => "US-WINDOW14",
            Rule::UsDrive11 => "US-DRIVE11",
            Rule::UsBreak8 => "US-BREAK8",
            Rule::UsWeek => "US-WEEK",
            Rule::UsPair => "US-PAIR",
            Rule::CaDay13 => "CA-DAY13",
            Rule::CaDay14 => "CA-DAY14",
            Rule::CaShift13 => "CA-SHIFT13",
            Rule::CaShift14 => "CA-SHIFT14",
            Rule::CaElapsed16 => "CA-ELAPSED16",
            Rule::CaOff10 => "CA-OFF10",
            Rule::CaDefer => "CA-DEFER",
            Rule::CaPair => "CA-PAIR",
            Rule::Ca24in14 => "CA-24IN14",
            Rule::CaCycle => "CA-CYCLE",
            Rule::Ca70without24 => "CA-70WITHOUT24",
            Rule::Au5h30 => "AU-5H30",
            Rule::Au8h => "AU-8H",
            Rule::Au11h => "AU-11H",
            Rule::Au24h => "AU-24H",
            Rule::Au24hRest => "AU-24H-REST",
            Rule::Au7d => "AU-7D",
            Rule::Au7dRest => "AU-7D-REST",
            Rule::Au14d => "AU-14D",
            Rule::Au14dNights => "AU-14D-NIGHTS",
        }
    }
}
