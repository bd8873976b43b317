//! Days that may stand for others.
ghost use Rattle.std.specs.Prelude.{◌≡◌, ◌+◌, ◌<◌, ◌↔◌, true};
ghost use Rattle.cycles_deferral.specs.DayMachine.{IsCanadaDays, days_begun};
ghost use Rattle.cycles_deferral.specs.DayCovers.{LosesNoMore, YesterdayCovers, IsMet, RestsAsLong, EndsAsWell, DaysCover};

use crate::days::{CanadaDays, DayCount, needed};
use duty_core::{CA_BOTH_LOST_LIMIT, CA_LOST_LIMIT, RestWay};

impl CanadaDays {
    /// Whether these days may stand for `other`, those of another history of the same length and
    /// first minute, whatever comes next. `new_day` tells whether the next minute begins a day.
    pub fn covers(self, other: CanadaDays, new_day: bool) -> bool
        requires good { IsCanadaDays self }
        requires other_good { IsCanadaDays other }
        ensures { (result ≡ true) ↔ DaysCover (days_begun new_day self) (days_begun new_day other) }
    {
        if new_day {
            self.turned().may_stand(other.turned())
        } else {
            self.may_stand(other)
        }
    }

    /// Whether these days may stand for `other`, both of the day of the next minute.
    fn may_stand(self, other: CanadaDays) -> bool
        requires good { IsCanadaDays self }
        requires other_good { IsCanadaDays other }
        ensures { (result ≡ true) ↔ DaysCover self other }
    {
        let same = same_way(self.way(), other.way()) && self.minute() == other.minute();
        let rested = other.rest() <= self.rest();
        let today = self.today().loses_no_more(other.today());
        let ends = self.before() <= CA_LOST_LIMIT || self.is_met() || self.ends_as_well(other);
        same && rested && today && self.yesterday_covers(other) && ends
    }

    /// Whether yesterday asks nothing any more, since it loses too little for a deferral and cannot
    /// lose more; or loses no more than that of `other`, and today has had all the rest that it may
    /// need, or no shorter longest rest.
    fn yesterday_covers(self, other: CanadaDays) -> bool
        requires good { IsCanadaDays self }
        requires other_good { IsCanadaDays other }
        ensures { (result ≡ true) ↔ YesterdayCovers self other }
    {
        let yesterday = self.yesterday();
        let kept = yesterday.lost + yesterday.short <= CA_LOST_LIMIT;
        let longest = self.today().longest;
        let had = needed(yesterday.lost + yesterday.short) <= longest;
        let rested = had || other.today().longest <= longest;
        kept || (yesterday.loses_no_more(other.yesterday()) && rested)
    }

    /// Whether a deferral from the day before yesterday is met already: yesterday has had all the
    /// rest that it needs, and cannot lose too much with that day any more.
    fn is_met(self) -> bool
        requires good { IsCanadaDays self }
        ensures { (result ≡ true) ↔ IsMet self }
    {
        let yesterday = self.yesterday();
        let both = self.before() + (yesterday.lost + yesterday.short);
        needed(self.before()) <= yesterday.longest && both <= CA_BOTH_LOST_LIMIT
    }

    /// Whether a deferral from the day before yesterday ends as well.
    fn ends_as_well(self, other: CanadaDays) -> bool
        requires good { IsCanadaDays self }
        requires other_good { IsCanadaDays other }
        ensures { (result ≡ true) ↔ EndsAsWell self other }
    {
        let rested = needed(self.before()) <= self.yesterday().longest;
        let no_more = self.yesterday().loses_no_more(other.yesterday());
        self.before() <= other.before() && no_more && (rested || self.rests_as_long(other))
    }

    /// Whether the longest rest of yesterday is no shorter, and grows on where that of `other` does.
    fn rests_as_long(self, other: CanadaDays) -> bool
        ensures { (result ≡ true) ↔ RestsAsLong self other }
    {
        let longer = other.yesterday().longest <= self.yesterday().longest;
        longer && (!other.reaches() || self.reaches())
    }
}

impl DayCount {
    /// Whether no more minutes of the day are lost, both where rest follows and where duty does.
    fn loses_no_more(self, other: DayCount) -> bool
        requires lost { self.lost + self.short < 100000 }
        requires other_lost { other.lost + other.short < 100000 }
        ensures { (result ≡ true) ↔ LosesNoMore self other }
    {
        self.lost <= other.lost && self.lost + self.short <= other.lost + other.short
    }
}

/// Whether the ways are the same.
fn same_way(a: RestWay, b: RestWay) -> bool
    ensures { (result ≡ true) ↔ (a ≡ b) }
{
    matches!(
        (a, b),
        (RestWay::Split, RestWay::Split) | (RestWay::Defer, RestWay::Defer)
    )
}
