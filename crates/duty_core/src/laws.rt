//! What holds of every history and its marks, by whole rule books. The functions do nothing: their
//! clauses are the laws.
ghost use Rattle.std.specs.Prelude.{◌≡◌, ◌↔◌, ℕ, ℤ, pos, ◌+◌, ◌*◌, ◌<◌, ◌≤◌, Bool, true, List, [], ◌++◌, replicate, All, Contains};
ghost use Rattle.duty_core.specs.declared.activity.Activity.{Activity};
ghost use Rattle.duty_core.specs.declared.limits.TheConstants.{AU_11H_DUTY, AU_11H_PERIOD, AU_14D_DUTY, AU_14D_NIGHTS, AU_14D_PERIOD, AU_24H_DUTY, AU_24H_PERIOD, AU_24H_REST, AU_5H30_DUTY, AU_5H30_PERIOD, AU_7D_DUTY, AU_7D_PERIOD, AU_7D_REST, AU_8H_DUTY, AU_8H_PERIOD, AU_LONG_START, AU_NIGHT_AFTER, AU_NIGHT_BEFORE, AU_NIGHT_LONG_REST, AU_NIGHT_REST, AU_SHORT_START, CA_BLOCK_LEAST, CA_BOTH_LOST_LIMIT, CA_CYCLE_1, CA_CYCLE_1_DAYS, CA_CYCLE_1_LIMIT, CA_CYCLE_1_RESET, CA_CYCLE_2, CA_CYCLE_2_DAYS, CA_CYCLE_2_LIMIT, CA_CYCLE_2_RESET, CA_DAY_DRIVING_LIMIT, CA_DAY_DUTY_LIMIT, CA_DAY_OFF, CA_DAY_OFF_WITHIN, CA_DEFERRED_LOST_LIMIT, CA_ELAPSED_LIMIT, CA_FULL_REST, CA_LOST_LIMIT, CA_PAIR_LEAST, CA_SHIFT_DRIVING_LIMIT, CA_SHIFT_DUTY_LIMIT, CA_SPLIT_LEAST, CA_WITHOUT_DAY_OFF_LIMIT, DAY_MINUTES, PADDING_DAYS, PADDING_MINUTES, US_BREAK, US_DRIVING_LIMIT, US_FULL_REST, US_LONG_WEEK, US_LONG_WEEK_LIMIT, US_PAIR_BERTH, US_PAIR_LEAST, US_RESTART, US_SHORT_WEEK, US_SHORT_WEEK_LIMIT, US_SPLIT_LEAST, US_UNBROKEN_LIMIT, US_WINDOW_LIMIT};
ghost use Rattle.duty_core.specs.declared.mark.Mark.{Mark};
ghost use Rattle.duty_core.specs.declared.params.RestWay.{RestWay};
ghost use Rattle.duty_core.specs.Activity.{rests, works};
ghost use Rattle.duty_core.specs.Params.{unit_minutes, day_units, has_berth, BeginsUnit};
ghost use Rattle.duty_core.specs.History.{unit_at, pad_units, padded};
ghost use Rattle.duty_core.specs.RestRun.{IsLongRun};
ghost use Rattle.duty_core.specs.Day.{day_start, minute_at, day_number, IsNumberOfDay, IsFirstOfDays};
ghost use Rattle.duty_core.specs.Counting.{IsLastEnd, IsDaysBase};
ghost use Rattle.duty_core.specs.Marks.{AreInOrder, AreMarks, IsMinuteOf, IsSplitAt};
ghost use Rattle.duty_core.specs.DeclaredRest.{IsSplitRest};
ghost use Rattle.duty_core.specs.Base.{IsBase};
ghost use Rattle.duty_core.specs.UsRules.{IsLastBreak, us_week_limit};
ghost use Rattle.duty_core.specs.CaCycle.{cycle_days, cycle_limit, cycle_reset};
ghost use Rattle.duty_core.specs.LostMinutes.{lost};
ghost use Rattle.duty_core.specs.Deferral.{IsDeferWay};
ghost use Rattle.duty_core.specs.MarkMeaning.{NamesRun, IsLostDay, StandsIn};
ghost use Rattle.duty_core.specs.DayMeaning.{BeginsDay, LiesInDay, HasDayDuty, duty_of};
ghost use Rattle.duty_core.specs.RuleBooks.{KeepsAll, IsLawfulByBook};
ghost use Rattle.duty_core.specs.PlainlyBetter.{IsPlainlyBetter};

use crate::params::Params;

/// Each front of a lawful history is lawful: what a driver does later makes nothing unlawful that
/// was done before. The front keeps the book with those marks of the whole history that stand for
/// something in it: a rest that has ended there, or a day that loses too many minutes there.
pub fn front_is_lawful(params: Params)
    ensures kept { (first : ℕ) (h g : List Activity) (marks : List Mark) → KeepsAll params first (h ++ g) marks →
        (kept : List Mark) × ((m : Mark) → Contains kept m ↔ (Contains marks m × StandsIn params first (padded params h) m)) ×
        KeepsAll params first h kept }
    ensures lawful { (first : ℕ) (h g : List Activity) → IsLawfulByBook params first (h ++ g) → IsLawfulByBook params first h }
{
    let _ = params;
}

/// A lawful history with rest after it is lawful, with the same marks, however long the rest is
/// and whether it is in a berth or not.
pub fn rest_after_is_lawful(params: Params)
    ensures kept { (first : ℕ) (h rest : List Activity) (marks : List Mark) → All (λ x. rests x ≡ true) rest →
        KeepsAll params first h marks → KeepsAll params first (h ++ rest) marks }
    ensures lawful { (first : ℕ) (h rest : List Activity) → All (λ x. rests x ≡ true) rest →
        IsLawfulByBook params first h → IsLawfulByBook params first (h ++ rest) }
{
    let _ = params;
}

/// The empty history is lawful without marks.
pub fn empty_is_lawful(params: Params)
    ensures kept { (first : ℕ) → KeepsAll params first [] [] }
    ensures lawful { (first : ℕ) → IsLawfulByBook params first [] }
{
    let _ = params;
}

/// Under the way `defer` a lawful history has one list of marks. A day is marked exactly where it
/// loses more minutes than a day may that is in no deferral.
pub fn deferral_leaves_no_choice(params: Params)
    ensures days { (first : ℕ) (h : List Activity) (marks : List Mark) → IsDeferWay params → KeepsAll params first h marks →
        (date : ℤ) (number : ℕ) → IsNumberOfDay date number →
        Contains marks (Mark.DeferDay date) ↔ (CA_LOST_LIMIT < lost (day_number params first) (padded params h) number) }
    ensures one { (first : ℕ) (h : List Activity) (marks others : List Mark) → IsDeferWay params →
        KeepsAll params first h marks → KeepsAll params first h others → marks ≡ others }
{
    let _ = params;
}

/// A rest of full length is never split. A history is unlawful with a mark that names one, and no
/// run is both a split rest and a full one.
pub fn full_rest_is_not_split(params: Params)
    ensures united_states { (berth : Bool) (days start first : ℕ) (h : List Activity) (marks : List Mark) (at from to : ℕ) →
        IsMinuteOf (Params.UsProperty berth days start) first at from →
        IsLongRun US_FULL_REST (padded (Params.UsProperty berth days start) h) from to →
        Contains marks (Mark.SplitRest at) → KeepsAll (Params.UsProperty berth days start) first h marks → ⊥ }
    ensures canada { (berth : Bool) (way : RestWay) (cycle start first : ℕ) (h : List Activity) (marks : List Mark) (at from to : ℕ) →
        IsMinuteOf (Params.Canada berth way cycle start) first at from →
        IsLongRun CA_FULL_REST (padded (Params.Canada berth way cycle start) h) from to →
        Contains marks (Mark.SplitRest at) → KeepsAll (Params.Canada berth way cycle start) first h marks → ⊥ }
    ensures apart { (full first : ℕ) (p : List Activity) (marks : List Mark) (from to : ℕ) →
        IsSplitRest full p (IsSplitAt params first marks) from to → IsLongRun full p from to → ⊥ }
{
    let _ = params;
}

/// Each mark of a lawful history names something that is there. A mark of a rest names a rest run
/// that has ended, in a truck with a berth, and not under the way `defer`. A mark of a day names
/// one that loses too many minutes, under the way `defer` alone, so that there is none in the
/// United States. Australia takes no marks.
pub fn marks_name_what_is_there(params: Params)
    ensures run { (first : ℕ) (h : List Activity) (marks : List Mark) (at : ℕ) → KeepsAll params first h marks →
        Contains marks (Mark.SplitRest at) → NamesRun params first (padded params h) at }
    ensures berth { (first : ℕ) (h : List Activity) (marks : List Mark) (at : ℕ) → KeepsAll params first h marks →
        Contains marks (Mark.SplitRest at) → has_berth params ≡ true }
    ensures no_split { (first : ℕ) (h : List Activity) (marks : List Mark) (at : ℕ) → KeepsAll params first h marks →
        Contains marks (Mark.SplitRest at) → IsDeferWay params → ⊥ }
    ensures lost_day { (first : ℕ) (h : List Activity) (marks : List Mark) (date : ℤ) → KeepsAll params first h marks →
        Contains marks (Mark.DeferDay date) → IsLostDay (day_number params first) (padded params h) date }
    ensures defer_way { (first : ℕ) (h : List Activity) (marks : List Mark) (date : ℤ) → KeepsAll params first h marks →
        Contains marks (Mark.DeferDay date) → IsDeferWay params }
    ensures australia { (first : ℕ) (h : List Activity) (marks : List Mark) → KeepsAll Params.Hvnl first h marks → marks ≡ [] }
{
    let _ = params;
}

/// Their order fixes a list of marks: the marks of a book are strictly increasing in time, and two
/// such lists with the same members are equal.
pub fn order_fixes_marks(params: Params)
    ensures in_order { (marks : List Mark) → AreMarks params marks → AreInOrder params marks }
    ensures one { (marks others : List Mark) → AreInOrder params marks → AreInOrder params others →
        ((m : Mark) → Contains marks m ↔ Contains others m) → marks ≡ others }
{
    let _ = params;
}

/// A history that is in the berth throughout is plainly better than itself, in a truck with a berth
/// and without: the rest before it, which is not in the berth, stands in the way of nothing.
pub fn rest_in_the_berth_is_plainly_better()
    ensures united_states { (berth : Bool) (days start first n : ℕ) →
        IsPlainlyBetter (Params.UsProperty berth days start) first (replicate n Activity.Berth) [] (replicate n Activity.Berth) [] }
    ensures canada { (berth : Bool) (way : RestWay) (cycle start first n : ℕ) →
        IsPlainlyBetter (Params.Canada berth way cycle start) first (replicate n Activity.Berth) [] (replicate n Activity.Berth) [] }
{}

/// The number of a place's day is that of its civil minute: the day of that number has begun there,
/// with 1,440 minutes from the book's start of days on, and the next one has not. A unit of a
/// history is a minute in the United States and in Canada, and a quarter of an hour in Australia,
/// where days begin at midnight. The number never falls, and rises by one exactly at the first unit
/// of a day.
pub fn days_follow_minutes(params: Params)
    ensures date { (first i n : ℕ) (date : ℤ) → day_start params ≤ DAY_MINUTES → IsNumberOfDay date n →
        (day_number params first i ≡ n) ↔ LiesInDay (day_start params) date (minute_at params first i) }
    ensures united_states { (berth : Bool) (days start first k : ℕ) →
        (minute_at (Params.UsProperty berth days start) first (pad_units (Params.UsProperty berth days start) + k) ≡ pos (first + k)) ×
        (day_start (Params.UsProperty berth days start) ≡ start) }
    ensures canada { (berth : Bool) (way : RestWay) (cycle start first k : ℕ) →
        (minute_at (Params.Canada berth way cycle start) first (pad_units (Params.Canada berth way cycle start) + k) ≡ pos (first + k)) ×
        (day_start (Params.Canada berth way cycle start) ≡ start) }
    ensures australia { (first k : ℕ) →
        (minute_at Params.Hvnl first (pad_units Params.Hvnl + k) ≡ pos (first + 15 * k)) × (day_start Params.Hvnl ≡ 0) }
    ensures never_falls { (first j k : ℕ) → j ≤ k → day_number params first j ≤ day_number params first k }
    ensures rises { (first i : ℕ) (date : ℤ) → day_start params ≤ DAY_MINUTES →
        BeginsDay (day_start params) date (minute_at params first (i + 1)) →
        day_number params first (i + 1) ≡ day_number params first i + 1 }
    ensures stays { (first i : ℕ) → day_start params ≤ DAY_MINUTES → BeginsUnit params first →
        ((date : ℤ) → BeginsDay (day_start params) date (minute_at params first (i + 1)) → ⊥) →
        day_number params first (i + 1) ≡ day_number params first i }
    ensures first_unit { (first i : ℕ) →
        (day_number params first (i + 1) ≡ day_number params first i + 1) ↔ IsFirstOfDays (day_number params first) 1 (i + 1) (i + 1) }
{
    let _ = params;
}

/// The duty of a day so far is one number. It grows by one with each unit of duty of the day, stays
/// at any other, and starts anew at the first unit of a day. A day has at most the duty of all its
/// units.
pub fn duty_starts_anew_each_day(params: Params)
    ensures told { (first i : ℕ) (p : List Activity) → (n : ℕ) × HasDayDuty (day_number params first) p i n }
    ensures one { (first i n m : ℕ) (p : List Activity) → HasDayDuty (day_number params first) p i n →
        HasDayDuty (day_number params first) p i m → n ≡ m }
    ensures grows { (first i n : ℕ) (p : List Activity) → day_number params first (i + 1) ≡ day_number params first i →
        HasDayDuty (day_number params first) p i n →
        HasDayDuty (day_number params first) p (i + 1) (n + duty_of (unit_at p (i + 1))) }
    ensures anew { (first i : ℕ) (p : List Activity) → day_number params first (i + 1) ≡ day_number params first i + 1 →
        HasDayDuty (day_number params first) p (i + 1) (duty_of (unit_at p (i + 1))) }
    ensures most { (first i n : ℕ) (p : List Activity) → HasDayDuty (day_number params first) p i n → n ≤ day_units params }
{
    let _ = params;
}

/// Rules that count to a unit of duty count from one place, and there is such a place, so that none
/// of them is empty: the base, with what elapsed time omits, and the end of the last rest run of a
/// given length, for each length that the padding has; the last break; and the first unit that
/// counts of the last days since the last restart.
pub fn counts_have_one_base(params: Params)
    ensures base { (full first : ℕ) (h : List Activity) (marks : List Mark) (i : ℕ) → 0 < full → full ≤ pad_units params →
        works (unit_at (padded params h) i) ≡ true →
        (base : ℕ) × (omitted : ℕ) × IsBase full (padded params h) (IsSplitAt params first marks) i base omitted }
    ensures one_base { (full first : ℕ) (p : List Activity) (marks : List Mark) (i base omitted other another : ℕ) →
        IsBase full p (IsSplitAt params first marks) i base omitted →
        IsBase full p (IsSplitAt params first marks) i other another → (base ≡ other) × (omitted ≡ another) }
    ensures last_end { (least : ℕ) (h : List Activity) (i : ℕ) → 0 < least → least ≤ pad_units params →
        works (unit_at (padded params h) i) ≡ true → (to : ℕ) × IsLastEnd least (padded params h) i to }
    ensures one_end { (least : ℕ) (p : List Activity) (i to other : ℕ) → IsLastEnd least p i to → IsLastEnd least p i other → to ≡ other }
    ensures last_break { (h : List Activity) (i : ℕ) → works (unit_at (padded params h) i) ≡ true →
        (to : ℕ) × IsLastBreak (padded params h) i to }
    ensures one_break { (p : List Activity) (i to other : ℕ) → IsLastBreak p i to → IsLastBreak p i other → to ≡ other }
    ensures days { (first days restart : ℕ) (h : List Activity) (i : ℕ) → 0 < days → 0 < restart → restart ≤ pad_units params →
        works (unit_at (padded params h) i) ≡ true →
        (from : ℕ) × IsDaysBase (day_number params first) days restart (padded params h) i from }
    ensures one_days { (first days restart : ℕ) (p : List Activity) (i from other : ℕ) →
        IsDaysBase (day_number params first) days restart p i from →
        IsDaysBase (day_number params first) days restart p i other → from ≡ other }
    ensures first_of_day { (first i : ℕ) → (from : ℕ) × IsFirstOfDays (day_number params first) 1 i from }
    ensures one_first { (first i from other : ℕ) → IsFirstOfDays (day_number params first) 1 i from →
        IsFirstOfDays (day_number params first) 1 i other → from ≡ other }
{
    let _ = params;
}

/// The numbers of the rules, as the regulations name them: of the United States and of Canada in
/// minutes, of Australia in quarters of an hour. The definitions of the rules take theirs from here.
pub fn rules_have_these_numbers()
    // the United States: 49 CFR 395.3 and 395.1(g)(1)
    ensures us_full_rest { US_FULL_REST ≡ 600 }
    ensures us_window { US_WINDOW_LIMIT ≡ 840 }
    ensures us_driving { US_DRIVING_LIMIT ≡ 660 }
    ensures us_break { (US_BREAK ≡ 30) × (US_UNBROKEN_LIMIT ≡ 480) }
    ensures us_weeks { (US_SHORT_WEEK ≡ 7) × (US_LONG_WEEK ≡ 8) }
    ensures us_short_week { (US_SHORT_WEEK_LIMIT ≡ 3600) × (us_week_limit 7 ≡ 3600) }
    ensures us_long_week { (US_LONG_WEEK_LIMIT ≡ 4200) × (us_week_limit 8 ≡ 4200) }
    ensures us_restart { US_RESTART ≡ 2040 }
    ensures us_split_rest { US_SPLIT_LEAST ≡ 120 }
    ensures us_pair { (US_PAIR_LEAST ≡ 600) × (US_PAIR_BERTH ≡ 420) }
    // Canada: SOR/2005-313, sections 12 to 28
    ensures ca_full_rest { CA_FULL_REST ≡ 480 }
    ensures ca_day { (CA_DAY_DRIVING_LIMIT ≡ 780) × (CA_DAY_DUTY_LIMIT ≡ 840) }
    ensures ca_shift { (CA_SHIFT_DRIVING_LIMIT ≡ 780) × (CA_SHIFT_DUTY_LIMIT ≡ 840) }
    ensures ca_elapsed { CA_ELAPSED_LIMIT ≡ 960 }
    ensures ca_day_rest { (CA_LOST_LIMIT ≡ 840) × (CA_BLOCK_LEAST ≡ 30) }
    ensures ca_deferral { (CA_DEFERRED_LOST_LIMIT ≡ 960) × (CA_BOTH_LOST_LIMIT ≡ 1680) }
    ensures ca_split_rest { CA_SPLIT_LEAST ≡ 120 }
    ensures ca_pair { CA_PAIR_LEAST ≡ 600 }
    ensures ca_day_off { (CA_DAY_OFF ≡ 1440) × (CA_DAY_OFF_WITHIN ≡ 20160) }
    ensures ca_cycles { (CA_CYCLE_1 ≡ 1) × (CA_CYCLE_2 ≡ 2) }
    ensures ca_cycle_1 { (CA_CYCLE_1_DAYS ≡ 7) × (cycle_days 1 ≡ 7) }
    ensures ca_cycle_1_duty { (CA_CYCLE_1_LIMIT ≡ 4200) × (cycle_limit 1 ≡ 4200) }
    ensures ca_cycle_1_reset { (CA_CYCLE_1_RESET ≡ 2160) × (cycle_reset 1 ≡ 2160) }
    ensures ca_cycle_2 { (CA_CYCLE_2_DAYS ≡ 14) × (cycle_days 2 ≡ 14) }
    ensures ca_cycle_2_duty { (CA_CYCLE_2_LIMIT ≡ 7200) × (cycle_limit 2 ≡ 7200) }
    ensures ca_cycle_2_reset { (CA_CYCLE_2_RESET ≡ 4320) × (cycle_reset 2 ≡ 4320) }
    ensures ca_without_day_off { CA_WITHOUT_DAY_OFF_LIMIT ≡ 4200 }
    // Australia: Heavy Vehicle (Fatigue Management) National Regulation, Schedule 1
    ensures au_unit { (unit_minutes Params.Hvnl ≡ 15) × (day_units Params.Hvnl ≡ 96) }
    ensures au_starts { (AU_SHORT_START ≡ 1) × (AU_LONG_START ≡ 28) }
    ensures au_5h30 { (AU_5H30_PERIOD ≡ 22) × (AU_5H30_DUTY ≡ 21) }
    ensures au_8h { (AU_8H_PERIOD ≡ 32) × (AU_8H_DUTY ≡ 30) }
    ensures au_11h { (AU_11H_PERIOD ≡ 44) × (AU_11H_DUTY ≡ 40) }
    ensures au_24h { (AU_24H_PERIOD ≡ 96) × (AU_24H_DUTY ≡ 48) × (AU_24H_REST ≡ 28) }
    ensures au_7d { (AU_7D_PERIOD ≡ 672) × (AU_7D_DUTY ≡ 288) × (AU_7D_REST ≡ 96) }
    ensures au_14d { (AU_14D_PERIOD ≡ 1344) × (AU_14D_DUTY ≡ 576) }
    ensures au_nights { AU_14D_NIGHTS ≡ 4 }
    ensures au_night { (AU_NIGHT_BEFORE ≡ 8) × (AU_NIGHT_AFTER ≡ 32) }
    ensures au_night_break { (AU_NIGHT_REST ≡ 28) × (AU_NIGHT_LONG_REST ≡ 96) }
    // days, and the rest before and after a history
    ensures day { DAY_MINUTES ≡ 1440 }
    ensures day_units { (params : Params) → unit_minutes params * day_units params ≡ 1440 }
    ensures padding { (PADDING_DAYS ≡ 28) × (PADDING_MINUTES ≡ 40320) }
    ensures padding_units { (params : Params) → unit_minutes params * pad_units params ≡ 40320 }
{}
