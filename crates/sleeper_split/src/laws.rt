//! Laws of the counts, told of every history.
ghost use Rattle.sleeper_split.specs.Promises.{IsUsExact, IsCanadaExact, IsUsTracked, IsCanadaTracked, IsToldOnce, IsPairRules, IsReflexive, IsTransitive, IsLasting, IsSafeToRest, IsBetterCovered};

/// Some path of choices along a history of the United States, after its padding, declares split
/// rests at these places exactly where they may be split rests, each makes a pair with the next
/// full or split rest, and the window and the driving keep their limits at each minute of driving
/// (49 CFR 395.3(a)(2), 395.3(a)(3)(i), 395.1(g)(1)).
pub fn is_exact_in_united_states()
    ensures { IsUsExact }
{}

/// The same in Canada, with the limits of driving, of duty and of the elapsed time of a shift
/// (SOR/2005-313, sections 13 and 18).
pub fn is_exact_in_canada()
    ensures { IsCanadaExact }
{}

/// A path leads to a count that tells of the history and its split rests: the run in progress, the
/// split rest that waits, and what is used since the base.
pub fn tells_of_history()
    ensures us { IsUsTracked }
    ensures canada { IsCanadaTracked }
{}

/// The places where split rests are declared tell the path: two paths that declare the same ones
/// lead to one count.
pub fn is_told_by_places()
    ensures { IsToldOnce }
{}

/// A count may stand for itself, and for all that a count may stand for which it may stand for. In
/// both countries a full rest spent in the berth makes a pair with each split rest.
pub fn stands_in_order()
    ensures rules { IsPairRules }
    ensures same { IsReflexive }
    ensures over { IsTransitive }
{}

/// Where a count may stand for another, it has for each choice of the other, by an activity that a
/// schedule may hold, one by the same activity that may stand for it. The limits may be any that
/// are kept where no more is used.
pub fn stands_on()
    ensures { IsLasting }
{}

/// Where resting is safe, the tour's own rest leads to a count that may stand for each that another
/// activity leads to, and where resting is still safe.
pub fn rests_safely()
    ensures { IsSafeToRest }
{}

/// The count of a history may stand for that of another where the rest in progress, the counts since
/// the base and the split rest that waits are plainly better.
pub fn stands_for_plainly_worse()
    ensures { IsBetterCovered }
{}
