//! Planning of a tour after a log.
ghost use Rattle.std.specs.Prelude.{◌≡◌, ◌*◌, ◌≤◌, length, IfOk};
ghost use Rattle.duty_core.specs.Params.{unit_minutes};
ghost use Rattle.duty_core.specs.declared.limits.TheConstants.{LONGEST_LOG};
ghost use Rattle.rule_core.specs.Replay.{AreRootsOf};
ghost use Rattle.tour_model.specs.Schedule.{log_start};
ghost use Rattle.tour_model.specs.Tour.{IsTour};
ghost use Rattle.tour_plan.specs.Asked.{IsPlannable};
ghost use Rattle.tour_plan.specs.Planned.{IsBudget, IsLawfulLog, IsPlannedBy, IsPlanned};

use crate::audit::log_start;
use crate::certificate::bytes_of;
use crate::planned::Planned;
use duty_core::NoMemory;
use label_search::{Searched, search};
use rule_books::{BookUser, with_book};
use rule_core::{Replayed, Roots, RuleBook, replay};
use schedule_rebuild::rebuild;
use std::alloc::Global;
use timeline::Timeline;
use tour_model::Tour;

/// Plans the tour by a rule book, after a lawful log that left these roots.
fn plan_from<B: RuleBook>(
    alloc: Global,
    book: &B,
    tour: &Tour,
    log: &Timeline,
    roots: &Roots<B::State>,
    budget: u32,
) -> Result<Planned, NoMemory>
    requires tour { IsTour tour.now }
    requires params { (B.machine book.now).params ≡ tour.now.params }
    requires short { unit_minutes tour.now.params * length log.now ≤ LONGEST_LOG }
    requires lawful { IsLawfulLog tour.now log.now }
    requires roots { AreRootsOf (unit_minutes tour.now.params) (B.machine book.now) (log_start tour.now log.now) log.now roots.now }
    requires budget { IsBudget budget }
    ensures planned { IfOk result (IsPlannedBy tour.now log.now (B.machine book.now) budget) }
{
    match search(alloc, book, tour, roots.items(), budget)? {
        Searched::Found { layers, place } => {
            let schedule = rebuild(alloc, &layers, roots.items(), place)?;
            let cert = bytes_of(alloc, book, tour, log, &layers, Some(&schedule))?;
            Ok(Planned::Shortest { schedule, cert })
        }
        Searched::Never { layers } => Ok(Planned::Infeasible {
            cert: bytes_of(alloc, book, tour, log, &layers, None)?,
        }),
        Searched::Spent { layers: _ } => Ok(Planned::Spent),
    }
}

/// Plans the tour by a rule book, after the log.
fn plan_by<B: RuleBook>(
    alloc: Global,
    book: &B,
    tour: &Tour,
    log: &Timeline,
    budget: u32,
) -> Result<Planned, NoMemory>
    requires tour { IsTour tour.now }
    requires params { (B.machine book.now).params ≡ tour.now.params }
    requires short { unit_minutes tour.now.params * length log.now ≤ LONGEST_LOG }
    requires budget { IsBudget budget }
    ensures planned { IfOk result (IsPlannedBy tour.now log.now (B.machine book.now) budget) }
{
    match replay(alloc, book, log, log_start(tour, log))? {
        Replayed::Lawful(roots) => plan_from(alloc, book, tour, log, &roots, budget),
        Replayed::Unlawful { unit } => Ok(Planned::Unlawful { unit }),
    }
}

/// A tour to be planned after a log, with a budget of labels.
#[derive(Drop)]
struct TourPlan<'a> {
    alloc: Global,
    tour: &'a Tour,
    log: &'a Timeline,
    budget: u32,
}

impl BookUser for TourPlan<'_> {
    type Answer = Result<Planned, NoMemory>;

    ghost asks = { λ self params. IsPlannable self.tour.now self.log.now self.budget params };

    ghost gives = { λ self m answer. IfOk answer (IsPlannedBy self.tour.now self.log.now m self.budget) };

    fn use_book<B: RuleBook>(self, book: &B) -> Result<Planned, NoMemory> {
        plan_by(self.alloc, book, self.tour, self.log, self.budget)
    }
}

/// Plans the tour after the log, by the rule book of the tour's parameters.
///
/// The log ends where the tour starts. `Unlawful` comes exactly where it is not lawful. Else, unless
/// the search keeps `budget` labels, `Shortest` comes exactly where there is a solution and
/// `Infeasible` where there is none, each with the bytes of a valid certificate of at most
/// `CERT_LIMIT` bytes. `Spent` comes only where there are at least `budget` labels, so a budget above
/// the tour's number of labels is never spent. `NoMemory` where there is none for the labels or the
/// bytes.
pub fn plan_tour(
    alloc: Global,
    tour: &Tour,
    log: &Timeline,
    budget: u32,
) -> Result<Planned, NoMemory>
    requires tour { IsTour tour.now }
    requires short { unit_minutes tour.now.params * length log.now ≤ LONGEST_LOG }
    requires budget { IsBudget budget }
    ensures { IfOk result (IsPlanned tour.now log.now budget) }
{
    let plan = TourPlan {
        alloc,
        tour,
        log,
        budget,
    };
    with_book(alloc, tour.params, plan)
}
