//! Whether a log is lawful.
ghost use Rattle.std.specs.Prelude.{◌≡◌, ◌+◌, ◌*◌, ◌≤◌, length, IfOk, MatchOption};
ghost use Rattle.duty_core.specs.Params.{unit_minutes};
ghost use Rattle.duty_core.specs.declared.limits.TheConstants.{LONGEST_LOG};
ghost use Rattle.rule_core.specs.Replay.{IsFirstUnlawful};
ghost use Rattle.tour_model.specs.Schedule.{log_start};
ghost use Rattle.tour_model.specs.Tour.{IsTour};
ghost use Rattle.tour_plan.specs.Asked.{IsAuditable};
ghost use Rattle.tour_plan.specs.Planned.{IsLawfulLog};

use duty_core::{Minute, NoMemory, unit_of};
use rule_books::{BookUser, with_book};
use rule_core::{Replayed, RuleBook, replay};
use std::alloc::Global;
use timeline::Timeline;
use tour_model::Tour;

/// The civil minute at which a log begins that ends where the tour starts.
pub fn log_start(tour: &Tour, log: &Timeline) -> Minute
    requires tour { IsTour tour.now }
    requires short { unit_minutes tour.now.params * length log.now ≤ LONGEST_LOG }
    ensures value { result ≡ log_start tour.now log.now }
    ensures ends { result + unit_minutes tour.now.params * length log.now ≡ tour.now.start }
{
    tour.start - unit_of(tour.params) * log.len()
}

/// The first unit of the log at which it breaks a rule of the book; None where it breaks none.
fn first_by<B: RuleBook>(
    alloc: Global,
    book: &B,
    tour: &Tour,
    log: &Timeline,
) -> Result<Option<u32>, NoMemory>
    requires tour { IsTour tour.now }
    requires params { (B.machine book.now).params ≡ tour.now.params }
    requires short { unit_minutes tour.now.params * length log.now ≤ LONGEST_LOG }
    ensures first { IfOk result (λ found. MatchOption found (IsLawfulLog tour.now log.now) (IsFirstUnlawful tour.now.params (log_start tour.now log.now) log.now)) }
{
    match replay(alloc, book, log, log_start(tour, log))? {
        Replayed::Lawful(_) => Ok(None),
        Replayed::Unlawful { unit } => Ok(Some(unit)),
    }
}

/// A log to be audited, which ends where the tour starts.
#[derive(Drop)]
struct LogAudit<'a> {
    alloc: Global,
    tour: &'a Tour,
    log: &'a Timeline,
}

impl BookUser for LogAudit<'_> {
    type Answer = Result<Option<u32>, NoMemory>;

    ghost asks = { λ self params. IsAuditable self.tour.now self.log.now params };

    ghost gives = { λ self m answer. IfOk answer (λ found. MatchOption found (IsLawfulLog self.tour.now self.log.now) (IsFirstUnlawful self.tour.now.params (log_start self.tour.now self.log.now) self.log.now)) };

    fn use_book<B: RuleBook>(self, book: &B) -> Result<Option<u32>, NoMemory> {
        first_by(self.alloc, book, self.tour, self.log)
    }
}

/// The unit of the log, counted from 0, up to which it breaks a rule of the tour's book with any
/// marks, while up to each unit before it it is lawful with some. `None` exactly where the log, which
/// ends where the tour starts, is lawful. `NoMemory` where there is none for the states that it leads
/// to.
pub fn first_unlawful(alloc: Global, tour: &Tour, log: &Timeline) -> Result<Option<u32>, NoMemory>
    requires tour { IsTour tour.now }
    requires short { unit_minutes tour.now.params * length log.now ≤ LONGEST_LOG }
    ensures { IfOk result (λ found. MatchOption found (IsLawfulLog tour.now log.now) (IsFirstUnlawful tour.now.params (log_start tour.now log.now) log.now)) }
{
    with_book(alloc, tour.params, LogAudit { alloc, tour, log })
}
