//! What holds of every report. The function does nothing: its clause is the law.
ghost use Rattle.std.specs.Prelude.{◌≡◌, ℕ, List};
ghost use Rattle.duty_core.specs.declared.activity.Activity.{Activity};
ghost use Rattle.tour_model.specs.declared.schedule.Schedule.{Schedule};
ghost use Rattle.tour_model.specs.declared.tour.Tour.{Tour};
ghost use Rattle.report_text.specs.Report.{IsReport};

/// A schedule has one report: two texts that are reports of a tour, its log, and a schedule with its
/// marks are equal.
pub fn reports_are_one()
    ensures { (tour : Tour) (log : List Activity) (schedule : Schedule) (one other : List ℕ) →
        IsReport tour log schedule one → IsReport tour log schedule other → one ≡ other }
{}
