//! The conditions on one label.
ghost use Rattle.std.specs.Prelude.{◌≡◌, ◌-◌, ◌≤◌, length, take, Some, unwrap_or, Decides, IfOk, MatchOption};
ghost use Rattle.cert_text.specs.CoverLists.Planning.{problem_by, state_at};
ghost use Rattle.cert_text.specs.CoverLists.Bound.{IsBoundOf};
ghost use Rattle.cert_text.specs.CoverLists.Cover.{IsAtLeast};
ghost use Rattle.cert_checker.specs.Parsed.{there, HasLeft};
ghost use Rattle.cert_checker.specs.Terms.{AreStatesAt, HasNext};
ghost use Rattle.cert_checker.specs.Conditions.{Passes, FailsBy, IsAnsweredFor};

use crate::answered::are_answered;
use crate::asked::Asked;
use crate::covered::is_covered_before;
use crate::listing::Listing;
use crate::terms::Terms;
use crate::verdict::Reason;
use cert_text::LabelBound;
use duty_core::NoMemory;
use rule_core::RuleBook;
use tour_model::Label;

/// Whether a label of the step has departed exactly where it has done something, and then before
/// the step.
fn has_left(step: u32, progress: u32, depart: Option<u32>) -> bool
    ensures { Decides result (HasLeft step progress depart) }
{
    match depart {
        None => progress == 0,
        Some(depart) => progress > 0 && depart < step,
    }
}

/// Whether so many steps are not below the target. Where there is no target, they are.
fn is_at_least(target: Option<u32>, takes: u32) -> bool
    ensures { Decides result (IsAtLeast target takes) }
{
    match target {
        None => false,
        Some(target) => target <= takes,
    }
}

/// Whether a finished label of this progress and departure has not taken less than the target.
fn is_long_enough(
    goal: u32,
    target: Option<u32>,
    step: u32,
    progress: u32,
    depart: Option<u32>,
) -> bool
    ensures { Decides result (progress ≡ goal → IsAtLeast target (step - unwrap_or depart 0)) }
{
    if progress != goal {
        return true;
    }
    is_at_least(target, step.saturating_sub(depart.unwrap_or(0)))
}

/// Whether the successors of the label are answered, where it is not finished.
fn is_answered_for<B: RuleBook, K: LabelBound<B::State>>(
    terms: &Terms<'_, B, K>,
    step: u32,
    label: &Label<B::State>,
    next: &Listing<B::State>,
) -> Result<bool, NoMemory>
    requires bound { IsBoundOf terms.now.tour.now (B.machine terms.now.book.now) (K.bounds terms.now.bound.now) }
    requires next { HasNext terms.now (B.machine terms.now.book.now) step label.now next.now }
    ensures { IfOk result (λ b. Decides b (IsAnsweredFor (problem_by terms.now.tour.now (B.machine terms.now.book.now) (K.bounds terms.now.bound.now).bound) terms.now.target step (there next.now) label.now)) }
{
    if label.progress >= terms.goal {
        return Ok(true);
    }
    are_answered(terms, step, next, label)
}

/// The first condition that fails at the label, where one does: after those before this place of
/// its layer, and before those of the next.
pub fn fault_of<B: RuleBook, K: LabelBound<B::State>>(
    terms: &Terms<'_, B, K>,
    step: u32,
    label: &Label<B::State>,
    labels: &Listing<B::State>,
    place: usize,
    next: &Listing<B::State>,
) -> Result<Option<Reason>, NoMemory>
    requires bound { IsBoundOf terms.now.tour.now (B.machine terms.now.book.now) (K.bounds terms.now.bound.now) }
    requires next { HasNext terms.now (B.machine terms.now.book.now) step label.now next.now }
    requires progress { label.now.progress ≤ terms.now.goal }
    requires labels { AreStatesAt terms.now (B.machine terms.now.book.now) step labels.now }
    requires place { place ≤ length labels.now }
    ensures { IfOk result (λ o. MatchOption o
        (Passes (problem_by terms.now.tour.now (B.machine terms.now.book.now) (K.bounds terms.now.bound.now).bound) (state_at terms.now.tour.now (B.machine terms.now.book.now)) terms.now.target step
        (there (take place labels.now)) (there next.now) (Some label.now))
        (FailsBy (problem_by terms.now.tour.now (B.machine terms.now.book.now) (K.bounds terms.now.bound.now).bound) (state_at terms.now.tour.now (B.machine terms.now.book.now)) terms.now.target step
        (there (take place labels.now)) (there next.now) (Some label.now))) }
{
    if !has_left(step, label.progress, label.depart) {
        return Ok(Some(Reason::State));
    }
    if !is_long_enough(terms.goal, terms.target, step, label.progress, label.depart) {
        return Ok(Some(Reason::Finished));
    }
    let asked = Asked::of(label);
    if is_covered_before(terms, step, labels, place, &asked) {
        return Ok(Some(Reason::Repeated));
    }
    if !is_answered_for(terms, step, label, next)? {
        return Ok(Some(Reason::Successor));
    }
    Ok(None)
}
