//! Whether the successors of a label are pruned or answered.
ghost use Rattle.std.specs.Prelude.{◌≡◌, ◌+◌, ◌<◌, Decides, IfOk};
ghost use Rattle.std.specs.Option.{option_to_list};
ghost use Rattle.rule_core.specs.Reach.{listed, IsOneOf};
ghost use Rattle.rule_core.specs.declared.nexts.Next.{Next};
ghost use Rattle.tour_model.specs.declared.limits.TheConstants.{STEP_LIMIT};
ghost use Rattle.tour_model.specs.Tour.{IsTour};
ghost use Rattle.tour_model.specs.Way.{done};
ghost use Rattle.tour_model.specs.Word.{word_length};
ghost use Rattle.cert_text.specs.CoverLists.Problem.{departed, grown_by, successors_of};
ghost use Rattle.cert_text.specs.CoverLists.Planning.{problem_by, state_at};
ghost use Rattle.cert_text.specs.CoverLists.Bound.{IsBoundOf};
ghost use Rattle.cert_checker.specs.Parsed.{there};
ghost use Rattle.cert_checker.specs.Terms.{AreStatesAt, HasNext};
ghost use Rattle.cert_checker.specs.Conditions.{AreAnswered, IsPrunedOrCovered};
ghost use Rattle.cert_checker.specs.Made.{IsMade, made_label, AreStatesAnswered};

use crate::asked::Asked;
use crate::covered::is_covered;
use crate::listing::Listing;
use crate::terms::Terms;
use cert_text::{LabelBound, is_pruned, minute_at};
use duty_core::{Activity, NoMemory, unit_of};
use rule_core::{Idles, Next, Nexts, RuleBook};
use tour_model::{Label, progresses};

/// The departure after this step of an activity.
fn departure(depart: Option<u32>, act: Activity, step: u32) -> Option<u32>
    ensures { result ≡ departed depart act step }
{
    if progresses(act) {
        Some(depart.unwrap_or(step))
    } else {
        depart
    }
}

/// The progress after an activity.
pub fn progress_after(progress: u32, act: Activity) -> u32
    requires { progress < STEP_LIMIT }
    ensures { result ≡ done progress act }
{
    if progresses(act) {
        progress + 1
    } else {
        progress
    }
}

/// What a step makes of a label, but for the state: its departure, its progress, and what the bound
/// tells of these alone.
#[derive(Clone, Copy)]
struct Made {
    depart: Option<u32>,
    progress: u32,
    early: Option<u32>,
}

/// Whether one that is made so is pruned in the state, or one of the labels is better.
fn is_state_answered<B: RuleBook, K: LabelBound<B::State>>(
    terms: &Terms<'_, B, K>,
    step: u32,
    labels: &Listing<B::State>,
    made: Made,
    state: &B::State,
) -> bool
    requires tour { IsTour terms.now.tour.now }
    requires bound { IsBoundOf terms.now.tour.now (B.machine terms.now.book.now) (K.bounds terms.now.bound.now) }
    requires made { IsMade terms.now.tour.now (K.bounds terms.now.bound.now).early step made }
    requires labels { AreStatesAt terms.now (B.machine terms.now.book.now) step labels.now }
    requires state { state_at terms.now.tour.now (B.machine terms.now.book.now) state.now step }
    requires step { step < STEP_LIMIT }
    ensures { Decides result (IsPrunedOrCovered (problem_by terms.now.tour.now (B.machine terms.now.book.now) (K.bounds terms.now.bound.now).bound) terms.now.target step (there labels.now) (made_label made state.now)) }
{
    let bound = terms.bound.bound(step, made.progress, state, made.early);
    if is_pruned(terms.target, made.depart, bound) {
        return true;
    }
    let asked = Asked {
        depart: made.depart,
        progress: made.progress,
        state,
    };
    is_covered(terms, step, labels, &asked)
}

/// The same of the state that is there, if any.
fn is_next_answered<B: RuleBook, K: LabelBound<B::State>>(
    terms: &Terms<'_, B, K>,
    step: u32,
    labels: &Listing<B::State>,
    made: Made,
    next: &Option<Next<B::State>>,
) -> bool
    requires tour { IsTour terms.now.tour.now }
    requires bound { IsBoundOf terms.now.tour.now (B.machine terms.now.book.now) (K.bounds terms.now.bound.now) }
    requires made { IsMade terms.now.tour.now (K.bounds terms.now.bound.now).early step made }
    requires labels { AreStatesAt terms.now (B.machine terms.now.book.now) step labels.now }
    requires state { (n : Next B.State) → IsOneOf (option_to_list next.now) n → state_at terms.now.tour.now (B.machine terms.now.book.now) n.state step }
    requires step { step < STEP_LIMIT }
    ensures { Decides result (AreStatesAnswered (problem_by terms.now.tour.now (B.machine terms.now.book.now) (K.bounds terms.now.bound.now).bound) terms.now.target step (there labels.now) made (option_to_list next.now)) }
{
    match next {
        None => true,
        Some(next) => is_state_answered(terms, step, labels, made, &next.state),
    }
}

/// The same of each of the states.
fn are_nexts_answered<B: RuleBook, K: LabelBound<B::State>>(
    terms: &Terms<'_, B, K>,
    step: u32,
    labels: &Listing<B::State>,
    made: Made,
    nexts: &Nexts<B::State>,
) -> bool
    requires tour { IsTour terms.now.tour.now }
    requires bound { IsBoundOf terms.now.tour.now (B.machine terms.now.book.now) (K.bounds terms.now.bound.now) }
    requires made { IsMade terms.now.tour.now (K.bounds terms.now.bound.now).early step made }
    requires labels { AreStatesAt terms.now (B.machine terms.now.book.now) step labels.now }
    requires states { (n : Next B.State) → IsOneOf (listed nexts.now) n → state_at terms.now.tour.now (B.machine terms.now.book.now) n.state step }
    requires step { step < STEP_LIMIT }
    ensures { Decides result (AreStatesAnswered (problem_by terms.now.tour.now (B.machine terms.now.book.now) (K.bounds terms.now.bound.now).bound) terms.now.target step (there labels.now) made (listed nexts.now)) }
{
    if !is_next_answered(terms, step, labels, made, &nexts.a) {
        return false;
    }
    if !is_next_answered(terms, step, labels, made, &nexts.b) {
        return false;
    }
    is_next_answered(terms, step, labels, made, &nexts.c)
}

/// Whether the label's successors by the activity are answered: there is none where the tour does
/// not allow it. None is made where what the bound tells early prunes all of them.
fn are_answered_by<B: RuleBook, K: LabelBound<B::State>>(
    terms: &Terms<'_, B, K>,
    step: u32,
    labels: &Listing<B::State>,
    label: &Label<B::State>,
    act: Activity,
) -> Result<bool, NoMemory>
    requires bound { IsBoundOf terms.now.tour.now (B.machine terms.now.book.now) (K.bounds terms.now.bound.now) }
    requires next { HasNext terms.now (B.machine terms.now.book.now) step label.now labels.now }
    requires progress { label.now.progress < terms.now.goal }
    ensures { IfOk result (λ b. Decides b (AreAnswered (problem_by terms.now.tour.now (B.machine terms.now.book.now) (K.bounds terms.now.bound.now).bound) terms.now.target (step + 1) (there labels.now) (grown_by (problem_by terms.now.tour.now (B.machine terms.now.book.now) (K.bounds terms.now.bound.now).bound) step label.now act))) }
{
    if !terms.tour.may_do(step, label.progress, act) {
        return Ok(true);
    }
    let depart = departure(label.depart, act, step);
    let progress = progress_after(label.progress, act);
    let early = terms.bound.early(step + 1, progress);
    if is_pruned(terms.target, depart, early) {
        return Ok(true);
    }
    let units = terms.tour.grid / unit_of(terms.tour.params);
    let at = minute_at(terms.tour, step);
    let nexts = terms.book.advance(&label.state, at, act, units)?;
    let made = Made {
        depart,
        progress,
        early,
    };
    Ok(are_nexts_answered(terms, step + 1, labels, made, &nexts))
}

/// Whether each successor of the label is pruned, or one of the labels of the next step is better.
pub fn are_answered<B: RuleBook, K: LabelBound<B::State>>(
    terms: &Terms<'_, B, K>,
    step: u32,
    labels: &Listing<B::State>,
    label: &Label<B::State>,
) -> Result<bool, NoMemory>
    requires bound { IsBoundOf terms.now.tour.now (B.machine terms.now.book.now) (K.bounds terms.now.bound.now) }
    requires next { HasNext terms.now (B.machine terms.now.book.now) step label.now labels.now }
    requires progress { label.now.progress < terms.now.goal }
    ensures { IfOk result (λ b. Decides b (AreAnswered (problem_by terms.now.tour.now (B.machine terms.now.book.now) (K.bounds terms.now.bound.now).bound) terms.now.target (step + 1) (there labels.now) (successors_of (problem_by terms.now.tour.now (B.machine terms.now.book.now) (K.bounds terms.now.bound.now).bound) step label.now))) }
{
    let Idles { first, second } = terms.book.idles(&label.state);
    if !are_answered_by(terms, step, labels, label, Activity::Drive)? {
        return Ok(false);
    }
    if !are_answered_by(terms, step, labels, label, Activity::Serve)? {
        return Ok(false);
    }
    if !are_answered_by(terms, step, labels, label, first)? {
        return Ok(false);
    }
    match second {
        None => Ok(true),
        Some(second) => are_answered_by(terms, step, labels, label, second),
    }
}
