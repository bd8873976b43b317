//! How a label grows by one step.
ghost use Rattle.std.specs.Prelude.{◌≡◌, ℕ, ◌+◌, ◌<◌, ◌≤◌, [], ◌++◌, List, map, IfOk, OnOk};
ghost use Rattle.std.specs.Option.{option_to_list};
ghost use Rattle.rule_core.specs.Reach.{listed};
ghost use Rattle.tour_model.specs.declared.limits.TheConstants.{STEP_LIMIT};
ghost use Rattle.tour_model.specs.Tour.{IsTour};
ghost use Rattle.tour_model.specs.Word.{word_length};
ghost use Rattle.tour_model.specs.Schedule.{step_units};
ghost use Rattle.cert_text.specs.CoverLists.Problem.{grow, grown_by, successors_of};
ghost use Rattle.cert_text.specs.CoverLists.Planning.{problem_of, minute_of, state_at};
ghost use Rattle.cert_text.specs.CoverLists.Cover.{IsLabelAt};
ghost use Rattle.label_extend.specs.Growths.{AreGrownAt};

use cert_text::{Grown, minute_at};
use duty_core::{Activity, NoMemory, TryVec, unit_of};
use rule_core::{Idles, Next, Nexts, RuleBook};
use std::alloc::Global;
use tour_model::{Label, Tour};

/// Successors of a label, in their order. Contracts see their list.
pub type Growths<S> = TryVec<Grown<S>>;

/// The number of the book's units in a step of the tour.
fn units_of_step(tour: &Tour) -> u32
    requires { IsTour tour.now }
    ensures { result ≡ step_units tour.now }
{
    tour.grid / unit_of(tour.params)
}

/// What a step of the activity makes of the label, where it leads to this state.
fn grown<S>(label: &Label<S>, step: u32, act: Activity, next: Next<S>) -> Grown<S>
    requires { label.now.progress < STEP_LIMIT }
    ensures { result ≡ grow label.now step act next }
{
    let Next { state, mark } = next;
    let label = match act {
        Activity::Drive | Activity::Serve => Label {
            depart: Some(label.depart.unwrap_or(step)),
            progress: label.progress + 1,
            state,
        },
        Activity::Wait | Activity::Off | Activity::Berth => Label {
            depart: label.depart,
            progress: label.progress,
            state,
        },
    };
    Grown { label, act, mark }
}

/// Adds what the step makes of the label, where there is a state to which it leads.
fn push_grown<S: Drop>(
    list: &mut Growths<S>,
    label: &Label<S>,
    step: u32,
    act: Activity,
    next: Option<Next<S>>,
) -> Result<(), NoMemory>
    requires { label.now.progress < STEP_LIMIT }
    ensures ok { OnOk result (list.new ≡ list.old ++ map (grow label.now step act) (option_to_list next)) }
{
    match next {
        None => Ok(()),
        Some(next) => list.push(grown(label, step, act, next)),
    }
}

/// Adds what the step makes of the label, for each state to which it leads.
fn push_nexts<S: Drop>(
    list: &mut Growths<S>,
    label: &Label<S>,
    step: u32,
    act: Activity,
    nexts: Nexts<S>,
) -> Result<(), NoMemory>
    requires { label.now.progress < STEP_LIMIT }
    ensures ok { OnOk result (list.new ≡ list.old ++ map (grow label.now step act) (listed nexts)) }
{
    let Nexts { a, b, c } = nexts;
    push_grown(list, label, step, act, a)?;
    push_grown(list, label, step, act, b)?;
    push_grown(list, label, step, act, c)?;
    Ok(())
}

/// Adds the label's successors by one activity: none where the tour does not allow it.
fn push_by<B: RuleBook>(
    list: &mut Growths<B::State>,
    book: &B,
    tour: &Tour,
    label: &Label<B::State>,
    step: u32,
    act: Activity,
) -> Result<(), NoMemory>
    requires tour { IsTour tour.now }
    requires params { (B.machine book.now).params ≡ tour.now.params }
    requires state { (B.machine book.now).is_state label.now.state (minute_of tour.now step) }
    requires progress { label.now.progress ≤ word_length tour.now }
    requires step { step < STEP_LIMIT }
    ensures ok { OnOk result (list.new ≡ list.old
        ++ grown_by (problem_of tour.now (B.machine book.now)) step label.now act) }
{
    if !tour.may_do(step, label.progress, act) {
        return Ok(());
    }
    let nexts = book.advance(
        &label.state,
        minute_at(tour, step),
        act,
        units_of_step(tour),
    )?;
    push_nexts(list, label, step, act, nexts)?;
    Ok(())
}

/// A label's successors after one step: one for each successor state by driving, by service, and by
/// each idle activity that the book needs tried, in this order, where the tour allows the activity.
/// They are labels of the next step. A finished label has none.
pub fn successors<B: RuleBook>(
    alloc: Global,
    book: &B,
    tour: &Tour,
    label: &Label<B::State>,
    step: u32,
) -> Result<Growths<B::State>, NoMemory>
    requires tour { IsTour tour.now }
    requires params { (B.machine book.now).params ≡ tour.now.params }
    requires state { (B.machine book.now).is_state label.now.state (minute_of tour.now step) }
    requires progress { label.now.progress ≤ word_length tour.now }
    requires step { step < STEP_LIMIT }
    ensures exact { IfOk result (λ list. list ≡ successors_of (problem_of tour.now (B.machine book.now)) step label.now) }
    ensures labels { IsLabelAt (state_at tour.now (B.machine book.now)) (word_length tour.now) step label.now →
        IfOk result (AreGrownAt (state_at tour.now (B.machine book.now)) (word_length tour.now) (step + 1)) }
    ensures finished { label.now.progress ≡ word_length tour.now → IfOk result (λ list. list ≡ []) }
{
    let mut list = Growths::new(alloc);
    push_by(&mut list, book, tour, label, step, Activity::Drive)?;
    push_by(&mut list, book, tour, label, step, Activity::Serve)?;
    let Idles { first, second } = book.idles(&label.state);
    push_by(&mut list, book, tour, label, step, first)?;
    if let Some(second) = second {
        push_by(&mut list, book, tour, label, step, second)?;
    }
    Ok(list)
}
