//! A first guess at the shortest duration: a quick search that keeps few labels. It proves only that
//! some solution takes no more than what it finds.
ghost use Rattle.std.specs.Prelude.{◌+◌, ◌<◌, IfOk, OnOk};
ghost use Rattle.duty_core.specs.Params.{allows};
ghost use Rattle.tour_model.specs.declared.limits.TheConstants.{STEP_LIMIT};
ghost use Rattle.cert_text.specs.CoverLists.Planning.{problem_of, state_at};
ghost use Rattle.label_dominance.specs.Offers.{AreStatesAt};
ghost use Rattle.label_search.specs.Searching.{IsRootState, IsLimit};
ghost use Rattle.label_search.specs.Ways.{IsLessOf, IsLeastOf, ArePartsOf};
ghost use Rattle.label_search.specs.Terms.{AreTerms, IsReachedBy, AreReachedBy, AreRankedBy, IsDepartureBy, AreDeparturesBy, IsGuessBy};

use crate::terms::Terms;
use cert_text::is_pruned;
use duty_core::NoMemory;
use label_dominance::better;
use label_extend::successors;
use label_state::Label;
use rule_core::RuleBook;
use std::alloc::Global;
use std::cmp::Reverse;
use tour_model::{STEP_LIMIT, Tour};

/// How many labels the guess keeps of a step after a departure, which bounds its work.
const BEAM: usize = 40;

/// How many labels the guess keeps of a step that have not departed, and how many that depart there.
const FIRST: usize = 4;

/// How many labels the guess may grow for each label of the search's budget: while it collects the
/// departures, and again while it follows them. That bounds its work.
const WORK: u32 = 2;

/// A label, and the step at which it might end, by which it is ranked.
#[derive(Drop)]
struct Ranked<S> {
    ends: u32,
    label: Label<S>,
}

/// A departure: the least steps that a schedule might take that departs then, the step after it, and
/// labels of that step, which have just departed.
#[derive(Drop)]
struct Departure<S> {
    takes: u32,
    step: u32,
    beam: Vec<Label<S>>,
}

/// The least duration found so far, and how many labels may still be grown.
#[derive(Clone, Copy)]
struct Guess {
    best: Option<u32>,
    work: usize,
}

/// The labels of the roots.
fn root_beam<B: RuleBook>(terms: &Terms<'_, B, B::State>) -> Result<Vec<Label<B::State>>, NoMemory>
    requires { AreTerms terms.now (B.machine terms.now.book.now) }
    ensures { IfOk result (λ beam. AreReachedBy terms.now (B.machine terms.now.book.now) 0 beam.items) }
{
    let mut beam = Vec::new(terms.alloc);
    for root in terms.roots {
        beam.push(Label {
            depart: None,
            progress: 0,
            state: terms.book.copy(&root.state)?,
        })?;
    }
    Ok(beam)
}

/// What is left of a tour's work, in steps.
#[derive(Clone, Copy)]
struct Left {
    driving: u32,
    service: u32,
}

/// What is left of the tour's work after so much progress.
fn work_left(tour: &Tour, progress: u32) -> Left {
    let mut driving: u32 = 0;
    let mut service: u32 = 0;
    let mut done = progress;
    for stop in tour.stops.items() {
        let driven = stop.drive.min(done);
        let served = stop.service.min(done - driven);
        driving = driving.saturating_add(stop.drive - driven);
        service = service.saturating_add(stop.service - served);
        done -= driven + served;
    }
    Left { driving, service }
}

/// The step at which a label that is at this step might end at the earliest, as far as is known
/// without a search: not before `eta`, nor before its work and the rests that it still owes are done.
fn ends_about<B: RuleBook>(
    terms: &Terms<'_, B, B::State>,
    label: &Label<B::State>,
    step: u32,
    eta: u32,
) -> u32
    requires { AreTerms terms.now (B.machine terms.now.book.now) }
{
    let tour = terms.tour;
    let left = work_left(tour, label.progress);
    let driving = left.driving.saturating_mul(tour.grid);
    let service = left.service.saturating_mul(tour.grid);
    let rest = terms.book.least_rest(&label.state, driving, service);
    let rests = rest.saturating_add(tour.grid - 1) / tour.grid;
    let work = left.driving.saturating_add(left.service);
    eta.max(step.saturating_add(work).saturating_add(rests))
}

/// Adds the successors of a label that might take less than the best.
fn grow_label<B: RuleBook>(
    terms: &Terms<'_, B, B::State>,
    best: Option<u32>,
    step: u32,
    label: &Label<B::State>,
    list: &mut Vec<Ranked<B::State>>,
) -> Result<(), NoMemory>
    requires terms { AreTerms terms.now (B.machine terms.now.book.now) }
    requires label { IsReachedBy terms.now (B.machine terms.now.book.now) step label.now }
    requires list { AreRankedBy terms.now (B.machine terms.now.book.now) (step + 1) list.old.items }
    requires step { step + 1 < STEP_LIMIT }
    ensures ok { OnOk result (AreRankedBy terms.now (B.machine terms.now.book.now) (step + 1) list.new.items) }
{
    let Terms {
        alloc,
        book,
        tour,
        ..
    } = *terms;
    for grown in successors(alloc, book, tour, label, step)?.into_vec() {
        let label = grown.label;
        if let Some(eta) = tour.eta(step + 1, label.progress) {
            let ends = ends_about(terms, &label, step + 1, eta);
            if !is_pruned(best, label.depart, Some(ends)) {
                list.push(Ranked { ends, label })?;
            }
        }
    }
    Ok(())
}

/// The successors of the labels that might take less than the best.
fn grow_beam<B: RuleBook>(
    terms: &Terms<'_, B, B::State>,
    best: Option<u32>,
    step: u32,
    beam: &[Label<B::State>],
) -> Result<Vec<Ranked<B::State>>, NoMemory>
    requires terms { AreTerms terms.now (B.machine terms.now.book.now) }
    requires beam { AreReachedBy terms.now (B.machine terms.now.book.now) step beam.now }
    requires step { step + 1 < STEP_LIMIT }
    ensures { IfOk result (λ list. AreRankedBy terms.now (B.machine terms.now.book.now) (step + 1) list.items) }
{
    let mut list = Vec::new(terms.alloc);
    for label in beam {
        grow_label(terms, best, step, label, &mut list)?;
    }
    Ok(list)
}

/// Whether one of the labels is better than this one.
fn is_covered<B: RuleBook>(
    terms: &Terms<'_, B, B::State>,
    beam: &[Label<B::State>],
    label: &Label<B::State>,
    step: u32,
) -> bool
    requires terms { AreTerms terms.now (B.machine terms.now.book.now) }
    requires beam { AreStatesAt (state_at terms.now.tour.now (B.machine terms.now.book.now)) step beam.now }
    requires label { state_at terms.now.tour.now (B.machine terms.now.book.now) label.now.state step }
    requires step { step < STEP_LIMIT }
{
    for other in beam {
        if better(terms.book, terms.tour, other, label, step) {
            return true;
        }
    }
    false
}

/// At most so many of the labels, none of which an earlier one is better than: those that might end
/// first, and of these the ones that have done most.
fn thinned<B: RuleBook>(
    terms: &Terms<'_, B, B::State>,
    step: u32,
    list: Vec<Ranked<B::State>>,
    most: usize,
) -> Result<Vec<Label<B::State>>, NoMemory>
    requires terms { AreTerms terms.now (B.machine terms.now.book.now) }
    requires list { AreRankedBy terms.now (B.machine terms.now.book.now) step list.items }
    requires step { step < STEP_LIMIT }
    ensures { IfOk result (λ beam. AreReachedBy terms.now (B.machine terms.now.book.now) step beam.items) }
{
    let mut list = list;
    list.sort_by_key(|ranked| Reverse(ranked.label.progress))?;
    list.sort_by_key(|ranked| ranked.ends)?;
    let mut beam = Vec::new(terms.alloc);
    for ranked in list {
        let label = ranked.label;
        if beam.len() < most && !is_covered(terms, &beam, &label, step) {
            beam.push(label)?;
        }
    }
    Ok(beam)
}

/// The less of the best and the duration of this label, where it is finished.
fn less_of<S>(goal: u32, label: &Label<S>, step: u32, best: Option<u32>) -> Option<u32>
    ensures { IsLessOf goal label.now step best result }
{
    if label.progress != goal {
        return best;
    }
    let takes = step.saturating_sub(label.depart.unwrap_or(0));
    if best.is_some_and(|best| best <= takes) {
        return best;
    }
    Some(takes)
}

/// The least of the best and the durations of the finished labels.
fn best_finished<S>(goal: u32, beam: &[Label<S>], step: u32, best: Option<u32>) -> Option<u32>
    ensures { IsLeastOf goal beam.now step best result }
{
    let mut least = best;
    for label in beam {
        least = less_of(goal, label, step, least);
    }
    least
}

/// Follows a departure to its ends, and keeps the best.
fn follow<B: RuleBook>(
    terms: &Terms<'_, B, B::State>,
    departure: Departure<B::State>,
    guess: Guess,
) -> Result<Guess, NoMemory>
    requires terms { AreTerms terms.now (B.machine terms.now.book.now) }
    requires departure { IsDepartureBy terms.now (B.machine terms.now.book.now) departure }
    requires guess { IsGuessBy terms.now (B.machine terms.now.book.now) guess.best }
    ensures { IfOk result (λ found. IsGuessBy terms.now (B.machine terms.now.book.now) found.best) }
{
    let goal = terms.tour.word_len();
    let mut guess = guess;
    let mut step = departure.step;
    let mut beam = departure.beam;
    while step + 1 < STEP_LIMIT && !beam.is_empty() && guess.work > 0 {
        guess = Guess {
            best: best_finished(goal, &beam, step, guess.best),
            work: guess.work.saturating_sub(beam.len()),
        };
        let grown = grow_beam(terms, guess.best, step, &beam)?;
        step += 1;
        beam = thinned(terms, step, grown, BEAM)?;
    }
    Ok(guess)
}

/// The labels that have departed, and the others.
#[derive(Drop)]
struct Parted<S> {
    departed: Vec<Ranked<S>>,
    others: Vec<Ranked<S>>,
}

/// Parts the labels by whether they have departed.
fn part_by_departure<S: Drop>(alloc: Global, list: Vec<Ranked<S>>) -> Result<Parted<S>, NoMemory>
    ensures { IfOk result (λ parts. ArePartsOf list.items parts.departed.items parts.others.items) }
{
    let mut departed = Vec::new(alloc);
    let mut others = Vec::new(alloc);
    for ranked in list {
        if ranked.label.depart.is_some() {
            departed.push(ranked)?;
        } else {
            others.push(ranked)?;
        }
    }
    Ok(Parted { departed, others })
}

/// The least step at which one of the labels might end.
fn first_end<S>(list: &[Ranked<S>]) -> Option<u32> {
    list.iter().map(|ranked| ranked.ends).min()
}

/// Adds the departure that these labels make, which have just departed at this step, where there
/// are some.
fn add_departure<B: RuleBook>(
    terms: &Terms<'_, B, B::State>,
    depart: u32,
    departed: Vec<Ranked<B::State>>,
    list: &mut Vec<Departure<B::State>>,
) -> Result<(), NoMemory>
    requires terms { AreTerms terms.now (B.machine terms.now.book.now) }
    requires departed { AreRankedBy terms.now (B.machine terms.now.book.now) (depart + 1) departed.items }
    requires list { AreDeparturesBy terms.now (B.machine terms.now.book.now) list.old.items }
    requires depart { depart + 1 < STEP_LIMIT }
    ensures ok { OnOk result (AreDeparturesBy terms.now (B.machine terms.now.book.now) list.new.items) }
{
    if let Some(ends) = first_end(&departed) {
        let takes = ends.saturating_sub(depart);
        let step = depart + 1;
        let beam = thinned(terms, step, departed, FIRST)?;
        list.push(Departure { takes, step, beam })?;
    }
    Ok(())
}

/// The departures, by the least that a schedule might take that departs then. Labels that have not
/// departed go along the steps, a few of each; those of their successors that depart make a departure.
fn departures<B: RuleBook>(
    terms: &Terms<'_, B, B::State>,
    work: usize,
) -> Result<Vec<Departure<B::State>>, NoMemory>
    requires { AreTerms terms.now (B.machine terms.now.book.now) }
    ensures { IfOk result (λ list. AreDeparturesBy terms.now (B.machine terms.now.book.now) list.items) }
{
    let mut list = Vec::new(terms.alloc);
    let mut waiting = root_beam(terms)?;
    let mut work = work;
    let mut depart = 0;
    while depart + 1 < STEP_LIMIT && !waiting.is_empty() && work > 0 {
        work = work.saturating_sub(waiting.len());
        let grown = grow_beam(terms, None, depart, &waiting)?;
        let Parted { departed, others } = part_by_departure(terms.alloc, grown)?;
        add_departure(terms, depart, departed, &mut list)?;
        depart += 1;
        waiting = thinned(terms, depart, others, FIRST)?;
    }
    list.sort_by_key(|departure| departure.takes)?;
    Ok(list)
}

/// The duration of some solution, where a quick search finds one: it follows the departures in
/// turn, until the next might take as long as the best that was found.
fn guessed<B: RuleBook>(terms: &Terms<'_, B, B::State>, work: usize) -> Result<Guess, NoMemory>
    requires { AreTerms terms.now (B.machine terms.now.book.now) }
    ensures { IfOk result (λ found. IsGuessBy terms.now (B.machine terms.now.book.now) found.best) }
{
    let mut guess = Guess { best: None, work };
    for departure in departures(terms, work)? {
        if guess.best.is_some_and(|best| best <= departure.takes) {
            return Ok(guess);
        }
        guess = follow(terms, departure, guess)?;
    }
    Ok(guess)
}

/// A number of steps that some solution stays below, where a quick search finds one; None where it
/// finds none.
pub fn first_limit<B: RuleBook>(
    terms: &Terms<'_, B, B::State>,
    budget: u32,
) -> Result<Option<u32>, NoMemory>
    requires { AreTerms terms.now (B.machine terms.now.book.now) }
    ensures { IfOk result (IsLimit (problem_of terms.now.tour.now (B.machine terms.now.book.now)) (allows terms.now.tour.now.params) (IsRootState terms.now.roots.now)) }
{
    let guess = guessed(terms, budget.saturating_mul(WORK) as usize)?;
    match guess.best {
        None => Ok(None),
        Some(best) => Ok(best.checked_add(1)),
    }
}
