//! Two tours by hand: four hours of driving and then an hour of service, and two short stops.
ghost use Rattle.std.specs.Prelude.{◌≡◌, ◌+◌, ◌<◌, ◌∷◌, [], IfOk, IfSome};
ghost use Rattle.rule_core.specs.Reach.{listed, IsOneOf};
ghost use Rattle.tour_model.specs.declared.limits.TheConstants.{STEP_LIMIT};
ghost use Rattle.tour_model.specs.Tour.{IsTour, IsParams};
ghost use Rattle.cert_text.specs.CoverLists.Planning.{minute_of};

use cert_text::minute_at;
use duty_core::{Activity, NoMemory, Params, unit_of};
use label_dominance::{Offered, better, offer, offer_to};
use label_extend::successors;
use label_state::{Kept, Label, Layers};
use rule_core::{Next, Nexts, RuleBook};
use std::alloc::Global;
use std::process::Abort;
use std::test::Fail;
use tour_model::Tour;
use tour_reader::read_tour;
use us_rules::UsBook;

const FORM: &str =
    r#"{"book":"us","grid":30,"start":"2026-03-02T06:00","berth":false,"days":8,"day_start":"00:00","stops":[{"name":"A","drive":240,"service":60,"windows":[["2026-03-02T06:00","2026-03-05T06:00"]]}]}"#;

const TWO_STOPS: &str =
    r#"{"book":"us","grid":30,"start":"2026-03-02T06:00","berth":false,"days":8,"day_start":"00:00","stops":[{"name":"A","drive":30,"service":30,"windows":[["2026-03-02T06:00","2026-03-05T06:00"]]},{"name":"B","drive":30,"service":30,"windows":[["2026-03-02T06:00","2026-03-05T06:00"]]}]}"#;

/// The book of a tour of the United States.
fn book_of(params: Params) -> Option<UsBook>
    requires { IsParams params }
    ensures { IfSome result (λ book. (⟦<UsBook as RuleBook>⟧.machine book).params ≡ params) }
{
    match params {
        Params::UsProperty {
            berth,
            days,
            day_start,
        } => Some(UsBook::new(berth, days, day_start)),
        Params::Canada { .. } | Params::Hvnl {} => None,
    }
}

/// The label of a driver with no history at the start of the tour.
fn first_label<B: RuleBook>(book: &B, tour: &Tour) -> Result<Label<B::State>, NoMemory>
    requires tour { IsTour tour.now }
    requires params { (B.machine book.now).params ≡ tour.now.params }
    ensures state { IfOk result (λ label. (B.machine book.now).is_state label.state (minute_of tour.now 0)) }
    ensures progress { IfOk result (λ label. label.progress ≡ 0) }
{
    Ok(Label {
        depart: None,
        progress: 0,
        state: book.root(tour.start)?,
    })
}

/// Checks the successors of the first label: two, by driving and by rest.
fn grows_by_driving_and_by_rest<B: RuleBook>(
    rt: &impl Abort,
    alloc: Global,
    book: &B,
    tour: &Tour,
) -> Result<(), Fail>
    requires tour { IsTour tour.now }
    requires params { (B.machine book.now).params ≡ tour.now.params }
{
    let label = first_label(book, tour)?;
    let growths = successors(alloc, book, tour, &label, 0)?;
    let grown = growths.items();
    assert_eq!(rt; grown.len(), 2);
    assert_eq!(rt; grown[0].act, Activity::Drive);
    assert_eq!(rt; grown[0].label.depart, Some(0));
    assert_eq!(rt; grown[0].label.progress, 1);
    assert_eq!(rt; grown[1].act, Activity::Off);
    assert_eq!(rt; grown[1].label.depart, None);
    assert_eq!(rt; grown[1].label.progress, 0);
    Ok(())
}

/// An entry of the first layer.
fn kept_first<B: RuleBook>(book: &B, tour: &Tour) -> Result<Kept<B::State>, NoMemory>
    requires tour { IsTour tour.now }
    requires params { (B.machine book.now).params ≡ tour.now.params }
    ensures { IfOk result (λ kept. (B.machine book.now).is_state kept.label.state (minute_of tour.now 0)) }
{
    Ok(Kept {
        label: first_label(book, tour)?,
        parent: 0,
        act: Activity::Off,
        mark: None,
    })
}

/// Checks that a label that is offered twice is kept once.
fn keeps_a_label_once<B: RuleBook>(
    rt: &impl Abort,
    alloc: Global,
    book: &B,
    tour: &Tour,
) -> Result<(), Fail>
    requires tour { IsTour tour.now }
    requires params { (B.machine book.now).params ≡ tour.now.params }
{
    let one = kept_first(book, tour)?;
    let other = kept_first(book, tour)?;
    assert!(rt; better(book, tour, &one.label, &other.label, 0));
    let mut layers = Layers::new(alloc);
    layers.push_layer(alloc)?;
    assert_eq!(rt; offer(book, tour, &mut layers, one)?, Offered::Kept);
    assert_eq!(rt;
        offer(book, tour, &mut layers, other)?,
        Offered::Covered { index: 0 }
    );
    assert_eq!(rt; layers.kept(), 1);
    Ok(())
}

/// The first of the successors, where there is one.
fn first_of<S: Drop>(nexts: Nexts<S>) -> Option<Next<S>>
    ensures { IfSome result (λ next. IsOneOf (listed nexts) next) }
{
    let Nexts { a, b, c } = nexts;
    if a.is_some() {
        return a;
    }
    if b.is_some() {
        return b;
    }
    c
}

/// The state after one more step, which is this step of the tour: None where a rule forbids it.
fn state_after<B: RuleBook>(
    book: &B,
    tour: &Tour,
    state: &B::State,
    step: u32,
    act: Activity,
) -> Result<Option<B::State>, NoMemory>
    requires tour { IsTour tour.now }
    requires params { (B.machine book.now).params ≡ tour.now.params }
    requires state { (B.machine book.now).is_state state.now (minute_of tour.now step) }
    requires step { step < STEP_LIMIT }
    ensures { IfOk result (λ o. IfSome o (λ s. (B.machine book.now).is_state s (minute_of tour.now (step + 1)))) }
{
    let units = tour.grid / unit_of(tour.params);
    let nexts = book.advance(state, minute_at(tour, step), act, units)?;
    match first_of(nexts) {
        Some(next) => Ok(Some(next.state)),
        None => Ok(None),
    }
}

/// The state of a driver with no history after a step of driving and three more.
fn state_at_four<B: RuleBook>(
    book: &B,
    tour: &Tour,
    second: Activity,
    third: Activity,
    fourth: Activity,
) -> Result<Option<B::State>, NoMemory>
    requires tour { IsTour tour.now }
    requires params { (B.machine book.now).params ≡ tour.now.params }
    ensures { IfOk result (λ o. IfSome o (λ s. (B.machine book.now).is_state s (minute_of tour.now 4))) }
{
    let first = book.root(tour.start)?;
    let Some(one) = state_after(book, tour, &first, 0, Activity::Drive)? else {
        return Ok(None);
    };
    let Some(two) = state_after(book, tour, &one, 1, second)? else {
        return Ok(None);
    };
    let Some(three) = state_after(book, tour, &two, 2, third)? else {
        return Ok(None);
    };
    state_after(book, tour, &three, 3, fourth)
}

/// An entry of the layer of step 4 that has departed at once.
fn kept_at_four<S>(progress: u32, state: S) -> Kept<S>
    ensures label { result.label.state ≡ state }
{
    Kept {
        label: Label {
            depart: Some(0),
            progress,
            state,
        },
        parent: 0,
        act: Activity::Off,
        mark: None,
    }
}

/// The layers up to that of step 4, with no labels.
fn layers_to_four<S: Drop>(alloc: Global) -> Result<Layers<S>, NoMemory>
    ensures { IfOk result (λ layers. layers ≡ [] ∷ [] ∷ [] ∷ [] ∷ [] ∷ []) }
{
    let mut layers = Layers::new(alloc);
    layers.push_layer(alloc)?;
    layers.push_layer(alloc)?;
    layers.push_layer(alloc)?;
    layers.push_layer(alloc)?;
    layers.push_layer(alloc)?;
    Ok(layers)
}

/// Checks that a label that has driven to the first stop, served it and rests stands for one that
/// has only driven there and waits, and not the reverse.
fn waits_for_a_label_that_has_done_less<B: RuleBook>(
    rt: &impl Abort,
    alloc: Global,
    book: &B,
    tour: &Tour,
) -> Result<(), Fail>
    requires tour { IsTour tour.now }
    requires params { (B.machine book.now).params ≡ tour.now.params }
{
    let rested = state_at_four(book, tour, Activity::Serve, Activity::Off, Activity::Off)?;
    let waited = state_at_four(book, tour, Activity::Wait, Activity::Wait, Activity::Wait)?;
    let (Some(rested), Some(waited)) = (rested, waited) else {
        assert!(rt; false);
        return Ok(());
    };
    let more = kept_at_four(2, rested);
    let less = kept_at_four(1, waited);
    assert!(rt; better(book, tour, &more.label, &less.label, 4));
    assert!(rt; !better(book, tour, &less.label, &more.label, 4));
    let mut layers = layers_to_four(alloc)?;
    assert_eq!(rt; offer(book, tour, &mut layers, more)?, Offered::Kept);
    assert_eq!(rt;
        offer(book, tour, &mut layers, less)?,
        Offered::Covered { index: 0 }
    );
    Ok(())
}

/// Checks that the number beside a layer comes above the progress of a label that it keeps whose
/// state is ahead, and stays where a label is covered; the answers are those of `offer`.
fn keeps_a_number_above_labels_ahead<B: RuleBook>(
    rt: &impl Abort,
    alloc: Global,
    book: &B,
    tour: &Tour,
) -> Result<(), Fail>
    requires tour { IsTour tour.now }
    requires params { (B.machine book.now).params ≡ tour.now.params }
{
    let rested = state_at_four(book, tour, Activity::Serve, Activity::Off, Activity::Off)?;
    let waited = state_at_four(book, tour, Activity::Wait, Activity::Wait, Activity::Wait)?;
    let (Some(rested), Some(waited)) = (rested, waited) else {
        assert!(rt; false);
        return Ok(());
    };
    let more = kept_at_four(2, rested);
    let less = kept_at_four(1, waited);
    assert!(rt; book.ahead(&more.label.state));
    let mut layers = layers_to_four(alloc)?;
    let mut ahead_end = 0;
    let first = offer_to(book, tour, &mut layers, &mut ahead_end, more)?;
    assert_eq!(rt; first, Offered::Kept);
    assert_eq!(rt; ahead_end, 3);
    let second = offer_to(book, tour, &mut layers, &mut ahead_end, less)?;
    assert_eq!(rt; second, Offered::Covered { index: 0 });
    assert_eq!(rt; ahead_end, 3);
    Ok(())
}

#[test]
fn labels_of_two_short_stops(rt: HostRuntime) -> Result<(), Fail> {
    let alloc = rt.alloc();
    let tour = read_tour(alloc, TWO_STOPS.as_bytes())?;
    let Some(book) = book_of(tour.params) else {
        assert!(rt; false);
        return Ok(());
    };
    waits_for_a_label_that_has_done_less(&rt, alloc, &book, &tour)?;
    keeps_a_number_above_labels_ahead(&rt, alloc, &book, &tour)
}

#[test]
fn labels_of_a_short_tour(rt: HostRuntime) -> Result<(), Fail> {
    let alloc = rt.alloc();
    let tour = read_tour(alloc, FORM.as_bytes())?;
    let Some(book) = book_of(tour.params) else {
        assert!(rt; false);
        return Ok(());
    };
    grows_by_driving_and_by_rest(&rt, alloc, &book, &tour)?;
    keeps_a_label_once(&rt, alloc, &book, &tour)
}
