//! Going over a log of what a driver has done.
ghost use Rattle.std.specs.Prelude.{◌≡◌, ◌↔◌, ◌++◌, [], ◌∷◌, map, IfOk, OnOk, IsTrue};
ghost use Rattle.std.specs.Option.{option_to_list};
ghost use Rattle.duty_core.specs.Params.{unit_minutes};
ghost use Rattle.duty_core.specs.History.{IsTimed};
ghost use Rattle.duty_core.specs.Lawful.{IsLawful};
ghost use Rattle.rule_core.specs.Reach.{listed};
ghost use Rattle.rule_core.specs.Replay.{root_by, roots_over, MayAdvance, GoesOn, IsFirstRefused, AreRootsOf, IsFirstUnlawful, IfLawful, IfUnlawful};
ghost use Rattle.rule_core.specs.Pruned.{ArePruned};

use crate::book::RuleBook;
use crate::nexts::{Next, Nexts};
use crate::pruned::{distinct, uncovered};
use crate::roots::{Root, Roots};
use duty_core::{Activity, Marks, Minute, NoMemory, unit_of};
use std::alloc::Global;
use timeline::Timeline;

/// What going over a log shows.
#[derive(Drop)]
pub enum Replayed<S> {
    /// The log breaks no rule with some marks. These are states that it leads to, at least one, and
    /// they cover all that it leads to.
    Lawful(Roots<S>),
    /// With any marks the log breaks a rule up to this unit, counted from 0, and before it none.
    Unlawful { unit: u32 },
}

/// The number of roots at which going over a log gives up.
const ROOT_LIMIT: usize = 0xffff_ffff;

/// Adds the successor, if there is one, with the marks so far and its own.
fn push_next<S: Drop>(
    roots: &mut Roots<S>,
    marks: Marks,
    next: Option<Next<S>>,
) -> Result<(), NoMemory>
    ensures ok { OnOk result (roots.new ≡ roots.old ++ map (root_by marks) (option_to_list next)) }
{
    let Some(Next { state, mark }) = next else {
        return Ok(());
    };
    let mut marks = marks;
    if let Some(mark) = mark {
        marks.push(mark)?;
    }
    roots.push(Root { state, marks })
}

/// Adds each successor with the marks so far and its own.
fn push_nexts<S: Drop>(roots: &mut Roots<S>, marks: Marks, nexts: Nexts<S>) -> Result<(), NoMemory>
    ensures ok { OnOk result (roots.new ≡ roots.old ++ map (root_by marks) (listed nexts)) }
{
    let Nexts { a, b, c } = nexts;
    if b.is_none() && c.is_none() {
        return push_next(roots, marks, a);
    }
    push_next(roots, marks.copy()?, a)?;
    push_next(roots, marks.copy()?, b)?;
    push_next(roots, marks, c)
}

/// What `n` equal units, the first of which begins at `at`, make of the roots.
fn roots_after<B: RuleBook>(
    alloc: Global,
    book: &B,
    roots: Roots<B::State>,
    at: Minute,
    act: Activity,
    n: u32,
) -> Result<Roots<B::State>, NoMemory>
    requires { MayAdvance (B.machine book.now) at n roots }
    ensures { IfOk result (λ after. after ≡ roots_over (B.machine book.now) at act n roots) }
{
    let roots = roots.into_vec();
    let mut after = Roots::new(alloc);
    for root in roots {
        let Root { state, marks } = root;
        let nexts = book.advance(&state, at, act, n)?;
        push_nexts(&mut after, marks, nexts)?;
    }
    Ok(after)
}

/// What `n` equal units, the first of which begins at `at`, make of the roots; of equal states one,
/// where they make more roots than there were.
fn roots_on<B: RuleBook>(
    alloc: Global,
    book: &B,
    roots: Roots<B::State>,
    at: Minute,
    act: Activity,
    n: u32,
) -> Result<Roots<B::State>, NoMemory>
    requires { MayAdvance (B.machine book.now) at n roots }
    ensures { IfOk result (λ kept. ArePruned (λ a b. a ≡ b) (roots_over (B.machine book.now) at act n roots) kept) }
{
    let before = roots.len();
    let after = roots_after(alloc, book, roots, at, act, n)?;
    if after.len() <= before {
        return Ok(after);
    }
    distinct(alloc, book, after, at + unit_of(book.params()) * n)
}

/// Whether some root goes on over `n` equal units, the first of which begins at `at`.
fn goes_on<B: RuleBook>(
    book: &B,
    roots: &[Root<B::State>],
    at: Minute,
    act: Activity,
    n: u32,
) -> Result<bool, NoMemory>
    requires { MayAdvance (B.machine book.now) at n roots.now }
    ensures { IfOk result (λ goes. IsTrue goes ↔ GoesOn (B.machine book.now) at act n roots.now) }
{
    for root in roots {
        let nexts = book.advance(&root.state, at, act, n)?;
        if !nexts.is_empty() {
            return Ok(true);
        }
    }
    Ok(false)
}

/// Of `n` equal units, over which no root goes on, the first over which none does, counted from 0.
///
/// What goes on over units goes on over fewer, so the unit is found by halving.
fn first_refused<B: RuleBook>(
    book: &B,
    roots: &[Root<B::State>],
    at: Minute,
    act: Activity,
    n: u32,
) -> Result<u32, NoMemory>
    requires can { MayAdvance (B.machine book.now) at n roots.now }
    requires refused { GoesOn (B.machine book.now) at act n roots.now → ⊥ }
    ensures { IfOk result (IsFirstRefused (B.machine book.now) at act n roots.now) }
{
    let mut kept = 0;
    let mut refused = n;
    while kept + 1 < refused {
        let middle = kept + (refused - kept) / 2;
        if goes_on(book, roots, at, act, middle)? {
            kept = middle;
        } else {
            refused = middle;
        }
    }
    Ok(kept)
}

/// The root of the empty log that begins at `first`.
fn first_roots<B: RuleBook>(
    alloc: Global,
    book: &B,
    first: Minute,
) -> Result<Roots<B::State>, NoMemory>
    requires { IsTimed (B.machine book.now).params first [] }
    ensures { IfOk result (λ roots. roots ≡ record { state = (B.machine book.now).root first; marks = [] } ∷ []) }
{
    let mut roots = Roots::new(alloc);
    let state = book.root(first)?;
    roots.push(Root {
        state,
        marks: Marks::new(alloc),
    })?;
    Ok(roots)
}

/// Goes over a log whose first unit begins at `first`: states that it leads to, which cover all that
/// it leads to, or the first unit up to which it breaks a rule with any marks.
///
/// `NoMemory` where there is none for the roots, and where 4,294,967,295 of them or more are kept for
/// a beginning of the log.
pub fn replay<B: RuleBook>(
    alloc: Global,
    book: &B,
    log: &Timeline,
    first: Minute,
) -> Result<Replayed<B::State>, NoMemory>
    requires timed { IsTimed (B.machine book.now).params first log.now }
    ensures lawful { IfOk result (λ answer. IfLawful answer (λ _. IsLawful (B.machine book.now).params first log.now)) }
    ensures roots { IfOk result (λ answer. IfLawful answer (AreRootsOf (unit_minutes (B.machine book.now).params) (B.machine book.now) first log.now)) }
    ensures unlawful { IfOk result (λ answer. IfUnlawful answer (IsFirstUnlawful (B.machine book.now).params first log.now)) }
{
    let minutes = unit_of(book.params());
    // Before the log's end no root is left out for one that covers it: that one answers only for what
    // a schedule may hold, and a log may hold more.
    let mut roots = first_roots(alloc, book, first)?;
    let runs = log.runs();
    for run in runs {
        let at = first + minutes * run.from;
        let n = run.to - run.from;
        if !goes_on(book, roots.items(), at, run.act, n)? {
            let unit = run.from + first_refused(book, roots.items(), at, run.act, n)?;
            return Ok(Replayed::Unlawful { unit });
        }
        roots = roots_on(alloc, book, roots, at, run.act, n)?;
        if roots.len() >= ROOT_LIMIT {
            return Err(NoMemory);
        }
    }
    let end = first + minutes * log.len();
    Ok(Replayed::Lawful(uncovered(alloc, book, roots, end)?))
}
