//! The conditions on the labels of one layer.
ghost use Rattle.std.specs.Prelude.{◌≡◌, ◌+◌, ◌<◌, ◌≤◌, length, take, Some, IfOk, MatchOption};
ghost use Rattle.tour_model.specs.declared.limits.TheConstants.{STEP_LIMIT};
ghost use Rattle.tour_model.specs.declared.label.Label.{Label};
ghost use Rattle.cert_text.specs.CoverLists.Planning.{problem_by, state_at};
ghost use Rattle.cert_text.specs.CoverLists.Bound.{IsBoundOf};
ghost use Rattle.cert_checker.specs.Parsed.{there, AreWithin};
ghost use Rattle.cert_checker.specs.Terms.{AreTerms, AreStatesAt};
ghost use Rattle.cert_checker.specs.Conditions.{Passes, FailsBy, PassUpTo, IsFirstFault};

use crate::label::fault_of;
use crate::listing::Listing;
use crate::terms::Terms;
use crate::verdict::Reason;
use cert_text::LabelBound;
use duty_core::NoMemory;
use rule_core::RuleBook;
use tour_model::Label;

/// The place of a label in its layer, and the first condition that fails there.
#[derive(Clone, Copy, Debug, PartialEq, Eq)]
pub struct LabelFault {
    pub index: u64,
    pub reason: Reason,
}

/// The first condition that fails at a label, where one does; State where none is there.
fn fault_at<B: RuleBook, K: LabelBound<B::State>>(
    terms: &Terms<'_, B, K>,
    step: u32,
    label: &Option<Label<B::State>>,
    labels: &Listing<B::State>,
    place: usize,
    next: &Listing<B::State>,
) -> Result<Option<Reason>, NoMemory>
    requires terms { AreTerms terms.now (B.machine terms.now.book.now) }
    requires state { (l : Label B.State) → label.now ≡ Some l → state_at terms.now.tour.now (B.machine terms.now.book.now) l.state step }
    requires progress { (l : Label B.State) → label.now ≡ Some l → l.progress ≤ terms.now.goal }
    requires labels { AreStatesAt terms.now (B.machine terms.now.book.now) step labels.now }
    requires place { place ≤ length labels.now }
    requires bound { IsBoundOf terms.now.tour.now (B.machine terms.now.book.now) (K.bounds terms.now.bound.now) }
    requires next { AreStatesAt terms.now (B.machine terms.now.book.now) (step + 1) next.now }
    requires step { step + 1 < STEP_LIMIT }
    ensures { IfOk result (λ o. MatchOption o
        (Passes (problem_by terms.now.tour.now (B.machine terms.now.book.now) (K.bounds terms.now.bound.now).bound) (state_at terms.now.tour.now (B.machine terms.now.book.now)) terms.now.target step (there (take place labels.now)) (there next.now) label.now)
        (FailsBy (problem_by terms.now.tour.now (B.machine terms.now.book.now) (K.bounds terms.now.bound.now).bound) (state_at terms.now.tour.now (B.machine terms.now.book.now)) terms.now.target step (there (take place labels.now)) (there next.now) label.now)) }
{
    match label {
        None => Ok(Some(Reason::State)),
        Some(label) => fault_of(terms, step, label, labels, place, next),
    }
}

/// The first label of the layer at which a condition fails, where there is one.
pub fn first_fault<B: RuleBook, K: LabelBound<B::State>>(
    terms: &Terms<'_, B, K>,
    step: u32,
    labels: &Listing<B::State>,
    next: &Listing<B::State>,
) -> Result<Option<LabelFault>, NoMemory>
    requires terms { AreTerms terms.now (B.machine terms.now.book.now) }
    requires within { AreWithin terms.now.goal labels.now }
    requires labels { AreStatesAt terms.now (B.machine terms.now.book.now) step labels.now }
    requires bound { IsBoundOf terms.now.tour.now (B.machine terms.now.book.now) (K.bounds terms.now.bound.now) }
    requires next { AreStatesAt terms.now (B.machine terms.now.book.now) (step + 1) next.now }
    requires step { step + 1 < STEP_LIMIT }
    ensures { IfOk result (λ o. MatchOption o
        (PassUpTo (problem_by terms.now.tour.now (B.machine terms.now.book.now) (K.bounds terms.now.bound.now).bound) (state_at terms.now.tour.now (B.machine terms.now.book.now)) terms.now.target step
        labels.now (there next.now) (length labels.now))
        (IsFirstFault (problem_by terms.now.tour.now (B.machine terms.now.book.now) (K.bounds terms.now.bound.now).bound) (state_at terms.now.tour.now (B.machine terms.now.book.now)) terms.now.target step
        labels.now (there next.now))) }
{
    for (index, label) in labels.items().iter().enumerate() {
        if let Some(reason) = fault_at(terms, step, label, labels, index, next)? {
            return Ok(Some(LabelFault {
                index: index as u64,
                reason,
            }));
        }
    }
    Ok(None)
}
