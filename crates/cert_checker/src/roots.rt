//! The condition on layer 0.
ghost use Rattle.std.specs.Prelude.{Decides};
ghost use Rattle.rule_core.specs.Replay.{AreRootStates};
ghost use Rattle.tour_model.specs.Tour.{IsTour};
ghost use Rattle.cert_text.specs.CoverLists.Planning.{problem_of, minute_of};
ghost use Rattle.cert_checker.specs.Parsed.{there};
ghost use Rattle.cert_checker.specs.Terms.{AreStatesAt};
ghost use Rattle.cert_checker.specs.Rooted.{AreRooted};

use crate::asked::Asked;
use crate::covered::is_covered;
use crate::listing::Listing;
use crate::terms::Terms;
use rule_core::{Root, RuleBook};

/// Whether each root is covered by one of the labels that has not departed and has done nothing.
pub fn are_rooted<B: RuleBook, K>(
    terms: &Terms<'_, B, K>,
    labels: &Listing<B::State>,
    roots: &[Root<B::State>],
) -> bool
    requires tour { IsTour terms.now.tour.now }
    requires labels { AreStatesAt terms.now (B.machine terms.now.book.now) 0 labels.now }
    requires roots { AreRootStates (B.machine terms.now.book.now) (minute_of terms.now.tour.now 0) roots.now }
    ensures { Decides result (AreRooted (problem_of terms.now.tour.now (B.machine terms.now.book.now)) (there labels.now) roots.now) }
{
    for root in roots {
        let asked = Asked {
            depart: None,
            progress: 0,
            state: &root.state,
        };
        if !is_covered(terms, 0, labels, &asked) {
            return false;
        }
    }
    true
}
