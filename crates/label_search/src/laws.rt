//! What holds of the paths of sound layers. The function does nothing: its clause is the law.
ghost use Rattle.std.specs.Prelude.{◌≡◌, ℕ, ◌*◌, ◌≤◌, List, length, Some};
ghost use Rattle.duty_core.specs.declared.limits.TheConstants.{LONGEST_LOG};
ghost use Rattle.duty_core.specs.Params.{unit_minutes};
ghost use Rattle.rule_core.specs.declared.roots.Root.{Root};
ghost use Rattle.rule_core.specs.Reach.{IsOneOf};
ghost use Rattle.rule_core.specs.Machine.{LeadsTo};
ghost use Rattle.tour_model.specs.Tour.{IsTour};
ghost use Rattle.tour_model.specs.Word.{word_length};
ghost use Rattle.tour_model.specs.Schedule.{log_start, IsSolutionWith};
ghost use Rattle.label_state.specs.declared.kept.Kept.{Kept};
ghost use Rattle.label_state.specs.Path.{kept_at, path_of, path_marks};
ghost use Rattle.cert_text.specs.CoverLists.Planning.{problem_of};
ghost use Rattle.label_search.specs.Sound.{IsSound};

use rule_core::RuleBook;
use timeline::Timeline;
use tour_model::Tour;

/// The path to a finished label of sound layers is a schedule that serves the tour, and the log
/// followed by it is lawful with the marks of the path, where the log reaches each root with that
/// root's marks.
pub fn paths_are_lawful<B: RuleBook>(book: &B, tour: &Tour, log: &Timeline)
    requires tour { IsTour tour.now }
    requires params { (B.machine book.now).params ≡ tour.now.params }
    requires short { unit_minutes tour.now.params * length log.now ≤ LONGEST_LOG }
    ensures { (roots : List (Root B.State)) (layers : List (List (Kept B.State))) (step index : ℕ) (k : Kept B.State) →
        ((root : Root B.State) → IsOneOf roots root → LeadsTo (unit_minutes tour.now.params) (B.machine book.now) (log_start tour.now log.now) log.now root.marks root.state) →
        IsSound (problem_of tour.now (B.machine book.now)) roots layers →
        kept_at layers step index ≡ Some k → k.label.progress ≡ word_length tour.now →
        IsSolutionWith tour.now log.now (path_of layers step index) (path_marks layers roots step index) }
{
    let _ = book;
    let _ = tour;
    let _ = log;
}
