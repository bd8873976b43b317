//! What holds of every list of words. The functions do nothing: their clauses are the laws.
ghost use Rattle.std.specs.Prelude.{◌≡◌, ℕ, List, [], ◌∷◌, ◌++◌, codes};
ghost use Rattle.cert_text.specs.declared.text.limits.TheConstants.{MOST_LABELS};
ghost use Rattle.outside.specs.Outside.{Bytes};
ghost use Rattle.command_words.specs.declared.command.Command.{Command};
ghost use Rattle.command_words.specs.declared.command.Command.TheVariants.{Plan, Check, Audit, Graph, Make};
ghost use Rattle.report_text.specs.declared.maker.TheConstants.{MOST_MADE};
ghost use Rattle.command_words.specs.declared.command.TheConstants.{BUDGET};
ghost use Rattle.command_words.specs.Command.{IsNumber, IsCommandLine};
ghost use Rattle.command_words.specs.Names.{IsPlainName};

/// The words ask for one command at most.
pub fn words_ask_for_one_command()
    ensures { (words : List Bytes) (c d : Command) → IsCommandLine words c → IsCommandLine words d → c ≡ d }
{}

/// The plain forms are commands: a command's name, and names of files in their places.
pub fn plain_forms_are_commands()
    ensures plan { (tour log cert : Bytes) → IsPlainName tour → IsPlainName log → IsPlainName cert →
        IsCommandLine (codes "plan" ∷ tour ∷ log ∷ cert ∷ []) (Plan tour log cert BUDGET) }
    ensures check { (tour log cert : Bytes) → IsPlainName tour → IsPlainName log → IsPlainName cert →
        IsCommandLine (codes "check" ∷ tour ∷ log ∷ cert ∷ []) (Check tour log cert) }
    ensures audit { (tour log : Bytes) → IsPlainName tour → IsPlainName log →
        IsCommandLine (codes "audit" ∷ tour ∷ log ∷ []) (Audit tour log) }
    ensures graph { (tour log : Bytes) → IsPlainName tour → IsPlainName log →
        IsCommandLine (codes "graph" ∷ tour ∷ log ∷ []) (Graph tour log) }
    ensures make { (text tour log : Bytes) (number : ℕ) → IsNumber text 0 MOST_MADE number → IsPlainName tour → IsPlainName log →
        IsCommandLine (codes "make" ∷ text ∷ tour ∷ log ∷ []) (Make number tour log) }
{}

/// A budget stands after the names or before them, as two words or as one.
pub fn budgets_are_read()
    ensures after { (tour log cert text : Bytes) (budget : ℕ) → IsPlainName tour → IsPlainName log → IsPlainName cert → IsNumber text 1 MOST_LABELS budget →
        IsCommandLine (codes "plan" ∷ tour ∷ log ∷ cert ∷ codes "--budget" ∷ text ∷ []) (Plan tour log cert budget) }
    ensures before { (tour log cert text : Bytes) (budget : ℕ) → IsPlainName tour → IsPlainName log → IsPlainName cert → IsNumber text 1 MOST_LABELS budget →
        IsCommandLine (codes "plan" ∷ codes "--budget" ∷ text ∷ tour ∷ log ∷ cert ∷ []) (Plan tour log cert budget) }
    ensures joined { (tour log cert text : Bytes) (budget : ℕ) → IsPlainName tour → IsPlainName log → IsPlainName cert → IsNumber text 1 MOST_LABELS budget →
        IsCommandLine (codes "plan" ∷ tour ∷ log ∷ cert ∷ (codes "--budget=" ++ text) ∷ []) (Plan tour log cert budget) }
{}

/// After a word `--` a name may begin as it likes.
pub fn any_names_stand_after_two_hyphens()
    ensures plan { (tour log cert : Bytes) → IsCommandLine (codes "plan" ∷ codes "--" ∷ tour ∷ log ∷ cert ∷ []) (Plan tour log cert BUDGET) }
    ensures check { (tour log cert : Bytes) → IsCommandLine (codes "check" ∷ codes "--" ∷ tour ∷ log ∷ cert ∷ []) (Check tour log cert) }
    ensures audit { (tour log : Bytes) → IsCommandLine (codes "audit" ∷ codes "--" ∷ tour ∷ log ∷ []) (Audit tour log) }
    ensures graph { (tour log : Bytes) → IsCommandLine (codes "graph" ∷ codes "--" ∷ tour ∷ log ∷ []) (Graph tour log) }
    ensures make { (text tour log : Bytes) (number : ℕ) → IsNumber text 0 MOST_MADE number →
        IsCommandLine (codes "make" ∷ codes "--" ∷ text ∷ tour ∷ log ∷ []) (Make number tour log) }
{}
