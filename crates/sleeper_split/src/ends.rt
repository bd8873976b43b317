//! How the rest run in progress may end where duty begins.
ghost use Rattle.std.specs.Prelude.{◌≡◌, None};
ghost use Rattle.sleeper_split.specs.Ends.{ends_made};

use crate::count::SplitCount;

/// The counts after more minutes, by how the rest run in progress ends: with no declaration, as a
/// split rest, or as a full rest. Where none ends, the counts stand as the first.
#[derive(Clone, Copy)]
pub struct Ends {
    /// The counts where the run ends with no declaration, or where none ends.
    pub plain: Option<SplitCount>,
    /// The counts where the run ends as a split rest.
    pub split: Option<SplitCount>,
    /// The counts where the run ends as a full rest.
    pub full: Option<SplitCount>,
}

impl Ends {
    /// No run ends.
    pub fn only(count: Option<SplitCount>) -> Ends
        ensures { result ≡ ends_made count None None }
    {
        Ends {
            plain: count,
            split: None,
            full: None,
        }
    }
}
