//! Which labels need not be listed.
ghost use Rattle.std.specs.Prelude.{Decides};
ghost use Rattle.cert_text.specs.CoverLists.Cover.{IsPrunedAt};

/// Whether what departed then and ends at the bound at the earliest need not be listed: there is no
/// bound, or it has departed and takes at least the target, where there is one.
pub fn is_pruned(target: Option<u32>, depart: Option<u32>, bound: Option<u32>) -> bool
    ensures { Decides result (IsPrunedAt target depart bound) }
{
    let Some(bound) = bound else {
        return true;
    };
    match (target, depart) {
        (Some(target), Some(depart)) => target <= bound.saturating_sub(depart),
        _ => false,
    }
}
