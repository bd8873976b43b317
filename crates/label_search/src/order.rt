//! The order in which labels are offered to a layer.
ghost use Rattle.std.specs.Prelude.{◌≡◌, ℕ, ◌<◌, OnOk};
ghost use Rattle.std.specs.List.Sorted.{IsPermutation};
ghost use Rattle.label_search.specs.Sound.{AreOrdered};
ghost use Rattle.label_search.specs.Searching.{AreSmall, progress_rank, depart_rank};

use duty_core::NoMemory;
use label_state::Kept;
use rule_core::RuleBook;

/// The rank of a departure: the later it is, the lower. A label that has not departed has the least.
fn depart_rank<S>(kept: &Kept<S>) -> u64
    ensures { result ≡ depart_rank kept.now }
{
    match kept.label.depart {
        None => 0,
        Some(depart) => 0x1_0000_0000 - u64::from(depart),
    }
}

/// The rank of a progress: the greater it is, the lower.
fn progress_rank<S>(kept: &Kept<S>) -> u32
    ensures { result ≡ progress_rank kept.now }
{
    u32::MAX - kept.label.progress
}

/// Puts labels into the order of a layer: those that have not departed, then the others by falling
/// departure, and those of one departure by falling progress. Of one departure and progress those
/// come first whose states have the lower ranks.
pub fn put_in_order<B: RuleBook>(book: &B, list: &mut Vec<Kept<B::State>>) -> Result<(), NoMemory>
    requires small { AreSmall list.old.items }
    ensures same { IsPermutation list.old.items list.new.items }
    ensures ordered { OnOk result (AreOrdered list.new.items) }
{
    list.sort_by_cached_key(|kept| book.rank(&kept.label.state))?;
    list.sort_by_key(|kept| progress_rank(kept))?;
    list.sort_by_key(|kept| depart_rank(kept))?;
    Ok(())
}
