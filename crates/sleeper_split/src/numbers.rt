//! The numbers by which the counts of split rests are written down.
ghost use Rattle.std.specs.Prelude.{◌≡◌, ◌+◌, ◌<◌, ◌≤◌, length, if◌then◌else◌, Some, None};
ghost use Rattle.sleeper_split.specs.Numbers.{split_numbers, used_at, waiting_of, split_of, is_count};

use crate::count::{OpenRun, SplitCount, Used, WaitingRest};
use crate::rule::SplitRule;

/// How many numbers counts have.
pub const SPLIT_NUMBERS: usize = 11;

impl SplitCount {
    /// The numbers of the counts: of the run in progress, since the base, since the last full or
    /// split rest, and of the split rest that waits.
    pub fn numbers(self) -> [u32; 11]
        ensures { result ≡ split_numbers self }
    {
        let run = self.run();
        let base = self.base();
        let last = self.last();
        let (long, berth) = match self.waiting() {
            None => (0, 0),
            Some(rest) => (rest.long, rest.berth),
        };
        [
            run.long,
            run.stretch,
            run.longest,
            base.driving,
            base.duty,
            base.elapsed,
            last.driving,
            last.duty,
            last.elapsed,
            long,
            berth,
        ]
    }

    /// The counts of the rule that have these numbers, which more may follow, or `None` where no
    /// counts have them. `may` tells whether rests may be split.
    pub fn of_numbers(numbers: &[u32], rule: SplitRule, may: bool) -> Option<SplitCount>
        requires { SPLIT_NUMBERS ≤ length numbers.now }
        ensures { result ≡ if is_count rule may (split_of numbers.now) then Some (split_of numbers.now) else None }
    {
        let run = OpenRun {
            long: numbers[0],
            stretch: numbers[1],
            longest: numbers[2],
        };
        let base = used_at(numbers, 3);
        let last = used_at(numbers, 6);
        let waiting = waiting_by(numbers[9], numbers[10]);
        let split = SplitCount::of_parts(run, base, last, waiting)?;
        split.is_of(rule, may).then_some(split)
    }
}

/// What the three numbers from this place on count.
fn used_at(numbers: &[u32], i: usize) -> Used
    requires { i + 2 < length numbers.now }
    ensures { result ≡ used_at numbers.now i }
{
    Used {
        driving: numbers[i],
        duty: numbers[i + 1],
        elapsed: numbers[i + 2],
    }
}

/// The split rest that waits with these numbers, or none where both are 0.
fn waiting_by(long: u32, berth: u32) -> Option<WaitingRest>
    ensures { result ≡ waiting_of long berth }
{
    if long == 0 && berth == 0 {
        None
    } else {
        Some(WaitingRest { long, berth })
    }
}
