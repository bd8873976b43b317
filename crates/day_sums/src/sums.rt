//! The sums of the last days.
ghost use Rattle.std.specs.Prelude.{◌≡◌, ◌+◌, ◌-◌, ◌^◌, ◌<◌, ◌≤◌, ◌↔◌, length, replicate, sum, IsSome, IfSome};
ghost use Rattle.duty_core.specs.declared.limits.TheConstants.{DAY_MINUTES};
ghost use Rattle.day_sums.specs.Sums.{IsDays, first_days, added, rolled, cleared, today, AreSums, leaves_no_less};

use duty_core::DAY_MINUTES;
use std::marker::Model;

/// The duty of the last 7, 8 or 14 days that count, in minutes. Contracts see the list of the days'
/// sums, the youngest day first. Each is at most 1,440.
#[derive(Clone, Copy)]
pub struct DaySums {
    days: u8,
    sums: [u32; 14],
}

impl Model for DaySums {
    ghost use Rattle.std.specs.Prelude.{ℕ, List, ◌-◌, ◌++◌, length, replicate, take};
    ghost use Rattle.day_sums.specs.Sums.{AreKept};

    ghost Value = { List ℕ };

    ghost view = { λ s. take s.days s.sums };

    ghost invariant = { λ s. AreKept s.days s.sums };

    ghost inverse = { λ l. record { days = length l; sums = l ++ replicate (14 - length l) 0 } };
}

/// The sum of a few numbers.
fn sum_of(sums: &[u32]) -> u32
    requires { sum sums.now < 2 ^ 32 }
    ensures { result ≡ sum sums.now }
{
    sums.iter().sum()
}

impl DaySums {
    /// So many days without duty.
    pub fn new(days: u8) -> DaySums
        requires { IsDays days }
        ensures { result ≡ replicate days 0 }
    {
        DaySums {
            days,
            sums: [0; 14],
        }
    }

    /// The sums of the days, the youngest first.
    pub fn sums(&self) -> &[u32]
        ensures sums { result.now ≡ self.now }
        ensures kept { AreSums self.now }
    {
        &self.sums[..self.days as usize]
    }

    /// The number of days.
    pub fn days(&self) -> u8
        ensures days { result ≡ length self.now }
        ensures kept { IsDays result }
    {
        self.days
    }

    /// The sums with these numbers, the youngest day first, or `None` exactly where these are not 7,
    /// 8 or 14 numbers of at most 1,440 each.
    pub fn of_sums(sums: &[u32]) -> Option<DaySums>
        ensures there { IsSome result ↔ AreSums sums.now }
        ensures same { IfSome result (λ s. s ≡ sums.now) }
    {
        let days = sums.len();
        if days != 7 && days != 8 && days != 14 {
            return None;
        }
        if sums.iter().any(|n| *n > DAY_MINUTES) {
            return None;
        }
        let mut kept = [0; 14];
        kept[..days].copy_from_slice(sums);
        Some(DaySums {
            days: days as u8,
            sums: kept,
        })
    }

    /// `n` more minutes of duty in the youngest day.
    pub fn add(&mut self, n: u32)
        requires { today self.old + n ≤ DAY_MINUTES }
        ensures { self.new ≡ added n self.old }
    {
        self.sums[0] += n;
    }

    /// A new day begins, and the oldest one falls out.
    pub fn roll_day(&mut self)
        ensures { self.new ≡ rolled self.old }
    {
        let days = self.days as usize;
        let mut sums = [0; 14];
        sums[1..days].copy_from_slice(&self.sums[..days - 1]);
        self.sums = sums;
    }

    /// A restart: no duty so far counts any more.
    pub fn reset(&mut self)
        ensures { self.new ≡ cleared self.old }
    {
        self.sums = [0; 14];
    }

    /// The duty of the youngest day, in minutes.
    pub fn today(&self) -> u32
        ensures { result ≡ today self.now }
    {
        self.sums[0]
    }

    /// The duty of all the days, in minutes.
    pub fn total(&self) -> u32
        ensures { result ≡ sum self.now }
    {
        sum_of(self.sums())
    }

    /// `limit` less the duty that still counts after so many day turns, or 0.
    pub fn left_after(&self, limit: u32, rolls: u8) -> u32
        ensures { result ≡ limit - first_days (length self.now - rolls) self.now }
    {
        let days = self.days.saturating_sub(rolls) as usize;
        limit.saturating_sub(sum_of(&self.sums()[..days]))
    }

    /// Whether these sums leave no less of the limit than the others, of as many days, after each
    /// number of day turns.
    pub fn leaves_no_less(&self, other: &DaySums, limit: u32) -> bool
        requires { length self.now ≡ length other.now }
        ensures { result ≡ leaves_no_less limit (length self.now) self.now other.now }
    {
        sums_leave_no_less(self.sums(), other.sums(), limit)
    }
}

/// Whether of each number of youngest days the first sums leave no less of the limit.
fn sums_leave_no_less(sums: &[u32], others: &[u32], limit: u32) -> bool
    requires same { length sums.now ≡ length others.now }
    requires kept { AreSums sums.now }
    requires others_kept { AreSums others.now }
    ensures { result ≡ leaves_no_less limit (length sums.now) sums.now others.now }
{
    let mut first = 0;
    let mut other = 0;
    for n in 0..sums.len() {
        first += sums[n];
        other += others[n];
        let left = limit.saturating_sub(first);
        let left_other = limit.saturating_sub(other);
        if left < left_other {
            return false;
        }
    }
    true
}
