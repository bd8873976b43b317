//! The book's calls, at days of duty.
use crate::book::CanadaBook;
use crate::state::DayDuty;
use duty_core::{Activity, Mark, RestWay};
use rule_core::{Nexts, RuleBook};
use std::test::Fail;

#[test]
fn defers_a_day_of_841_to_960_lost_minutes(rt: HostRuntime) -> Result<(), Fail> {
    let book = CanadaBook::new(false, RestWay::Defer, 1, 0);
    let root = book.root(0)?;
    for (lost, mark) in [(840, None), (960, Some(Mark::DeferDay { day: 0 }))] {
        let Nexts { a, b, c } = book.advance(&root, 0, Activity::Serve, lost)?;
        // The rest before the history is a full rest that ends here.
        let shift = c.ok_or("refused")?;
        assert_eq!(rt; shift.mark, mark, "{lost}");
        assert!(rt; a.is_none() && b.is_none(), "{lost}");
        if mark.is_none() {
            let whole_day = DayDuty {
                driving: 0,
                duty: lost,
            };
            assert_eq!(rt; shift.state.calendar.day, whole_day);
        }
    }
    let Nexts { a, b, c } = book.advance(&root, 0, Activity::Serve, 961)?;
    assert!(rt; a.is_none() && b.is_none() && c.is_none());
    Ok(())
}
