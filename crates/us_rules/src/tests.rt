//! The book's calls, at a day of driving.
use crate::book::UsBook;
use crate::state::BreakCount;
use duty_core::Activity;
use rule_core::{Nexts, RuleBook};
use std::test::Fail;

#[test]
fn drives_eight_hours_without_a_break(rt: HostRuntime) -> Result<(), Fail> {
    let book = UsBook::new(false, 8, 0);
    let root = book.root(0)?;
    let Nexts { a, b, c } = book.advance(&root, 0, Activity::Drive, 480)?;
    // The rest before the history is a full rest that ends here.
    let shift = c.ok_or("refused")?;
    assert!(rt; shift.mark.is_none() && a.is_none() && b.is_none());
    let unbroken = BreakCount {
        still: 0,
        driven: 480,
    };
    assert_eq!(rt; shift.state.rest_break, unbroken);
    let Nexts { a, b, c } = book.advance(&root, 0, Activity::Drive, 481)?;
    assert!(rt; a.is_none() && b.is_none() && c.is_none());
    Ok(())
}
