//! The answer to a fault that no log of the planned books has.

use crate::texts::log_refused_text;
use duty_log::LogFault;
use std::test::Fail;

#[test]
fn tells_a_row_that_is_not_on_a_unit(rt: HostRuntime) -> Result<(), Fail> {
    let text = log_refused_text(rt.alloc(), LogFault::NotOnUnit { row: 1 })?;
    assert_eq!(rt; text.as_bytes(), "log refused: NotOnUnit 1\n".as_bytes());
    Ok(())
}
