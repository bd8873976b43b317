//! A graph by hand.
use crate::draw::graph;
use duty_core::{Activity, Params};
use std::test::Fail;
use timeline::Timeline;

#[test]
fn quarters_are_whole_parts_or_none(rt: HostRuntime) -> Result<(), Fail> {
    let alloc = rt.alloc();
    let mut history = Timeline::new(alloc);
    history.push_run(Activity::Drive, 20)?;
    history.push_run(Activity::Berth, 10)?;
    let params = Params::UsProperty {
        berth: true,
        days: 8,
        day_start: 0,
    };
    let text = graph(alloc, params, &history, 2_880)?;
    let wanted = "day 2000-01-03T00:00
OFF  ................................................................................................ 00:00
SB   .+.............................................................................................. 00:10
D    #+.............................................................................................. 00:20
ON   ................................................................................................ 00:00
";
    assert_eq!(rt; text.as_bytes(), wanted.as_bytes());
    Ok(())
}
