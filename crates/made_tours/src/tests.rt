//! The first made tour, as it is read.
use crate::made::made_tour;
use std::test::Fail;

#[test]
fn the_first_tour_and_its_log_are_read(rt: HostRuntime) -> Result<(), Fail> {
    let made = made_tour(rt.alloc(), 1)?;
    let stops = made.tour.stops.items();
    assert_eq!(rt; stops.len(), 20);
    assert_eq!(rt; (stops[0].drive, stops[0].service), (7, 1));
    assert_eq!(rt; (stops[1].drive, stops[1].service), (4, 2));
    assert_eq!(rt; (stops[2].drive, stops[2].service), (4, 1));
    assert_eq!(rt; stops[19].name.items(), "S20".as_bytes());
    assert_eq!(rt; made.tour.start, 13_762_440);
    assert_eq!(rt; made.log.len(), 9_960);
    Ok(())
}
