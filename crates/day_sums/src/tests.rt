//! Days of ten hours, days that fall out, and what sums leave of a limit.
use crate::sums::DaySums;
use std::test::Fail;

#[test]
fn eight_days_of_ten_hours(rt: HostRuntime) -> Result<(), Fail> {
    let sums = DaySums::of_sums(&[600; 8]).ok_or("no sums")?;
    assert_eq!(rt; sums.days(), 8);
    assert_eq!(rt; sums.total(), 4800);
    assert_eq!(rt; sums.left_after(4200, 0), 0);
    assert_eq!(rt; sums.left_after(4200, 1), 0);
    assert_eq!(rt; sums.left_after(4200, 2), 600);
    Ok(())
}

#[test]
fn duty_above_the_limit_is_all_alike(rt: HostRuntime) {
    let mut few = DaySums::new(7);
    few.add(600);
    few.roll_day();
    few.add(600);
    let mut more = few;
    more.add(100);
    assert!(rt; few.leaves_no_less(&more, 1300));
    assert!(rt; !more.leaves_no_less(&few, 1300));
    assert!(rt; more.leaves_no_less(&few, 600));
}

#[test]
fn a_day_falls_out(rt: HostRuntime) -> Result<(), Fail> {
    let mut sums = DaySums::new(7);
    sums.add(500);
    sums.roll_day();
    sums.add(40);
    let expected = [40, 500, 0, 0, 0, 0, 0];
    assert_eq!(rt; sums.sums(), expected.as_slice());
    for _ in 0..6 {
        sums.roll_day();
    }
    assert_eq!(rt; sums.total(), 40);
    sums.reset();
    assert_eq!(rt; sums.total(), 0);
    assert_eq!(rt; sums.days(), 7);
    Ok(())
}

#[test]
fn only_such_numbers_are_sums(rt: HostRuntime) {
    assert!(rt; DaySums::of_sums(&[1440; 14]).is_some());
    assert!(rt; DaySums::of_sums(&[1441; 14]).is_none());
    assert!(rt; DaySums::of_sums(&[0; 9]).is_none());
}
