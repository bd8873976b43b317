use crate::{Allowances, Limit, implies};
use std::test::Fail;

/// How many of so many duty units in a row may be.
fn spent(held: &mut Allowances, times: u32) -> u32 {
    let mut done: u32 = 0;
    for _ in 0..times {
        if held.spend() {
            done = done.saturating_add(1);
        }
    }
    done
}

#[test]
fn tells_what_a_limit_implies(rt: HostRuntime) -> Result<(), Fail> {
    let a = Limit { units: 10, duty: 4 };
    assert!(rt; implies(a, Limit { units: 12, duty: 6 }));
    assert!(rt; !implies(a, Limit { units: 12, duty: 5 }));
    assert!(rt; implies(a, Limit { units: 3, duty: 4 }));
    assert!(rt; !implies(a, Limit { units: 3, duty: 3 }));
    Ok(())
}

#[test]
fn spends_what_a_limit_leaves(rt: HostRuntime) -> Result<(), Fail> {
    let mut held = Allowances::new(rt.alloc());
    held.add(22, 21)?;
    assert_eq!(rt; spent(&mut held, 21), 21);
    assert!(rt; !held.spend());
    assert_eq!(rt; held.limits(), [Limit { units: 1, duty: 0 }].as_slice());
    held.pass();
    assert!(rt; held.limits().is_empty());
    assert!(rt; held.spend());
    Ok(())
}

#[test]
fn spends_what_a_need_leaves(rt: HostRuntime) -> Result<(), Fail> {
    let mut held = Allowances::new(rt.alloc());
    held.need(96, 28)?;
    assert_eq!(rt; spent(&mut held, 68), 68);
    assert!(rt; !held.spend());
    for _ in 0..28 {
        assert_eq!(rt; held.needs().len(), 1);
        held.pass();
    }
    assert!(rt; held.needs().is_empty());
    assert_eq!(rt; held.run(), 28);
    assert!(rt; held.spend());
    Ok(())
}

#[test]
fn keeps_no_implied_limit(rt: HostRuntime) -> Result<(), Fail> {
    let mut held = Allowances::new(rt.alloc());
    held.add(12, 6)?;
    held.add(10, 4)?;
    held.add(12, 6)?;
    held.add(5, 5)?;
    let copy = held.copy()?;
    assert_eq!(rt; copy.limits(), [Limit { units: 10, duty: 4 }].as_slice());
    Ok(())
}

#[test]
fn is_made_from_its_numbers(rt: HostRuntime) -> Result<(), Fail> {
    let mut held = Allowances::new(rt.alloc());
    held.add(22, 21)?;
    held.need(96, 28)?;
    held.pass();
    let made = Allowances::from_parts(rt.alloc(), held.limits(), held.needs(), held.run())?;
    assert!(rt;
        made.is_some_and(|made| made.limits() == held.limits()
            && made.needs() == held.needs()
            && made.run() == held.run())
    );
    let closed = [Limit { units: 5, duty: 5 }];
    let none = Allowances::from_parts(rt.alloc(), closed.as_slice(), held.needs(), 0)?;
    assert!(rt; none.is_none());
    Ok(())
}
