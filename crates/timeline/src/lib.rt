//! A history kept as its runs: which activity, from which unit, up to which.
#![tactic(auto)]

mod fault;
mod kind;
mod run;
mod runs;
mod timeline;

pub use fault::TimelineFault;
pub use kind::CountOf;
pub use run::Run;
pub use timeline::Timeline;

#[cfg(test)]
mod tests {
    use super::*;
    use duty_core::Activity;
    use std::test::Fail;

    /// The greatest length. A proof sees a number, and not which, so it makes no list of so many.
    fn longest() -> u32 {
        50_400
    }

    #[test]
    fn grows_up_to_the_longest(rt: HostRuntime) -> Result<(), Fail> {
        let mut timeline = Timeline::new(rt.alloc());
        assert!(rt; timeline.is_empty());
        timeline.push_run(Activity::Off, longest())?;
        assert_eq!(rt;
            timeline.push_run(Activity::Off, 1),
            Err(TimelineFault::TooLong)
        );
        assert_eq!(rt; timeline.push_run(Activity::Drive, 0), Ok(()));
        assert_eq!(rt; timeline.len(), longest());
        Ok(())
    }

    #[test]
    fn joins_runs(rt: HostRuntime) -> Result<(), Fail> {
        let mut timeline = Timeline::new(rt.alloc());
        timeline.push_run(Activity::Drive, 3)?;
        timeline.push_run(Activity::Drive, 2)?;
        timeline.push_run(Activity::Off, 1)?;
        let runs = timeline.runs();
        assert_eq!(rt; runs.len(), 2);
        assert_eq!(rt;
            runs.first(),
            Some(&Run {
                act: Activity::Drive,
                from: 0,
                to: 5
            })
        );
        assert_eq!(rt;
            runs.last(),
            Some(&Run {
                act: Activity::Off,
                from: 5,
                to: 6
            })
        );
        Ok(())
    }

    #[test]
    fn counts_each_kind(rt: HostRuntime) -> Result<(), Fail> {
        let mut timeline = Timeline::new(rt.alloc());
        timeline.push_run(Activity::Wait, 1)?;
        timeline.push_run(Activity::Drive, 3)?;
        timeline.push_run(Activity::Berth, 2)?;
        timeline.push_run(Activity::Off, 1)?;
        timeline.push_run(Activity::Serve, 1)?;
        let copy = timeline.copy()?;
        assert_eq!(rt; copy.at(0), Activity::Wait);
        assert_eq!(rt; copy.at(7), Activity::Serve);
        let wanted = [
            (CountOf::Driving, 3, 2),
            (CountOf::Duty, 5, 2),
            (CountOf::Rest, 3, 1),
            (CountOf::Sleeper, 2, 1),
        ];
        for (kind, all, middle) in wanted {
            assert_eq!(rt; copy.count(kind, 0, 8), all);
            assert_eq!(rt; copy.count(kind, 2, 5), middle);
        }
        Ok(())
    }
}
