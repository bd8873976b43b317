//! The marks of a history.
use crate::try_vec::TryVec;

/// A civil minute: the number of minutes from 2000-01-01T00:00.
pub type Minute = u32;

/// The number of a day: day 0 holds the minute at which 2000-01-01 begins its day.
pub type Day = i32;

/// A choice that a driver declares about a history.
#[derive(Clone, Copy, Debug, PartialEq, Eq)]
pub enum Mark {
    /// The rest run that begins at this minute is a split rest.
    SplitRest { at: Minute },
    /// This day's missing rest is deferred to the next day.
    DeferDay { day: Day },
}

/// The marks of a history, in the order of the history.
pub type Marks = TryVec<Mark>;

#[cfg(test)]
mod tests {
    use super::*;
    use std::test::Fail;

    #[test]
    fn marks_are_kept_in_order(rt: HostRuntime) -> Result<(), Fail> {
        let mut marks = Marks::new(rt.alloc());
        assert!(rt; marks.push(Mark::SplitRest { at: 600 }).is_ok());
        assert!(rt; marks.push(Mark::DeferDay { day: 1 }).is_ok());
        let expected = [Mark::SplitRest { at: 600 }, Mark::DeferDay { day: 1 }];
        assert_eq!(rt; marks.items(), expected.as_slice());
        Ok(())
    }

    #[test]
    fn a_copy_has_the_same_marks(rt: HostRuntime) -> Result<(), Fail> {
        let mut marks = Marks::new(rt.alloc());
        assert!(rt; marks.push(Mark::DeferDay { day: -1 }).is_ok());
        let copy = marks.copy()?;
        let expected = [Mark::DeferDay { day: -1 }];
        assert_eq!(rt; copy.items(), expected.as_slice());
        Ok(())
    }
}
