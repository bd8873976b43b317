//! The windows of a stop.
ghost use Rattle.std.specs.Prelude.{◌≡◌, [], ◌∷◌, ◌++◌, OnOk, OnErr};
ghost use Rattle.tour_model.specs.Window.{is_within, is_open, earlier, first_within, first_open};

use duty_core::NoMemory;
use smallvec::SmallVec;
use std::alloc::Global;
use std::marker::Model;

/// A time in which a service may begin, in steps from the start of the tour, both ends counted.
#[derive(Clone, Copy, Debug, Default, PartialEq, Eq)]
pub struct Window {
    pub opens: u32,
    pub closes: u32,
}

impl Window {
    /// Whether the step lies in the window.
    pub fn holds(&self, step: u32) -> bool
        ensures { result ≡ is_within step self.now }
    {
        self.opens <= step && step <= self.closes
    }

    /// The first step from this one on that lies in the window.
    fn first_from(&self, step: u32) -> Option<u32>
        ensures { result ≡ first_within step self.now }
    {
        let first = self.opens.max(step);
        if first <= self.closes {
            Some(first)
        } else {
            None
        }
    }
}

/// The windows of a stop, in any order.
#[derive(Drop)]
pub struct Windows {
    windows: SmallVec<Window, 8>,
}

impl Model for Windows {
    ghost use Rattle.std.specs.Prelude.{List};
    ghost use Rattle.tour_model.specs.declared.window.Window.{Window};

    ghost Value = { List Window };

    ghost view = { λ w. w.windows.items };
}

impl Windows {
    /// No windows yet.
    pub fn new(alloc: Global) -> Self
        ensures { result ≡ [] }
    {
        Windows {
            windows: SmallVec::new(alloc),
        }
    }

    /// One more window at the end. Where there is no memory for it, the windows stay as they were.
    pub fn push(&mut self, item: Window) -> Result<(), NoMemory>
        ensures ok { OnOk result (self.new ≡ self.old ++ item ∷ []) }
        ensures err { OnErr result (self.new ≡ self.old) }
    {
        self.windows.push(item)?;
        Ok(())
    }

    /// The windows, in the order in which they were given.
    pub fn items(&self) -> &[Window]
        ensures { result.now ≡ self.now }
    {
        self.windows.as_slice()
    }

    /// Whether the step lies in one of the windows.
    pub fn hold(&self, step: u32) -> bool
        ensures { result ≡ is_open self.now step }
    {
        self.items().iter().any(|window| window.holds(step))
    }

    /// The first step from this one on that lies in one of the windows; None where there is none.
    pub(crate) fn first_from(&self, step: u32) -> Option<u32>
        ensures { result ≡ first_open self.now step }
    {
        let mut first = None;
        for window in self.items() {
            first = earlier_of(first, window.first_from(step));
        }
        first
    }
}

/// The earlier of two steps, where there are two.
fn earlier_of(one: Option<u32>, other: Option<u32>) -> Option<u32>
    ensures { result ≡ earlier one other }
{
    match (one, other) {
        (Some(x), Some(y)) => Some(x.min(y)),
        (Some(x), None) => Some(x),
        (None, other) => other,
    }
}
