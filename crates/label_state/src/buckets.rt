//! Where the labels of each progress stand in a layer.
ghost use Rattle.std.specs.Prelude.{◌≡◌, ℕ, ◌<◌, ◌≤◌, ◌^◌, ◌++◌, ◌∷◌, [], length, Some, slice_get, OnOk, OnErr};
ghost use Rattle.label_state.specs.Buckets.{places_in, place_if, AreUpTo};

use duty_core::NoMemory;
use std::alloc::Global;
use std::marker::Model;

/// The places of labels of one progress, in order, and the depth of the layers when they were noted:
/// of another depth they tell nothing.
#[derive(Drop)]
pub struct Bucket {
    pub(crate) depth: u32,
    pub(crate) places: Vec<u32>,
}

/// A bucket for each progress, of which there are no more than a number can name. Contracts see
/// their list.
#[derive(Drop)]
pub struct Buckets {
    alloc: Global,
    buckets: Vec<Bucket>,
}

impl Model for Buckets {
    ghost use Rattle.std.specs.Prelude.{◌≤◌, ◌^◌, List, length};
    ghost use Rattle.label_state.specs.declared.buckets.Bucket.{Bucket};

    ghost Value = { List Bucket };

    ghost view = { λ b. b.buckets.items };

    ghost invariant = { λ b. length b.buckets.items ≤ 2 ^ 32 };
}

impl Buckets {
    /// No places yet.
    pub(crate) fn new(alloc: Global) -> Buckets
        ensures { result ≡ [] }
    {
        Buckets {
            alloc,
            buckets: Vec::new(alloc),
        }
    }

    /// Makes buckets up to that of this progress. They have no places.
    fn reach(&mut self, progress: u32) -> Result<(), NoMemory>
        ensures same { (depth p : ℕ) → places_in depth (slice_get self.new p) ≡ places_in depth (slice_get self.old p) }
        ensures depths { (depth : ℕ) → AreUpTo depth self.old → AreUpTo depth self.new }
        ensures long { OnOk result (progress < length self.new) }
    {
        while self.buckets.len() <= progress as usize {
            self.buckets.push(Bucket {
                depth: 0,
                places: Vec::new(self.alloc),
            })?;
        }
        Ok(())
    }

    /// Notes that a label of this progress stands at this place of the last of so many layers. Where
    /// memory is refused, no place is noted.
    pub(crate) fn add(&mut self, depth: u32, progress: u32, place: u32) -> Result<(), NoMemory>
        requires { AreUpTo depth self.old }
        ensures ok { OnOk result ((p : ℕ) → places_in depth (slice_get self.new p) ≡ places_in depth (slice_get self.old p) ++ place_if p place progress) }
        ensures err { OnErr result ((p : ℕ) → places_in depth (slice_get self.new p) ≡ places_in depth (slice_get self.old p)) }
        ensures depths { AreUpTo depth self.new }
    {
        self.reach(progress)?;
        let bucket = &mut self.buckets[progress as usize];
        bucket.note(depth, place)
    }

    /// The number of buckets: each progress of which a place is noted is less.
    pub(crate) fn count(&self) -> usize
        ensures count { result ≡ length self.now }
        ensures few { length self.now ≤ 2 ^ 32 }
    {
        self.buckets.len()
    }

    /// The places that are noted of labels of this progress, in the last of so many layers.
    pub(crate) fn places(&self, depth: u32, progress: u32) -> &[u32]
        ensures { result.now ≡ places_in depth (slice_get self.now progress) }
    {
        match self.buckets.get(progress as usize) {
            Some(bucket) if bucket.depth == depth => bucket.places.as_slice(),
            _ => &[],
        }
    }
}

impl Bucket {
    /// Notes one more place of the last of so many layers. Where memory is refused, none is noted.
    fn note(&mut self, depth: u32, place: u32) -> Result<(), NoMemory>
        ensures depth { self.new.depth ≡ depth }
        ensures ok { OnOk result (places_in depth (Some self.new) ≡ places_in depth (Some self.old) ++ place ∷ []) }
        ensures err { OnErr result (places_in depth (Some self.new) ≡ places_in depth (Some self.old)) }
    {
        if self.depth != depth {
            self.depth = depth;
            self.places.clear();
        }
        self.places.push(place)?;
        Ok(())
    }
}
