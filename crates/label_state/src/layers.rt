//! The layers of a search.
ghost use Rattle.std.specs.Prelude.{◌≡◌, ℕ, ◌<◌, ◌≤◌, ◌^◌, [], ◌∷◌, ◌++◌, length, OnOk, OnErr};
ghost use Rattle.tour_model.specs.Layer.{layer_at};
ghost use Rattle.label_state.specs.declared.layers.TheConstants.{LAYER_LIMIT};
ghost use Rattle.label_state.specs.Layers.{last_layer, with_kept, label_count};
ghost use Rattle.label_state.specs.Buckets.{places_of};

use crate::buckets::Buckets;
use crate::kept::Kept;
use duty_core::NoMemory;
use std::alloc::Global;
use std::marker::Model;

/// The number of layers, and of labels in all layers together, that is not exceeded.
pub const LAYER_LIMIT: u32 = 999_999;

/// The labels that a search keeps, layer by layer: those of step 0, of step 1, and so on. Contracts
/// see the list of the layers' lists. There are at most 999,999 layers, and as many labels.
#[derive(Drop)]
pub struct Layers<S> {
    layers: Vec<Vec<Kept<S>>>,
    kept: u32,
    by_progress: Buckets,
}

impl<S> Model for Layers<S> {
    ghost use Rattle.std.specs.Prelude.{List};
    ghost use Rattle.label_state.specs.declared.kept.Kept.{Kept};
    ghost use Rattle.label_state.specs.Plain.{plain, AreHeld};

    ghost Value = { List (List (Kept S)) };

    ghost view = { λ l. plain l.layers.items };

    ghost invariant = { λ l. AreHeld (plain l.layers.items) l.kept l.by_progress };
}

impl<S: Drop> Layers<S> {
    /// No layers yet.
    pub fn new(alloc: Global) -> Layers<S>
        ensures { result ≡ [] }
    {
        Layers {
            layers: Vec::new(alloc),
            kept: 0,
            by_progress: Buckets::new(alloc),
        }
    }

    /// Adds an empty layer, that of the next step. Where memory is refused, nothing changes.
    pub fn push_layer(&mut self, alloc: Global) -> Result<(), NoMemory>
        requires { length self.old < LAYER_LIMIT }
        ensures ok { OnOk result (self.new ≡ self.old ++ [] ∷ []) }
        ensures err { OnErr result (self.new ≡ self.old) }
    {
        self.layers.push(Vec::new(alloc))?;
        Ok(())
    }

    /// Adds a label to the last layer. Where memory is refused, nothing changes.
    pub fn keep(&mut self, kept: Kept<S>) -> Result<(), NoMemory>
        requires some { 0 < length self.old }
        requires room { label_count self.old < LAYER_LIMIT }
        ensures ok { OnOk result (self.new ≡ with_kept self.old kept) }
        ensures err { OnErr result (self.new ≡ self.old) }
    {
        let depth = self.layers.len() as u32;
        let progress = kept.label.progress;
        let layer = &mut self.layers[depth as usize - 1];
        let place = layer.len();
        layer.push(kept)?;
        if let Err(fault) = self.by_progress.add(depth, progress, place as u32) {
            self.layers[depth as usize - 1].truncate(place);
            return Err(fault);
        }
        self.kept += 1;
        Ok(())
    }

    /// The number of layers.
    pub fn depth(&self) -> u32
        ensures depth { result ≡ length self.now }
        ensures few { length self.now ≤ LAYER_LIMIT }
    {
        self.layers.len() as u32
    }

    /// The number of labels in all layers together.
    pub fn kept(&self) -> u32
        ensures kept { result ≡ label_count self.now }
        ensures few { label_count self.now ≤ LAYER_LIMIT }
    {
        self.kept
    }

    /// The places of the labels of the last layer that have this progress, in order.
    pub fn places(&self, progress: u32) -> &[u32]
        requires { 0 < length self.now }
        ensures { result.now ≡ places_of progress (last_layer self.now) }
    {
        self.by_progress.places(self.layers.len() as u32, progress)
    }

    /// A number that is above the progress of each label of the last layer.
    pub fn progress_end(&self) -> usize
        ensures above { (p : ℕ) → result ≤ p → places_of p (last_layer self.now) ≡ [] }
        ensures few { result ≤ 2 ^ 32 }
    {
        self.by_progress.count()
    }

    /// The layer of the step `k`.
    pub fn layer(&self, k: u32) -> &[Kept<S>]
        requires { k < length self.now }
        ensures { result.now ≡ layer_at self.now k }
    {
        self.layers[k as usize].as_slice()
    }
}

#[cfg(test)]
mod tests {
    use super::*;
    use crate::Label;
    use duty_core::Activity;
    use std::test::Fail;

    fn kept(parent: u32) -> Kept<u32>
        ensures { result.parent ≡ parent }
    {
        let label = Label {
            depart: None,
            progress: 0,
            state: 7,
        };
        Kept {
            label,
            parent,
            act: Activity::Off,
            mark: None,
        }
    }

    #[test]
    fn keeps_labels_in_the_last_layer(rt: HostRuntime) -> Result<(), Fail> {
        let alloc = rt.alloc();
        let mut layers = Layers::new(alloc);
        assert_eq!(rt; layers.depth(), 0);
        layers.push_layer(alloc)?;
        layers.keep(kept(3))?;
        layers.push_layer(alloc)?;
        layers.keep(kept(0))?;
        layers.keep(kept(0))?;
        assert_eq!(rt; layers.depth(), 2);
        assert_eq!(rt; layers.kept(), 3);
        assert_eq!(rt; layers.layer(0).len(), 1);
        assert_eq!(rt; layers.layer(0)[0].parent, 3);
        assert_eq!(rt; layers.layer(1).len(), 2);
        Ok(())
    }
}
