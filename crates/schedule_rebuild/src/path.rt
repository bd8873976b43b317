//! The path to the place of a label, along its parents.
ghost use Rattle.std.specs.Prelude.{◌≡◌, ◌<◌, ◌++◌, length, IfOk, OnOk};
ghost use Rattle.std.specs.Option.{option_to_list};
ghost use Rattle.tour_model.specs.Layer.{layer_at};
ghost use Rattle.label_state.specs.Path.{path_of, path_marks, HaveParents};

use duty_core::{Mark, Marks, NoMemory};
use label_state::{Layers, Place};
use rule_core::Root;
use std::alloc::Global;
use tour_model::{Schedule, Steps};

/// Adds the mark, where there is one.
fn push_mark(marks: &mut Vec<Mark>, mark: Option<Mark>) -> Result<(), NoMemory>
    ensures ok { OnOk result (marks.new.items ≡ marks.old.items ++ option_to_list mark) }
{
    match mark {
        None => Ok(()),
        Some(mark) => {
            marks.push(mark)?;
            Ok(())
        }
    }
}

/// The marks of the first list, followed by those of the second.
fn joined(first: &Marks, second: &[Mark]) -> Result<Marks, NoMemory>
    ensures { IfOk result (λ marks. marks ≡ first.now ++ second.now) }
{
    let mut marks = first.copy()?;
    for mark in second {
        marks.push(*mark)?;
    }
    Ok(marks)
}

/// The path to the label at this place: the activities along its parents, one for each step, and
/// the marks of the root where the path begins, followed by those along the way.
pub fn rebuild<S: Drop>(
    alloc: Global,
    layers: &Layers<S>,
    roots: &[Root<S>],
    place: Place,
) -> Result<Schedule, NoMemory>
    requires there { place.index < length (layer_at layers.now place.layer) }
    requires parents { HaveParents (length roots.now) layers.now }
    ensures steps { IfOk result (λ schedule. schedule.steps ≡ path_of layers.now place.layer place.index) }
    ensures marks { IfOk result (λ schedule. schedule.marks ≡ path_marks layers.now roots.now place.layer place.index) }
{
    let mut acts = Vec::new(alloc);
    let mut marks = Vec::new(alloc);
    let mut layer = place.layer;
    let mut index = place.index;
    while layer > 0 {
        let kept = &layers.layer(layer)[index as usize];
        acts.push(kept.act)?;
        push_mark(&mut marks, kept.mark)?;
        index = kept.parent;
        layer -= 1;
    }
    acts.reverse();
    marks.reverse();
    let first = &layers.layer(0)[index as usize];
    let root = &roots[first.parent as usize];
    let marks = joined(&root.marks, marks.as_slice())?;
    Ok(Schedule {
        steps: Steps::from_vec(acts),
        marks,
    })
}

#[cfg(test)]
mod tests {
    use super::*;
    use duty_core::Activity;
    use label_state::{Kept, Label};
    use std::test::Fail;

    /// A label of no account but its parent, its activity and its mark.
    fn kept(parent: u32, act: Activity, mark: Option<Mark>) -> Kept<u32>
        ensures parent { result.parent ≡ parent }
        ensures act { result.act ≡ act }
        ensures mark { result.mark ≡ mark }
    {
        let label = Label {
            depart: None,
            progress: 0,
            state: 0,
        };
        Kept {
            label,
            parent,
            act,
            mark,
        }
    }

    /// Two roots, and one label that grew from the second of them.
    fn two_layers(alloc: Global, mark: Mark) -> Result<Layers<u32>, NoMemory>
        ensures parents { IfOk result (λ layers. HaveParents 2 layers) }
        ensures there { IfOk result (λ layers. 0 < length (layer_at layers 1)) }
    {
        let mut layers = Layers::new(alloc);
        layers.push_layer(alloc)?;
        layers.keep(kept(0, Activity::Off, None))?;
        layers.keep(kept(1, Activity::Off, None))?;
        layers.push_layer(alloc)?;
        layers.keep(kept(1, Activity::Drive, Some(mark)))?;
        Ok(layers)
    }

    #[test]
    fn goes_back_to_the_second_root(rt: HostRuntime) -> Result<(), Fail> {
        let alloc = rt.alloc();
        let deferred = Mark::DeferDay { day: 9 };
        let split = Mark::SplitRest { at: 600 };
        let mut marks = Marks::new(alloc);
        marks.push(deferred)?;
        let roots = [
            Root {
                state: 0,
                marks: Marks::new(alloc),
            },
            Root { state: 0, marks },
        ];
        let layers = two_layers(alloc, split)?;
        let place = Place { layer: 1, index: 0 };
        let schedule = rebuild(alloc, &layers, roots.as_slice(), place)?;
        assert_eq!(rt; schedule.steps.items(), [Activity::Drive].as_slice());
        assert_eq!(rt; schedule.marks.items(), [deferred, split].as_slice());
        Ok(())
    }
}
