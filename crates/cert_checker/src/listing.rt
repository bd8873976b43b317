//! The labels of a layer, and the places at which those of a progress stand.
ghost use Rattle.std.specs.Prelude.{◌≡◌, ◌<◌, length, IfOk, OnOk};
ghost use Rattle.cert_checker.specs.Places.{plain, with_place, ArePlaced, HasPlaces, IsProgressEnd};

use duty_core::NoMemory;
use std::alloc::Global;
use std::marker::Model;
use tour_model::Label;

/// The labels of a layer in their order, where a label whose numbers are those of no state is None.
///
/// Beside them stand the places of the labels, in as many lists as there are labels: a label's in
/// the list that its progress names. So whoever looks for a better label looks at those that have
/// done as much, at those that have done more, and at few others.
#[derive(Drop)]
pub struct Listing<S> {
    labels: Vec<Option<Label<S>>>,
    places: Vec<Vec<usize>>,
    end: usize,
}

impl<S> Model for Listing<S> {
    ghost use Rattle.std.specs.Prelude.{List, Option};
    ghost use Rattle.tour_model.specs.declared.label.Label.{Label};
    ghost use Rattle.cert_checker.specs.Places.{plain, ArePlaced, IsProgressEnd};

    ghost Value = { List (Option (Label S)) };

    ghost view = { λ l. l.labels.items };

    ghost invariant = { λ l. ArePlaced l.labels.items (plain l.places.items) × IsProgressEnd l.labels.items l.end };
}

/// So many empty lists.
fn empty_lists(alloc: Global, count: usize) -> Result<Vec<Vec<usize>>, NoMemory>
    ensures { IfOk result (λ lists. length lists.items ≡ count) }
{
    let mut lists = Vec::new(alloc);
    for _ in 0..count {
        lists.push(Vec::new(alloc))?;
    }
    Ok(lists)
}

/// Puts a place into the list of the progress.
fn put_place(lists: &mut Vec<Vec<usize>>, progress: u32, place: usize) -> Result<(), NoMemory>
    requires { 0 < length lists.old.items }
    ensures ok { OnOk result (plain lists.new.items ≡ with_place (plain lists.old.items) progress place) }
{
    let list = progress as usize % lists.len();
    lists[list].push(place)?;
    Ok(())
}

/// The lists of the places of the labels.
fn places_of<S>(alloc: Global, labels: &[Option<Label<S>>]) -> Result<Vec<Vec<usize>>, NoMemory>
    ensures { IfOk result (λ lists. ArePlaced labels.now (plain lists.items)) }
{
    let mut lists = empty_lists(alloc, labels.len())?;
    for (place, label) in labels.iter().enumerate() {
        let Some(label) = label else {
            continue;
        };
        put_place(&mut lists, label.progress, place)?;
    }
    Ok(lists)
}

/// A number that is above the progress of each of the labels.
fn end_of<S>(labels: &[Option<Label<S>>]) -> usize
    ensures { IsProgressEnd labels.now result }
{
    let mut end = 0;
    for label in labels {
        let Some(label) = label else {
            continue;
        };
        end = end.max(label.progress as usize + 1);
    }
    end
}

impl<S: Drop> Listing<S> {
    /// The listing of these labels.
    pub fn new(alloc: Global, labels: Vec<Option<Label<S>>>) -> Result<Listing<S>, NoMemory>
        ensures { IfOk result (λ listing. listing ≡ labels.items) }
    {
        let places = places_of(alloc, &labels)?;
        let end = end_of(&labels);
        Ok(Listing {
            labels,
            places,
            end,
        })
    }

    /// The labels in their order.
    pub fn items(&self) -> &[Option<Label<S>>]
        ensures { result.now ≡ self.now }
    {
        self.labels.as_slice()
    }

    /// A number that is above the progress of each of the labels.
    pub fn progress_end(&self) -> usize
        ensures { IsProgressEnd self.now result }
    {
        self.end
    }

    /// The places of the labels of this progress, and of those that differ from it by a multiple of
    /// the number of labels.
    pub fn places(&self, progress: usize) -> &[usize]
        requires { 0 < length self.now }
        ensures { HasPlaces self.now progress result.now }
    {
        self.places[progress % self.places.len()].as_slice()
    }
}
