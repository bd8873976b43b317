//! What holds of each tour that is read. The function does nothing: its clause is the law.
ghost use Rattle.std.specs.Prelude.{◌≡◌, ℕ, List, Some, Ok};
ghost use Rattle.serde_json.specs.Data.{Data};
ghost use Rattle.tour_model.specs.declared.tour.Tour.{Tour};
ghost use Rattle.tour_reader.specs.Tour.{json_of, tour_of};
ghost use Rattle.tour_reader.specs.WrittenTimes.{HasTimesOf};

/// The times of a tour are those that its text writes: it starts at the civil minute of the text of
/// `start`, and the windows of each stop are those between the civil minutes of the two texts of each
/// window that is written, rounded to steps from the start on.
pub fn times_are_those_written()
    ensures { (bytes : List ℕ) (tour : Tour) → tour_of bytes ≡ Ok tour →
        (form : Data) × (json_of bytes ≡ Some form) × HasTimesOf form tour }
{}
