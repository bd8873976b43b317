//! The values of a form's fields.
ghost use Rattle.std.specs.Prelude.{◌≡◌, ◌≤◌, option_map, option_and_then, map, length, Some, None};
ghost use Rattle.serde_json.specs.View.{view};
ghost use Rattle.tour_reader.specs.Values.{number_of, text_of, within, whole_of, array_of, items_of};

use crate::field::Field;
use serde_json::Value;

/// The number, if it lies from `low` to `high`.
fn within(low: u32, high: u32, number: u64) -> Option<u32>
    ensures { result ≡ within low high number }
{
    if u64::from(low) <= number && number <= u64::from(high) {
        Some(number as u32)
    } else {
        None
    }
}

/// The number of a field, if it is one that is not negative and fits 64 bits.
pub(crate) fn number_of(form: &Value, field: Field) -> Option<u64>
    ensures { result ≡ number_of field (view form.now) }
{
    form.get(field.key()).and_then(Value::as_u64)
}

/// The number of a field, if it is a whole one from `low` to `high`.
pub(crate) fn whole_of(form: &Value, field: Field, low: u32, high: u32) -> Option<u32>
    ensures { result ≡ whole_of field low high (view form.now) }
{
    within(low, high, number_of(form, field)?)
}

/// The text of a field, if it is one.
pub(crate) fn text_of(form: &Value, field: Field) -> Option<&str>
    ensures { option_map (λ text. text.now) result ≡ text_of field (view form.now) }
{
    form.get(field.key())?.as_str()
}

/// The items of an array.
pub(crate) fn array_of(value: &Value) -> Option<&[Value]>
    ensures { option_map (λ items. map view items.now) result ≡ array_of (view value.now) }
{
    Some(value.as_array()?.as_slice())
}

/// The items of a field, if it is an array.
pub(crate) fn items_of(form: &Value, field: Field) -> Option<&[Value]>
    ensures { option_map (λ items. map view items.now) result ≡ items_of field (view form.now) }
{
    array_of(form.get(field.key())?)
}
