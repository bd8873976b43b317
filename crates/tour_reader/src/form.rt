//! The JSON object that the bytes of a tour are, and its fields.
ghost use Rattle.std.specs.Prelude.{◌≡◌, not, find, IfOk, option_map, string_bytes};
ghost use Rattle.std.specs.BTreeMap.{keys};
ghost use Rattle.serde_json.specs.View.{view};
ghost use Rattle.tour_reader.specs.Fields.{is_known, first_missing, first_unknown, with_fields};
ghost use Rattle.tour_reader.specs.Gives.{Gives, good};
ghost use Rattle.tour_reader.specs.Tour.{form_of};

use crate::fault::TourFault;
use crate::field::Field;
use duty_core::NoMemory;
use serde_json::{Map, Value};
use std::alloc::Global;
use tour_model::Name;

/// The most bytes that a tour may have.
pub const TOUR_LIMIT: usize = 1_000_000;

/// The JSON object that the bytes are.
#[tactic(auto, unfolding(crate::specs::Tour::form_of))]
pub fn form_of(alloc: Global, bytes: &[u8]) -> Result<Value, TourFault>
    ensures { Gives view result (form_of bytes.now) }
{
    if bytes.len() > TOUR_LIMIT {
        return Err(TourFault::TooBig);
    }
    match Value::from_slice(alloc, bytes) {
        Ok(form) if form.is_object() => Ok(form),
        Ok(_) => Err(TourFault::NotJson),
        Err(error) if error.is_memory() => Err(TourFault::Memory),
        Err(_) => Err(TourFault::NotJson),
    }
}

/// What a field's value stands for, where it stands for something.
pub fn good<T>(field: Field, stop: Option<u32>, value: Option<T>) -> Result<T, TourFault>
    ensures { result ≡ good field stop value }
{
    match value {
        Some(value) => Ok(value),
        None => Err(TourFault::BadValue { field, stop }),
    }
}

/// A name of these bytes.
pub fn name_of(alloc: Global, bytes: &[u8]) -> Result<Name, NoMemory>
    ensures { IfOk result (λ name. name ≡ bytes.now) }
{
    let mut name = Name::new(alloc);
    for byte in bytes {
        name.push(*byte)?;
    }
    Ok(name)
}

/// Whether one of the fields has this name.
fn is_known(fields: &[Field], name: &str) -> bool
    ensures { result ≡ is_known fields.now name.now }
{
    fields.iter().any(|field| name == field.key())
}

/// The first of the fields that the form lacks.
fn first_missing(fields: &[Field], form: &Value) -> Option<Field>
    ensures { result ≡ first_missing fields.now (view form.now) }
{
    fields
        .iter()
        .copied()
        .find(|field| form.get(field.key()).is_none())
}

/// The first key, in their order, that is the name of none of the fields.
fn unknown_key<'a>(fields: &[Field], members: &'a Map<String, Value>) -> Option<&'a String>
    ensures { option_map (λ key. key.now) result
        ≡ find (λ key. not (is_known fields.now (string_bytes key))) (keys members.now) }
{
    members.keys().find(|key| !is_known(fields, key.as_str()))
}

/// The first name in the form, in byte order, that is of none of the fields.
fn first_unknown<'a>(fields: &[Field], form: &'a Value) -> Option<&'a str>
    ensures { option_map (λ name. name.now) result ≡ first_unknown fields.now (view form.now) }
{
    let name = unknown_key(fields, form.as_object()?)?;
    Some(name.as_str())
}

/// Nothing, if the form has each of these fields, and no other; else the first missing one, or
/// else the first unknown one.
#[tactic(auto, unfolding(crate::specs::Fields::with_fields))]
pub fn only_fields(
    alloc: Global,
    fields: &[Field],
    stop: Option<u32>,
    form: &Value,
) -> Result<(), TourFault>
    ensures { Gives (λ _. view form.now) result (with_fields fields.now stop (view form.now)) }
{
    if let Some(field) = first_missing(fields, form) {
        return Err(TourFault::Missing { field, stop });
    }
    if let Some(name) = first_unknown(fields, form) {
        let name = name_of(alloc, name.as_bytes())?;
        return Err(TourFault::Unknown { name, stop });
    }
    Ok(())
}
