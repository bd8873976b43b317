//! The fields of a record.
ghost use Rattle.std.specs.Prelude.{◌≡◌, ◌≢◌, ◌↔◌, [], ◌∷◌, length, IsTrue, MatchOption};
ghost use Rattle.csv.specs.Records.{fields_of};
ghost use Rattle.duty_log.specs.Words.{header};

use csv::ByteRecord;

/// The fields of a record of three.
#[derive(Clone, Copy)]
pub struct Fields<'a> {
    pub from: &'a [u8],
    pub to: &'a [u8],
    pub status: &'a [u8],
}

/// The record's fields, if they are three.
pub fn three_fields(record: &ByteRecord) -> Option<Fields<'_>>
    ensures { MatchOption result (length (fields_of record.now) ≢ 3)
        (λ three. fields_of record.now ≡ three.from.now ∷ three.to.now ∷ three.status.now ∷ []) }
{
    if record.len() != 3 {
        return None;
    }
    Some(Fields {
        from: record.get(0)?,
        to: record.get(1)?,
        status: record.get(2)?,
    })
}

/// Whether the record is the one that a log begins with.
pub fn is_header(record: &ByteRecord) -> bool
    ensures { IsTrue result ↔ (fields_of record.now ≡ header) }
{
    match three_fields(record) {
        Some(names) => {
            names.from == b"from".as_slice()
                && names.to == b"to".as_slice()
                && names.status == b"status".as_slice()
        }
        None => false,
    }
}
