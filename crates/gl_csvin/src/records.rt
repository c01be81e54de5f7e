//! The records of a payload.
ghost use Rattle.std.specs.Prelude.{◌≡◌, IfOk, OnErr, IsErrOf, map};
ghost use Rattle.std.specs.{List.list_all, Str.is_utf8};
ghost use Rattle.csv.specs.Records.{fields_of};
ghost use Rattle.gl_protocol.specs.Scripts.Commands.{without_mark};
ghost use Rattle.gl_protocol.specs.Run.Records.{csv_records};

use crate::CsvFault;
use csv::{ByteRecord, ReaderBuilder};
use std::alloc::Global;
use std::str::from_utf8;

/// Without one byte order mark at its beginning.
pub fn without_mark(payload: &[u8]) -> &[u8]
    ensures { result.now ≡ without_mark payload.now }
{
    if payload.starts_with(&[0xEF, 0xBB, 0xBF]) {
        &payload[3..]
    } else {
        payload
    }
}

/// All records of a text without a header. Their lengths may differ.
pub fn all_records(alloc: Global, text: &[u8]) -> Result<Vec<ByteRecord>, CsvFault>
    ensures ok { IfOk result (λ v. map fields_of v.items ≡ csv_records text.now) }
    ensures err { OnErr result (IsErrOf result CsvFault.NoMemory) }
{
    let reader = ReaderBuilder::new()
        .has_headers(false)
        .flexible(true)
        .from_reader(alloc, text);
    let mut records = Vec::new(alloc);
    for record in reader.into_byte_records() {
        let Ok(record) = record else {
            return Err(CsvFault::NoMemory);
        };
        if records.push(record).is_err() {
            return Err(CsvFault::NoMemory);
        }
    }
    Ok(records)
}

/// Whether each field is UTF-8.
pub fn are_text(records: &[ByteRecord]) -> bool
    ensures { result ≡ list_all (list_all is_utf8) (map fields_of records.now) }
{
    for record in records {
        if !is_text(record) {
            return false;
        }
    }
    true
}

fn is_text(byte_record: &ByteRecord) -> bool
    ensures { result ≡ list_all is_utf8 (fields_of byte_record.now) }
{
    let mut j = 0;
    while let Some(field) = byte_record.get(j) {
        let Ok(_) = from_utf8(field) else {
            return false;
        };
        j += 1;
    }
    true
}
