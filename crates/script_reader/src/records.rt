// The records of a text, one after the other.
ghost use Rattle.std.specs.Prelude.{◌≡◌, ◌<◌, ◌≤◌, ◌+◌, ◌^◌, [], IfOk, length, get_or};
ghost use Rattle.csv.specs.Records.{fields_of};
ghost use Rattle.script_reader.specs.Records.{records_in};
ghost use Rattle.script_reader.specs.inside.Records.{Takes};
ghost use Rattle.script_reader.specs.inside.Readers.{IsReading, ReadsRow};

use csv::{ByteRecord, Reader, ReaderBuilder};
use std::alloc::Global;
use std::marker::Model;
use tv_base::NoMemory;

// What is left of a text, seen as its records.
#[derive(Drop)]
pub(crate) struct Records<'a> {
    reader: Reader<&'a [u8]>,
    left: u64,
}

impl<'a> Model for Records<'a> {
    ghost use Rattle.std.specs.Prelude.{List, ℕ};

    ghost Value = { List (List (List ℕ)) };

    ghost use Rattle.script_reader.specs.RecordsInside.{left_of, IsReadingOrDone};

    ghost view = { left_of };

    ghost invariant = { IsReadingOrDone };
}

impl<'a> Records<'a> {
    // All records of a text, without a header.
    pub(crate) fn new(alloc: Global, text: &'a [u8]) -> Records<'a>
        requires { length text.now < 2 ^ 32 }
        ensures rows { result ≡ records_in text.now }
        ensures few { length result ≤ length text.now + 1 }
    {
        Records {
            reader: ReaderBuilder::new()
                .has_headers(false)
                .flexible(true)
                .from_reader(alloc, text),
            left: text.len() as u64 + 1,
        }
    }

    // Takes the next record, if there is one. After an `Err` none is left.
    pub(crate) fn next(&mut self, row: &mut ByteRecord) -> Result<bool, NoMemory>
        ensures { IfOk result (λ found. Takes self.old found (fields_of row.new) self.new) }
    {
        if self.left == 0 {
            return Ok(false);
        }
        let after = self.left - 1;
        self.left = 0;
        if read_row(&mut self.reader, row)? {
            self.left = after;
            return Ok(true);
        }
        Ok(false)
    }
}

// One read of csv: any error of it is out of memory, since the bytes are in memory.
fn read_row<'a>(reader: &mut Reader<&'a [u8]>, row: &mut ByteRecord) -> Result<bool, NoMemory>
    requires { IsReading reader.old }
    ensures { IfOk result (λ found. ReadsRow reader.old found (fields_of row.new) reader.new) }
{
    if let Ok(found) = reader.read_byte_record(row) {
        return Ok(found);
    }
    Err(NoMemory)
}

// A field of a record, or nothing past its end.
pub(crate) fn field(row: &ByteRecord, i: usize) -> &[u8]
    ensures { result.now ≡ get_or (fields_of row.now) i [] }
{
    match row.get(i) {
        Some(bytes) => bytes,
        None => b"",
    }
}
