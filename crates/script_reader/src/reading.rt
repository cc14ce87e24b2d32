// A whole script, record by record.
ghost use Rattle.std.specs.Prelude.{◌≡◌, ◌≤◌, ◌+◌, length};
ghost use Rattle.script_reader.specs.Reading.{Gives, read_of, read_rows, rows_from, second_rows};
ghost use Rattle.script_reader.specs.inside.Reading.{refused_at};
ghost use Rattle.script_reader.specs.Records.{AreAllRecords, records_in};
ghost use Rattle.tv_base.specs.declared.moving.TheConstants.{MOST_BYTES};

use crate::records::Records;
use crate::rows::{take_first, take_later, take_second};
use csv::ByteRecord;
use std::alloc::Global;
use thiserror::Error;
use tv_base::{MOST_BYTES, NoMemory};
use tx_trees::{Refusal, Script, Why};

/// The first faulty record, and the first of its reasons.
#[derive(Clone, Copy, Debug, PartialEq, Eq, Error)]
#[error("row {row}: {why}")]
pub struct ScriptFault {
    /// Its number, from 1. Row 0 stands for the whole input, if that is too long.
    pub row: u32,
    /// The first reason that holds, in the order of `Why`.
    pub why: Why,
}

/// Why there is no script.
#[derive(Clone, Copy, Debug, PartialEq, Eq, Error)]
pub enum ScriptRefusal {
    /// A record is refused.
    #[error("{0}")]
    Fault(ScriptFault),
    /// Out of memory, which says nothing of the text.
    #[error("out of memory")]
    NoMemory,
}

impl From<NoMemory> for ScriptRefusal {
    ghost use Rattle.script_reader.specs.declared.reading.ScriptRefusal.TheVariants as refusals;

    ghost from_gives = { λ _ e. e ≡ refusals.NoMemory };

    fn from(_: NoMemory) -> Self {
        ScriptRefusal::NoMemory
    }
}

// A refusal, with the row that it is of.
fn at_row(row: u32, refusal: Refusal) -> ScriptRefusal
    ensures { result ≡ refused_at row refusal }
{
    match refusal {
        Refusal::Why(why) => ScriptRefusal::Fault(ScriptFault { row, why }),
        Refusal::NoMemory => ScriptRefusal::NoMemory,
    }
}

/// Reads a script, or gives its first fault.
///
/// The bytes are records of comma-separated fields, without a header. One byte order mark at the start and blank lines
/// are skipped. A script whose first record is `threev,2` is of the second form. A text without any record has the
/// fault `NodesFirst` at row 1, and one of more than 8,388,608 bytes the fault `TooLong` at row 0. `NoMemory` says
/// nothing of the text.
pub fn read_script(alloc: Global, bytes: &[u8]) -> Result<Script, ScriptRefusal>
    ensures script { Gives result (read_of bytes.now) }
    ensures whole { AreAllRecords bytes.now (records_in bytes.now) }
{
    if bytes.len() > MOST_BYTES {
        return Err(at_row(0, Refusal::Why(Why::TooLong)));
    }
    read_records(alloc, bytes)
}

// The records of a text that isn't too long.
fn read_records(alloc: Global, bytes: &[u8]) -> Result<Script, ScriptRefusal>
    requires { length bytes.now ≤ MOST_BYTES }
    ensures { Gives result (read_rows (records_in bytes.now)) }
{
    let mut records = Records::new(alloc, bytes);
    let mut row = ByteRecord::new(alloc);
    if !records.next(&mut row)? {
        return Err(at_row(1, Refusal::Why(Why::NodesFirst)));
    }
    let first = match take_first(alloc, &row) {
        Ok(first) => first,
        Err(refusal) => return Err(at_row(1, refusal)),
    };
    match first {
        Some(script) => read_later(alloc, script, 2, &mut records, &mut row),
        None => read_second(alloc, &mut records, &mut row),
    }
}

// The records after one that names the second form.
fn read_second(
    alloc: Global,
    records: &mut Records,
    row: &mut ByteRecord,
) -> Result<Script, ScriptRefusal>
    requires { length records.old ≤ MOST_BYTES }
    ensures { Gives result (second_rows records.old) }
{
    if !records.next(row)? {
        return Err(at_row(2, Refusal::Why(Why::NodesFirst)));
    }
    let script = match take_second(alloc, row) {
        Ok(script) => script,
        Err(refusal) => return Err(at_row(2, refusal)),
    };
    read_later(alloc, script, 3, records, row)
}

// The records from this one on, each of which adds to the script.
fn read_later(
    alloc: Global,
    begun: Script,
    first: u32,
    records: &mut Records,
    row: &mut ByteRecord,
) -> Result<Script, ScriptRefusal>
    requires { first + length records.old ≤ 8388611 }
    ensures { Gives result (rows_from begun first records.old) }
{
    let mut script = begun;
    let mut at = first;
    while records.next(row)? {
        match take_later(alloc, &mut script, row) {
            Ok(()) => at += 1,
            Err(refusal) => return Err(at_row(at, refusal)),
        }
    }
    Ok(script)
}
