// All that a source has, and all of a text.
ghost use Rattle.std.specs.Prelude.{◌≡◌, ◌+◌, ◌<◌, ◌≤◌, ◌-◌, ◌^◌, length, IfOk, OnOk, OnErr, IsErrOf};
ghost use Rattle.std.specs.Io.KnownBytes.{Appends, Consumes, IsAtEnd};
ghost use Rattle.tv_base.specs.Outside.{AppendsFront, HasMoreThan, HasTaken, Rose};

use crate::outside::{ReadStep, Sink, Source, WriteStep};
use std::alloc::{AllocError, Global};

/// The most bytes of a script: 8 MiB.
pub const MOST_BYTES: usize = 8_388_608;

// The most bytes that are asked for at once.
const CHUNK: usize = 4096;

/// Why reading ended early. What was read is lost.
#[derive(Clone, Copy, Debug, PartialEq, Eq)]
pub enum ReadEnd {
    /// The source has more bytes than may be read.
    TooLong,
    /// The source failed, and counted a fault.
    Failed,
    /// No memory was found for the bytes.
    NoMemory,
}

impl From<AllocError> for ReadEnd {
    ghost use Rattle.tv_base.specs.declared.moving.ReadEnd.TheVariants.{NoMemory};

    ghost from_gives = { λ _ e. e ≡ NoMemory };

    fn from(_: AllocError) -> Self {
        ReadEnd::NoMemory
    }
}

/// The sink failed, and counted a fault. It holds a prefix of the text.
#[derive(Clone, Copy, Debug, PartialEq, Eq)]
pub struct WriteFailed;

/// All bytes that the source has, if there are at most `most`.
///
/// Whatever the answer, at most `most + 1` bytes are taken from the source.
pub fn read_all<S: Source>(alloc: Global, source: &mut S, most: usize) -> Result<Vec<u8>, ReadEnd>
    requires { most < 2 ^ 64 - 1 }
    ensures all { IfOk result (λ v. Consumes (S.left source.old) (S.left source.new) v.items) }
    ensures end { OnOk result (IsAtEnd (S.left source.new)) }
    ensures most { IfOk result (λ v. length v.items ≤ most) }
    ensures long { IsErrOf result ReadEnd.TooLong → HasMoreThan most (S.left source.old) }
    ensures taken { HasTaken (most + 1) (S.left source.old) (S.left source.new) }
    ensures later { S.faults source.old ≤ S.faults source.new }
    ensures cause { IsErrOf result ReadEnd.Failed → Rose (S.faults source.old) (S.faults source.new) }
{
    let mut bytes = Vec::new(alloc);
    let mut chunk = [0; CHUNK];
    loop {
        let room = most - bytes.len();
        let asked = CHUNK.min(room + 1);
        match source.read(&mut chunk[..asked]) {
            ReadStep::Got(count) => {
                if count > room {
                    return Err(ReadEnd::TooLong);
                }
                bytes.extend_from_slice(&chunk[..count])?;
            }
            ReadStep::End => return Ok(bytes),
            ReadStep::Failed => return Err(ReadEnd::Failed),
        }
    }
}

/// Writes the whole text to the sink. If the sink fails, a prefix of the text is written.
pub fn write_all<K: Sink>(sink: &mut K, text: &[u8]) -> Result<(), WriteFailed>
    ensures whole { OnOk result (Appends (K.written sink.old) (K.written sink.new) text.now) }
    ensures front { OnErr result (AppendsFront (K.written sink.old) (K.written sink.new) text.now) }
    ensures later { K.faults sink.old ≤ K.faults sink.new }
    ensures cause { OnErr result (Rose (K.faults sink.old) (K.faults sink.new)) }
{
    let mut done = 0;
    while done < text.len() {
        match sink.write(&text[done..]) {
            WriteStep::Took(count) => done += count,
            WriteStep::Failed => return Err(WriteFailed),
        }
    }
    Ok(())
}
