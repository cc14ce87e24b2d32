// A source over any reader, and a sink over any writer.
ghost use Rattle.std.specs.Io.KnownBytes.{Keeps};
ghost use Rattle.std.specs.Prelude.{◌≡◌, ◌<◌, ◌≤◌, length, OnErr};
ghost use Rattle.tv_base.specs.Outside.{Reads, Rose, Writes, faults_after_read, faults_after_write};

use crate::moving::WriteFailed;
use crate::outside::{ReadStep, Sink, Source, WriteStep};
use std::io::{Read, Write};

/// A source over a reader, which counts the reader's errors as faults.
#[derive(Drop)]
pub struct ReaderSource<R> {
    inner: R,
    faults: u64,
}

impl<R> ReaderSource<R> {
    /// A source over this reader, with no fault counted.
    pub fn new(inner: R) -> ReaderSource<R>
        ensures inner { result.inner ≡ inner }
        ensures faults { result.faults ≡ 0 }
    {
        ReaderSource { inner, faults: 0 }
    }

    /// How many reads have failed.
    pub fn faults(&self) -> u64
        ensures { result ≡ self.now.faults }
    {
        self.faults
    }
}

impl<R: Read> Source for ReaderSource<R> {
    ghost left = { λ s. R.remaining s.inner };

    ghost faults = { λ s. s.faults };

    /// Reads from the reader once. A read of no byte is the end, and an error is a fault.
    fn read(&mut self, buf: &mut [u8]) -> ReadStep
        requires { 0 < length buf.old }
        ensures step { Reads (R.remaining self.old.inner) (R.remaining self.new.inner) result buf.new }
        ensures later { self.old.faults ≤ self.new.faults }
        ensures cause { result ≡ ReadStep.Failed → Rose self.old.faults self.new.faults }
        ensures counts { self.new.faults ≡ faults_after_read self.old.faults result }
    {
        match self.inner.read(buf) {
            Ok(0) => ReadStep::End,
            Ok(count) => ReadStep::Got(count),
            Err(_) => {
                self.faults = self.faults.saturating_add(1);
                ReadStep::Failed
            }
        }
    }
}

/// A sink over a writer, which counts the writer's errors, and its writes of no byte, as faults.
#[derive(Drop)]
pub struct WriterSink<W> {
    inner: W,
    faults: u64,
}

impl<W> WriterSink<W> {
    /// A sink over this writer, with no fault counted.
    pub fn new(inner: W) -> WriterSink<W>
        ensures inner { result.inner ≡ inner }
        ensures faults { result.faults ≡ 0 }
    {
        WriterSink { inner, faults: 0 }
    }

    /// How many writes have failed.
    pub fn faults(&self) -> u64
        ensures { result ≡ self.now.faults }
    {
        self.faults
    }
}

impl<W: Write> Sink for WriterSink<W> {
    ghost written = { λ s. W.contents s.inner };

    ghost faults = { λ s. s.faults };

    /// Writes to the writer once. An error, or a write of no byte, is a fault.
    fn write(&mut self, piece: &[u8]) -> WriteStep
        requires { 0 < length piece.now }
        ensures step { Writes (W.contents self.old.inner) (W.contents self.new.inner) result piece.now }
        ensures later { self.old.faults ≤ self.new.faults }
        ensures cause { result ≡ WriteStep.Failed → Rose self.old.faults self.new.faults }
        ensures counts { self.new.faults ≡ faults_after_write self.old.faults result }
    {
        match self.inner.write(piece) {
            Ok(count) if count > 0 => WriteStep::Took(count),
            Ok(_) | Err(_) => {
                self.faults = self.faults.saturating_add(1);
                WriteStep::Failed
            }
        }
    }

    /// Flushes the writer. An error is a fault.
    fn flush(&mut self) -> Result<(), WriteFailed>
        ensures kept { Keeps (W.contents self.old.inner) (W.contents self.new.inner) }
        ensures later { self.old.faults ≤ self.new.faults }
        ensures cause { OnErr result (Rose self.old.faults self.new.faults) }
    {
        match self.inner.flush() {
            Ok(()) => Ok(()),
            Err(_) => {
                self.faults = self.faults.saturating_add(1);
                Err(WriteFailed)
            }
        }
    }
}
