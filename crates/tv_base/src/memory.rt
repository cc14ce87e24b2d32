// A source and a sink in memory, which fail where they are told to.
ghost use Rattle.std.specs.Io.KnownBytes.{Keeps};
ghost use Rattle.std.specs.Prelude.{◌≡◌, ◌<◌, ◌≤◌, ◌↔◌, ℕ, length, Some, IfOk, IsTrue, OnErr};
ghost use Rattle.tv_base.specs.Memory.{lists, source_of, read_fails, most_given, after_read, sink_of, write_fails, most_written, after_write};
ghost use Rattle.tv_base.specs.Outside.{Reads, Rose, Writes};

use crate::moving::WriteFailed;
use crate::numbers::NoMemory;
use crate::outside::{ReadStep, Sink, Source, WriteStep};
use std::alloc::Global;
use std::marker::Model;

/// A source of bytes in memory. A call gives at most a fixed number of them, and the calls whose numbers are listed
/// fail.
#[derive(Drop)]
pub struct MemSource {
    bytes: Vec<u8>,
    at: usize,
    most: usize,
    fails: Vec<u32>,
    calls: u64,
    faults: u64,
}

impl Model for MemSource {
    ghost use Rattle.tv_base.specs.Memory.{FromMemory};
    ghost use Rattle.tv_base.specs.MemoryViews.{source_shown, IsSource};

    ghost Value = { FromMemory };

    ghost view = { source_shown };

    ghost invariant = { IsSource };
}

impl MemSource {
    /// A source of these bytes. A call gives at most `most` of them, which is at least 1. The calls whose numbers
    /// `fails` lists, counted from 1, fail.
    pub fn new(bytes: Vec<u8>, most: usize, fails: Vec<u32>) -> MemSource
        requires { 0 < most }
        ensures { result ≡ source_of bytes.items most fails.items }
    {
        MemSource {
            bytes,
            at: 0,
            most,
            fails,
            calls: 0,
            faults: 0,
        }
    }

    /// How many calls there have been.
    pub fn calls(&self) -> u64
        ensures { result ≡ self.now.calls }
    {
        self.calls
    }

    /// How many calls have failed.
    pub fn faults(&self) -> u64
        ensures { result ≡ self.now.faults }
    {
        self.faults
    }
}

// Whether the number of a call is listed.
fn is_listed(fails: &[u32], call: u64) -> bool
    ensures { result ≡ lists fails.now call }
{
    fails.iter().any(|n| *n as u64 == call)
}

impl Source for MemSource {
    ghost left = { λ s. Some s.left };

    ghost faults = { λ s. s.faults };

    /// Fails exactly if the number of the call is listed.
    fn read(&mut self, buf: &mut [u8]) -> ReadStep
        requires { 0 < length buf.old }
        ensures step { Reads (Some self.old.left) (Some self.new.left) result buf.new }
        ensures later { self.old.faults ≤ self.new.faults }
        ensures cause { result ≡ ReadStep.Failed → Rose self.old.faults self.new.faults }
        ensures fails { IsTrue (read_fails self.old) ↔ (result ≡ ReadStep.Failed) }
        ensures most { (n : ℕ) → result ≡ ReadStep.Got n → n ≡ most_given self.old (length buf.old) }
        ensures state { self.new ≡ after_read self.old result }
    {
        self.calls = self.calls.saturating_add(1);
        if is_listed(&self.fails, self.calls) {
            self.faults = self.faults.saturating_add(1);
            return ReadStep::Failed;
        }
        let left = self.bytes.len() - self.at;
        if left == 0 {
            return ReadStep::End;
        }
        let count = left.min(self.most).min(buf.len());
        buf[..count].copy_from_slice(&self.bytes[self.at..self.at + count]);
        self.at += count;
        ReadStep::Got(count)
    }
}

/// A sink in memory with fixed room. A call takes at most a fixed number of bytes. The calls whose numbers are listed
/// fail, and so does each call once no room is left.
#[derive(Drop)]
pub struct MemSink {
    bytes: Vec<u8>,
    len: usize,
    most: usize,
    fails: Vec<u32>,
    calls: u64,
    faults: u64,
}

impl Model for MemSink {
    ghost use Rattle.tv_base.specs.Memory.{ToMemory};
    ghost use Rattle.tv_base.specs.MemoryViews.{sink_shown, IsSink};

    ghost Value = { ToMemory };

    ghost view = { sink_shown };

    ghost invariant = { IsSink };
}

impl MemSink {
    /// An empty sink with room for `room` bytes. A call takes at most `most` of them, which is at least 1. The calls
    /// whose numbers `fails` lists, counted from 1, fail, and so does each call once no room is left.
    pub fn new(
        alloc: Global,
        room: usize,
        most: usize,
        fails: Vec<u32>,
    ) -> Result<MemSink, NoMemory>
        requires { 0 < most }
        ensures { IfOk result (λ s. s ≡ sink_of room most fails.items) }
    {
        let mut bytes = Vec::new(alloc);
        bytes.resize(room, 0)?;
        Ok(MemSink {
            bytes,
            len: 0,
            most,
            fails,
            calls: 0,
            faults: 0,
        })
    }

    /// The bytes written so far, in order.
    pub fn bytes(&self) -> &[u8]
        ensures { result.now ≡ self.now.written }
    {
        &self.bytes[..self.len]
    }

    /// How many calls there have been.
    pub fn calls(&self) -> u64
        ensures { result ≡ self.now.calls }
    {
        self.calls
    }

    /// How many calls have failed.
    pub fn faults(&self) -> u64
        ensures { result ≡ self.now.faults }
    {
        self.faults
    }
}

impl Sink for MemSink {
    ghost written = { λ s. Some s.written };

    ghost faults = { λ s. s.faults };

    /// Fails exactly if the number of the call is listed or no room is left.
    fn write(&mut self, piece: &[u8]) -> WriteStep
        requires { 0 < length piece.now }
        ensures step { Writes (Some self.old.written) (Some self.new.written) result piece.now }
        ensures later { self.old.faults ≤ self.new.faults }
        ensures cause { result ≡ WriteStep.Failed → Rose self.old.faults self.new.faults }
        ensures fails { IsTrue (write_fails self.old) ↔ (result ≡ WriteStep.Failed) }
        ensures most { (n : ℕ) → result ≡ WriteStep.Took n → n ≡ most_written self.old (length piece.now) }
        ensures state { self.new ≡ after_write self.old piece.now result }
    {
        self.calls = self.calls.saturating_add(1);
        let room = self.bytes.len() - self.len;
        if room == 0 || is_listed(&self.fails, self.calls) {
            self.faults = self.faults.saturating_add(1);
            return WriteStep::Failed;
        }
        let count = room.min(self.most).min(piece.len());
        self.bytes[self.len..self.len + count].copy_from_slice(&piece[..count]);
        self.len += count;
        WriteStep::Took(count)
    }

    /// Nothing is kept back, so nothing happens.
    fn flush(&mut self) -> Result<(), WriteFailed>
        ensures kept { Keeps (Some self.old.written) (Some self.new.written) }
        ensures later { self.old.faults ≤ self.new.faults }
        ensures cause { OnErr result (Rose self.old.faults self.new.faults) }
        ensures same { self.new ≡ self.old }
    {
        Ok(())
    }
}
