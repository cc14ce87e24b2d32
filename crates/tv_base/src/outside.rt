// What the program reads from, writes to and waits at.
ghost use Rattle.std.specs.Prelude.{◌≡◌, ◌<◌, ◌≤◌, ℕ, List, length, OnErr};
ghost use Rattle.std.specs.Io.KnownBytes.{Keeps};
ghost use Rattle.std.specs.declared.option.Option.{Option};
ghost use Rattle.tv_base.specs.Outside.{Reads, Rose, Writes};

use crate::moving::WriteFailed;
use crate::numbers::ActorNo;

/// What one read gave.
#[derive(Clone, Copy, Debug, PartialEq, Eq)]
pub enum ReadStep {
    /// This many bytes, at the front of the buffer: at least 1, and at most its length.
    Got(usize),
    /// No byte, since none is left.
    End,
    /// No byte, since there was a fault. What was left is still left.
    Failed,
}

/// What one write took.
#[derive(Clone, Copy, Debug, PartialEq, Eq)]
pub enum WriteStep {
    /// This many bytes from the front of the piece: at least 1, and at most its length.
    Took(usize),
    /// No byte, since there was a fault. What was written stays as it was.
    Failed,
}

/// Where bytes come from. It counts its faults, up to 2^64 - 1, and the count never falls.
pub trait Source {
    /// The bytes that are left, if the source tells them.
    ghost left: { Self → Option (List ℕ) };

    /// How many faults it has had.
    ghost faults: { Self → ℕ };

    /// Reads into the front of a buffer that is not empty.
    ///
    /// `Got` gives the bytes that were next. `End` comes only if none is left, or if the source doesn't tell what is
    /// left. `Failed` comes only with one more fault counted, and takes nothing from what is left.
    fn read(&mut self, buf: &mut [u8]) -> ReadStep
        requires { 0 < length buf.old }
        ensures step { Reads (left self.old) (left self.new) result buf.new }
        ensures later { faults self.old ≤ faults self.new }
        ensures cause { result ≡ ReadStep.Failed → Rose (faults self.old) (faults self.new) };
}

/// Where bytes go. It counts its faults, up to 2^64 - 1, and the count never falls.
pub trait Sink {
    /// The bytes written so far, if the sink tells them.
    ghost written: { Self → Option (List ℕ) };

    /// How many faults it has had.
    ghost faults: { Self → ℕ };

    /// Writes a prefix of a piece that is not empty.
    ///
    /// `Took` puts that prefix after what was written. `Failed` comes only with one more fault counted, and writes
    /// nothing.
    fn write(&mut self, piece: &[u8]) -> WriteStep
        requires { 0 < length piece.now }
        ensures step { Writes (written self.old) (written self.new) result piece.now }
        ensures later { faults self.old ≤ faults self.new }
        ensures cause { result ≡ WriteStep.Failed → Rose (faults self.old) (faults self.new) };

    /// Passes on what was written and kept back, to where another sees it. What was written stays as it was.
    ///
    /// `Err` comes only with one more fault counted.
    fn flush(&mut self) -> Result<(), WriteFailed>
        ensures kept { Keeps (written self.old) (written self.new) }
        ensures later { faults self.old ≤ faults self.new }
        ensures cause { OnErr result (Rose (faults self.old) (faults self.new)) };
}

/// A place where actors may be made to wait.
pub trait Gate {
    /// May wait. It has no other effect on a run.
    fn hold(&self, actor: ActorNo);
}

/// The gate at which nobody waits.
#[derive(Clone, Copy, Debug)]
pub struct NoGate;

impl Gate for NoGate {
    fn hold(&self, _actor: ActorNo) {}
}
