ghost use Rattle.std.specs.Prelude.{◌≡◌, ◌<◌, ◌↔◌, IsTrue};
ghost use Rattle.node_versions.specs.Turns.{raised, turns_start};

use tv_base::Version;

/// The versions of a node (docs/ALGORITHM.md, "Versions").
#[derive(Clone, Copy, Debug, PartialEq, Eq)]
pub struct Turns {
    /// The version of updates that begin here.
    pub update: Version,
    /// The version of reads that begin here.
    pub read: Version,
    /// The version to which the node last collected.
    pub low: Version,
}

impl Turns {
    /// Update version 1, read version 0, low version 0.
    pub fn start() -> Turns
        ensures { result ≡ turns_start }
    {
        Turns {
            update: Version(1),
            read: Version(0),
            low: Version(0),
        }
    }

    /// Raises the update version to `v`, if it is less. True exactly if it was.
    pub fn raise(&mut self, v: Version) -> bool
        ensures raised { self.new ≡ raised v self.old }
        ensures was_less { IsTrue result ↔ (self.old.update.0 < v.0) }
    {
        if self.update < v {
            self.update = v;
            return true;
        }
        false
    }

    /// Sets the read version.
    pub fn show(&mut self, v: Version)
        ensures { self.new ≡ record self.old { read = v } }
    {
        self.read = v;
    }

    /// Sets the low version.
    pub fn sweep(&mut self, v: Version)
        ensures { self.new ≡ record self.old { low = v } }
    {
        self.low = v;
    }
}
