ghost use Rattle.std.specs.Prelude.{ℕ, ◌≡◌, ◌+◌, ◌%◌, ◌<◌, ◌≤◌, ◌^◌, length, slice_get, IfOk};
ghost use Rattle.tv_base.specs.declared.numbers.TheConstants.{MOST_NODES};
ghost use Rattle.pair_counters.specs.Numbers.{more_at, numbers_of, from_version};
ghost use Rattle.pair_counters.specs.Counts.{dropped_below, no_counts, one_asked, one_done};
ghost use Rattle.pair_counters.specs.Rows.{counts_of, is_kept, number_in_row, asked_in, done_in};
ghost use Rattle.pair_counters.specs.inside.NoNumbers.{no_numbers};

use std::alloc::Global;
use std::marker::Model;
use tv_base::{MOST_NODES, NoMemory, NodeNo, Seq, Version};

/// How many versions are counted at a time.
const VERSIONS: u64 = 3;

/// Numbers by node.
pub type Row = Seq<u64, 0xffff_ffff>;

/// The numbers of one version, by node. The places from the number of nodes on are not read.
#[derive(Drop)]
pub struct CounterRow {
    pub asked: [u64; MOST_NODES],
    pub done: [u64; MOST_NODES],
}

/// The requests to other nodes, and the completions from them, that a node counts by version: for the low version and
/// the two after it. The low version is the greatest that was given to `drop_below`, 0 at first. Three rows are used in
/// turn: version `v` has row `v` mod 3.
#[derive(Drop)]
pub struct Counters {
    nodes: u8,
    low: Version,
    rows: [CounterRow; 3],
}

impl Model for Counters {
    ghost use Rattle.std.specs.Prelude.{◌≤◌};
    ghost use Rattle.tv_base.specs.declared.numbers.TheConstants.{MOST_NODES};
    ghost use Rattle.pair_counters.specs.Rows.{CounterRows};

    ghost Value = { CounterRows };

    ghost view = { λ c. record { nodes = c.nodes; low = c.low.0; rows = c.rows } };

    ghost invariant = { λ c. c.nodes ≤ MOST_NODES };
}

impl Counters {
    /// Counters for `nodes` nodes, at most `MOST_NODES`, with nothing counted. The low version is 0.
    pub fn new(nodes: u8) -> Counters
        requires { nodes ≤ MOST_NODES }
        ensures { counts_of result ≡ no_counts nodes }
    {
        Counters {
            nodes,
            low: Version(0),
            rows: [no_numbers(), no_numbers(), no_numbers()],
        }
    }

    /// Counts one more request of version `v` to a node.
    pub fn asked(&mut self, v: Version, to: NodeNo)
        requires from { (counts_of self.old).low ≤ v.0 }
        requires up_to { v.0 ≤ (counts_of self.old).low + 2 }
        requires node { to.0 < (counts_of self.old).nodes }
        requires below { (counts_of self.old).numbers.asked v.0 to.0 < 2 ^ 63 }
        ensures { counts_of self.new ≡ one_asked v.0 to.0 (counts_of self.old) }
    {
        count_asked(&mut self.rows, v, to);
    }

    /// Counts one more completion of version `v` from a node.
    pub fn done(&mut self, v: Version, from: NodeNo)
        requires from { (counts_of self.old).low ≤ v.0 }
        requires up_to { v.0 ≤ (counts_of self.old).low + 2 }
        requires node { from.0 < (counts_of self.old).nodes }
        requires below { (counts_of self.old).numbers.done v.0 from.0 < 2 ^ 63 }
        ensures { counts_of self.new ≡ one_done v.0 from.0 (counts_of self.old) }
    {
        count_done(&mut self.rows, v, from);
    }

    /// The requests of version `v`, by node. Zeros if the version isn't counted.
    pub fn asked_row(&self, alloc: Global, v: Version) -> Result<Row, NoMemory>
        ensures { IfOk result
            (λ row. row ≡ numbers_of (counts_of self.now).nodes ((counts_of self.now).numbers.asked v.0)) }
    {
        let mut row = Row::new(alloc);
        for node in 0..self.nodes {
            row.push(asked_number(&self.rows, self.low, v, NodeNo(node)))?;
        }
        Ok(row)
    }

    /// The completions of version `v`, by node. Zeros if the version isn't counted.
    pub fn done_row(&self, alloc: Global, v: Version) -> Result<Row, NoMemory>
        ensures { IfOk result
            (λ row. row ≡ numbers_of (counts_of self.now).nodes ((counts_of self.now).numbers.done v.0)) }
    {
        let mut row = Row::new(alloc);
        for node in 0..self.nodes {
            row.push(done_number(&self.rows, self.low, v, NodeNo(node)))?;
        }
        Ok(row)
    }

    /// Drops the numbers of versions below `v`. The other versions keep theirs. The low version becomes `v`, if that is
    /// greater. It needs no memory.
    pub fn drop_below(&mut self, v: Version)
        ensures { counts_of self.new ≡ dropped_below v.0 (counts_of self.old) }
    {
        if self.low < v {
            keep_from(&mut self.rows, self.low, v);
            self.low = v;
        }
    }
}

/// A row with nothing counted.
fn no_numbers() -> CounterRow
    ensures { result ≡ no_numbers }
{
    CounterRow {
        asked: [0; MOST_NODES],
        done: [0; MOST_NODES],
    }
}

/// Whether the version is the low one or one of the two after it.
fn is_kept(low: Version, v: Version) -> bool
    ensures { result ≡ is_kept low.0 v.0 }
{
    low.0 <= v.0 && v.0 - low.0 < VERSIONS
}

/// Counts one more request of the version to a node.
fn count_asked(rows: &mut [CounterRow], v: Version, to: NodeNo)
    requires three { length rows.old ≡ 3 }
    requires node { to.0 < MOST_NODES }
    requires below { number_in_row (λ r. r.asked) to.0 (slice_get rows.old (v.0 % 3)) < 2 ^ 63 }
    ensures asked { (l : ℕ) → l ≤ v.0 → v.0 ≤ l + 2 → asked_in l rows.new ≡ more_at v.0 to.0 (asked_in l rows.old) }
    ensures done { (low : ℕ) → low ≤ v.0 → v.0 ≤ low + 2 → done_in low rows.new ≡ done_in low rows.old }
{
    let row = &mut rows[(v.0 % VERSIONS) as usize];
    let number = row.asked[to.0 as usize];
    row.asked[to.0 as usize] = number + 1;
}

/// Counts one more completion of the version from a node.
fn count_done(rows: &mut [CounterRow], v: Version, from: NodeNo)
    requires three { length rows.old ≡ 3 }
    requires node { from.0 < MOST_NODES }
    requires below { number_in_row (λ r. r.done) from.0 (slice_get rows.old (v.0 % 3)) < 2 ^ 63 }
    ensures asked { (low : ℕ) → low ≤ v.0 → v.0 ≤ low + 2 → asked_in low rows.new ≡ asked_in low rows.old }
    ensures done { (l : ℕ) → l ≤ v.0 → v.0 ≤ l + 2 → done_in l rows.new ≡ more_at v.0 from.0 (done_in l rows.old) }
{
    let row = &mut rows[(v.0 % VERSIONS) as usize];
    let number = row.done[from.0 as usize];
    row.done[from.0 as usize] = number + 1;
}

/// The requests of the version to a node.
fn asked_number(rows: &[CounterRow], low: Version, v: Version, to: NodeNo) -> u64
    requires three { length rows.now ≡ 3 }
    requires node { to.0 < MOST_NODES }
    ensures { result ≡ asked_in low.0 rows.now v.0 to.0 }
{
    if !is_kept(low, v) {
        return 0;
    }
    rows[(v.0 % VERSIONS) as usize].asked[to.0 as usize]
}

/// The completions of the version from a node.
fn done_number(rows: &[CounterRow], low: Version, v: Version, from: NodeNo) -> u64
    requires three { length rows.now ≡ 3 }
    requires node { from.0 < MOST_NODES }
    ensures { result ≡ done_in low.0 rows.now v.0 from.0 }
{
    if !is_kept(low, v) {
        return 0;
    }
    rows[(v.0 % VERSIONS) as usize].done[from.0 as usize]
}

/// Keeps the numbers of versions from `v` up: the rows of lower ones become those of later versions, with nothing
/// counted.
fn keep_from(rows: &mut [CounterRow], low: Version, v: Version)
    requires three { length rows.old ≡ 3 }
    requires further { low.0 < v.0 }
    ensures asked { asked_in v.0 rows.new ≡ from_version v.0 (asked_in low.0 rows.old) }
    ensures done { done_in v.0 rows.new ≡ from_version v.0 (done_in low.0 rows.old) }
{
    let first = low.0 % VERSIONS;
    let dropped = (v.0 - low.0).min(VERSIONS);
    for k in 0..dropped {
        rows[((first + k) % VERSIONS) as usize] = no_numbers();
    }
}
