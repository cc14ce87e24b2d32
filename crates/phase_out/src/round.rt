ghost use Rattle.std.specs.Prelude.{ℕ, ◌≡◌, ◌<◌, ◌↔◌, List, length, replicate, slice_set, if◌then◌else◌, ◌&&◌, IfOk, IsTrue, Some, None};
ghost use Rattle.phase_out.specs.Rounds.{AreRows, IsMissing, new_round, is_of, all_in, number_at, kept_number, pair_agrees, all_below, agrees, verdict_of};

use pair_counters::Row;
use std::alloc::Global;
use std::marker::Model;
use tv_base::{NoMemory, NodeNo, Seq, Version};

/// A row for each node, or None if it is missing.
pub(crate) type NodeRows = Seq<Option<Row>, 0xff>;

/// A round of counting one version: the rows of numbers that the nodes have sent, first of completions, then of
/// requests.
#[derive(Drop)]
pub struct Round {
    version: Version,
    number: u64,
    nodes: u8,
    dones: NodeRows,
    pub(crate) askeds: NodeRows,
}

impl Model for Round {
    ghost use Rattle.phase_out.specs.Rounds.{RoundData, AreRows};

    ghost Value = { RoundData };

    ghost view = { λ r. record { version = r.version; number = r.number; nodes = r.nodes; dones = r.dones; askeds = r.askeds } };

    ghost invariant = { λ r. AreRows r.nodes r.dones × AreRows r.nodes r.askeds };
}

impl Round {
    /// A round of this version and number, with all rows missing.
    pub fn new(alloc: Global, version: Version, number: u64, nodes: u8) -> Result<Round, NoMemory>
        ensures { IfOk result (λ round. round ≡ new_round version number nodes) }
    {
        let dones = no_rows(alloc, nodes)?;
        let askeds = no_rows(alloc, nodes)?;
        Ok(Round {
            version,
            number,
            nodes,
            dones,
            askeds,
        })
    }

    /// A round of no nodes, so no row belongs to it. It needs no memory.
    pub fn empty(alloc: Global) -> Round
        ensures { result ≡ new_round (record { 0 = 0 }) 0 0 }
    {
        Round {
            version: Version(0),
            number: 0,
            nodes: 0,
            dones: Seq::new(alloc),
            askeds: Seq::new(alloc),
        }
    }

    /// The version whose numbers are compared.
    pub fn version(&self) -> Version
        ensures { result ≡ self.now.version }
    {
        self.version
    }

    /// The round's number.
    pub fn number(&self) -> u64
        ensures { result ≡ self.now.number }
    {
        self.number
    }

    /// Whether a row from this sender, with this version and round number, belongs to this round: both are the round's,
    /// the sender is one of its nodes, and the row has a number for each node.
    pub fn is_of(&self, from: NodeNo, version: Version, number: u64, row: &Row) -> bool
        ensures is_of { result ≡ is_of from.0 version number row.now self.now }
        ensures node { IsTrue result → from.0 < self.now.nodes }
        ensures numbers { IsTrue result → length row.now ≡ self.now.nodes }
    {
        version == self.version
            && number == self.number
            && from.0 < self.nodes
            && row.items().len() == self.nodes as usize
    }

    /// Keeps a node's row of completions, in place of an earlier one. It needs no memory.
    pub fn take_done(&mut self, from: NodeNo, row: Row)
        requires node { from.0 < self.old.nodes }
        requires numbers { length row ≡ self.old.nodes }
        ensures { self.new ≡ record self.old { dones = slice_set self.old.dones from.0 (Some row) } }
    {
        self.dones.put(from.0 as usize, Some(row));
    }

    /// Keeps a node's row of requests, in place of an earlier one. It needs no memory.
    pub fn take_asked(&mut self, from: NodeNo, row: Row)
        requires node { from.0 < self.old.nodes }
        requires numbers { length row ≡ self.old.nodes }
        ensures { self.new ≡ record self.old { askeds = slice_set self.old.askeds from.0 (Some row) } }
    {
        self.askeds.put(from.0 as usize, Some(row));
    }

    /// Whether each node's row of completions is in.
    pub fn all_done(&self) -> bool
        ensures all { result ≡ all_in self.now.dones }
        ensures each { IsTrue result ↔ ((p : ℕ) → IsMissing self.now.dones p → ⊥) }
    {
        all_in(self.dones.items())
    }

    /// Whether each node's row of completions would be in once this node's is, whatever its numbers are.
    pub fn all_done_with(&self, from: NodeNo) -> bool
        requires { from.0 < self.now.nodes }
        ensures { (row : List ℕ) → result ≡ all_in (slice_set self.now.dones from.0 (Some row)) }
    {
        all_others_in(self.dones.items(), from.0 as usize)
    }

    /// The verdict as it would be with this row of requests from a node, in place of an earlier one.
    pub fn verdict_with(&self, from: NodeNo, row: &Row) -> Option<bool>
        requires { from.0 < self.now.nodes }
        ensures { result
            ≡ verdict_of (record self.now { askeds = slice_set self.now.askeds from.0 (Some row.now) }) }
    {
        let askeds = AskedRows {
            kept: self.askeds.items(),
            from: from.0,
            row: row.items(),
        };
        verdict(self.dones.items(), &askeds, self.nodes)
    }
}

/// Rows of requests, with one that isn't kept yet in place of what is kept of its node.
#[derive(Drop)]
struct AskedRows<'a> {
    kept: &'a [Option<Row>],
    from: u8,
    row: &'a [u64],
}

impl<'a> Model for AskedRows<'a> {
    ghost use Rattle.std.specs.Prelude.{◌<◌, length, slice_set, Some};
    ghost use Rattle.phase_out.specs.Rounds.{NodeRows};

    ghost Value = { NodeRows };

    ghost view = { λ a. slice_set a.kept.now a.from (Some a.row.now) };

    ghost invariant = { λ a. a.from < length a.kept.now };
}

impl<'a> AskedRows<'a> {
    /// Whether no row is missing.
    fn all_in(&self) -> bool
        ensures { result ≡ all_in self.now }
    {
        all_others_in(self.kept, self.from as usize)
    }

    /// The number at a place of a node's row, or 0 if it is missing.
    fn number(&self, node: u8, place: u8) -> u64
        ensures { result ≡ kept_number self.now node place }
    {
        if node == self.from {
            in_row(self.row, place)
        } else {
            number(self.kept, node, place)
        }
    }
}

/// No row of any node.
#[tactic(auto, using(std::proofs::lemmas::Grind::replicate_next))]
fn no_rows(alloc: Global, nodes: u8) -> Result<NodeRows, NoMemory>
    ensures rows { IfOk result (λ kept. kept ≡ replicate nodes None) }
{
    let mut kept = Seq::new(alloc);
    for _ in 0..nodes {
        kept.push(None)?;
    }
    Ok(kept)
}

/// Whether no row is missing.
fn all_in(kept: &[Option<Row>]) -> bool
    ensures { result ≡ all_in kept.now }
{
    for row in kept {
        match row {
            None => return false,
            Some(_) => {}
        }
    }
    true
}

/// Whether no row but that of a node is missing.
fn all_others_in(kept: &[Option<Row>], node: usize) -> bool
    requires { node < length kept.now }
    ensures { (row : List ℕ) → result ≡ all_in (slice_set kept.now node (Some row)) }
{
    all_in(&kept[..node]) && all_in(&kept[node + 1..])
}

/// The number at a place of a node's row, or 0 if it is missing.
fn number(kept: &[Option<Row>], node: u8, place: u8) -> u64
    ensures { result ≡ kept_number kept.now node place }
{
    match kept.get(node as usize) {
        Some(Some(row)) => in_row(row.items(), place),
        _ => 0,
    }
}

/// The number at a place, or 0 if there is none.
fn in_row(row: &[u64], place: u8) -> u64
    ensures { result ≡ number_at (Some (Some row.now)) place }
{
    match row.get(place as usize) {
        Some(number) => *number,
        None => 0,
    }
}

/// Whether the requests of a node to another are as many as the completions that the other has from it.
fn pair_agrees(askeds: &AskedRows, dones: &[Option<Row>], node: u8, other: u8) -> bool
    ensures { result ≡ pair_agrees askeds.now dones.now node other }
{
    askeds.number(node, other) == number(dones, other, node)
}

/// Whether a node agrees with each of the first `nodes` nodes.
fn node_agrees(askeds: &AskedRows, dones: &[Option<Row>], nodes: u8, node: u8) -> bool
    ensures { result ≡ all_below nodes (pair_agrees askeds.now dones.now node) }
{
    for other in 0..nodes {
        if !pair_agrees(askeds, dones, node, other) {
            return false;
        }
    }
    true
}

/// The verdict of the rows of `nodes` nodes.
fn verdict(dones: &[Option<Row>], askeds: &AskedRows, nodes: u8) -> Option<bool>
    ensures { result ≡ (if all_in dones.now && all_in askeds.now then Some (agrees nodes askeds.now dones.now) else None) }
{
    if !all_in(dones) {
        return None;
    }
    if !askeds.all_in() {
        return None;
    }
    Some(agrees(askeds, dones, nodes))
}

/// Whether every pair of `nodes` nodes agrees.
fn agrees(askeds: &AskedRows, dones: &[Option<Row>], nodes: u8) -> bool
    ensures { result ≡ agrees nodes askeds.now dones.now }
{
    for node in 0..nodes {
        if !node_agrees(askeds, dones, nodes, node) {
            return false;
        }
    }
    true
}
