// What read trees show, each taken when its version is reached in one pass over the serial order.
ghost use Rattle.std.specs.Prelude.{◌≡◌, ◌++◌, ◌+◌, ◌<◌, ◌≤◌, ◌^◌, IfOk, OnOk, length};
ghost use Rattle.board_model.specs.SerialList.{IsSerial};
ghost use Rattle.board_model.specs.Standings.{standings_of};
ghost use Rattle.report_text.specs.inside.Served.{AreAllTold, AreAsked, AreRead, ask_at, asks_from, read_version, worths_in, IsAskedFor, IsServedIn};

use crate::reads::{Reads, no_texts, values_of};
use board_model::{Balances, Carried, Member, Members, Run, Standing, by_version, carry, start};
use std::alloc::Global;
use tv_base::{NoMemory, TreeNo, Version};
use tx_trees::{Tree, TreeKind};

// How far the pass has come: how many read trees were asked, and what all items are worth there.
#[derive(Drop)]
pub(crate) struct Served {
    pub(crate) place: usize,
    pub(crate) carried: Carried,
}

// A pass over the serial order: where it asks for memory, the run, and its read trees that are born, by version.
#[derive(Clone, Copy)]
pub(crate) struct Pass<'a> {
    pub(crate) alloc: Global,
    pub(crate) run: Run<'a>,
    pub(crate) asks: &'a Members,
}

// What a run shows: the values of read trees by tree number, and what all items are worth after the advancements and at
// the next version.
#[derive(Drop)]
pub(crate) struct Shown {
    pub(crate) reads: Reads,
    pub(crate) balances: Balances,
    pub(crate) later: Balances,
}

// What the run shows after `advances` advancements.
pub(crate) fn shown_of(
    alloc: Global,
    run: Run,
    standings: &[Standing],
    advances: u32,
) -> Result<Shown, NoMemory>
    requires serial { IsSerial run.script.now run.history.now run.serial.now }
    requires stood { standings.now ≡ standings_of run.script.now run.history.now }
    ensures reads { IfOk result (λ shown. AreRead run.entry.script.now run.entry.history.now shown.reads) }
    ensures balances { IfOk result (λ shown. shown.balances ≡ worths_in run.entry advances) }
    ensures later { IfOk result (λ shown. shown.later ≡ worths_in run.entry (advances + 1)) }
{
    let trees = run.script.trees();
    let found = asks_of(alloc, trees, standings)?;
    let asks = by_version(alloc, found)?;
    let pass = Pass {
        alloc,
        run,
        asks: &asks,
    };
    let mut reads = no_texts(alloc, trees)?;
    let first = Served {
        place: 0,
        carried: start(alloc, run.script, run.serial)?,
    };
    let version = Version(advances as u64);
    let now = serve_to(pass, &mut reads, first, version)?;
    let balances = copied(alloc, &now.carried.values)?;
    let next = Version(version.0 + 1);
    let after = serve_to(pass, &mut reads, now, next)?;
    let later = copied(alloc, &after.carried.values)?;
    serve_rest(pass, &mut reads, after)?;
    Ok(Shown {
        reads,
        balances,
        later,
    })
}

// A copy of the values.
fn copied(alloc: Global, values: &Balances) -> Result<Balances, NoMemory>
    ensures { IfOk result (λ copy. copy ≡ values.now) }
{
    let mut copy = Balances::new(alloc);
    for value in values.items() {
        copy.push(value.copy(alloc)?)?;
    }
    Ok(copy)
}

// The read trees that are born, with their versions.
fn asks_of(alloc: Global, trees: &[Tree], standings: &[Standing]) -> Result<Members, NoMemory>
    requires each { length standings.now ≡ length trees.now }
    requires few { length trees.now < 2 ^ 32 }
    ensures { IfOk result (λ asks. asks ≡ asks_from 0 trees.now standings.now) }
{
    let mut asks = Members::new(alloc);
    for (t, tree) in trees.iter().enumerate() {
        let version = read_version(tree.kind, standings[t].born);
        push_ask(&mut asks, version, t as u32)?;
    }
    Ok(asks)
}

// The version of a read tree. None for other trees.
fn read_version(kind: TreeKind, born: Option<Version>) -> Option<Version>
    ensures { result ≡ read_version kind born }
{
    match kind {
        TreeKind::Read => born,
        _ => None,
    }
}

// Adds the tree with its version, if there is one.
fn push_ask(asks: &mut Members, version: Option<Version>, tree: u32) -> Result<(), NoMemory>
    ensures { OnOk result (asks.new ≡ asks.old ++ ask_at version tree) }
{
    if let Some(version) = version {
        let tree = TreeNo(tree);
        asks.push(Member { version, tree })?;
    }
    Ok(())
}

// The next read tree shows its values.
fn serve_one(pass: Pass, reads: &mut Reads, served: Served) -> Result<Served, NoMemory>
    requires serial { IsSerial pass.run.script.now pass.run.history.now pass.run.serial.now }
    requires asks { AreAsked pass.run.script.now pass.run.history.now pass.asks.now }
    requires served { IsServedIn pass.run pass.asks.now reads.old served }
    requires more { served.place < length pass.asks.now }
    ensures served { IfOk result (IsServedIn pass.entry.run pass.entry.asks.now reads.new) }
    ensures place { IfOk result (λ r. r.place ≡ served.place + 1) }
    ensures version { IfOk result (λ r. IsAskedFor pass.entry.asks.now served.place r.carried.version) }
{
    let run = pass.run;
    // (read for its clause, that the script is valid)
    let _valid = run.script.nodes();
    let ask = pass.asks.items()[served.place];
    let place = served.place + 1;
    let carried = carry(pass.alloc, run, served.carried, ask.version)?;
    let text = values_of(pass.alloc, run.script, ask.tree, carried.values.items())?;
    reads.put(ask.tree.0 as usize, text);
    Ok(Served { place, carried })
}

// The read trees of at most this version show their values, and what all items are worth is carried on to it.
fn serve_to(
    pass: Pass,
    reads: &mut Reads,
    served: Served,
    version: Version,
) -> Result<Served, NoMemory>
    requires serial { IsSerial pass.run.script.now pass.run.history.now pass.run.serial.now }
    requires asks { AreAsked pass.run.script.now pass.run.history.now pass.asks.now }
    requires served { IsServedIn pass.run pass.asks.now reads.old served }
    requires later { served.carried.version.0 ≤ version.0 }
    ensures served { IfOk result (IsServedIn pass.entry.run pass.entry.asks.now reads.new) }
    ensures version { IfOk result (λ r. r.carried.version ≡ version) }
    ensures worths { IfOk result (λ r. r.carried.values ≡ worths_in pass.entry.run version.0) }
{
    let list = pass.asks.items();
    let mut now = served;
    while now.place < list.len() && list[now.place].version.0 <= version.0 {
        now = serve_one(pass, reads, now)?;
    }
    let place = now.place;
    let carried = carry(pass.alloc, pass.run, now.carried, version)?;
    Ok(Served { place, carried })
}

// All other read trees show their values.
fn serve_rest(pass: Pass, reads: &mut Reads, served: Served) -> Result<(), NoMemory>
    requires serial { IsSerial pass.run.script.now pass.run.history.now pass.run.serial.now }
    requires asks { AreAsked pass.run.script.now pass.run.history.now pass.asks.now }
    requires served { IsServedIn pass.run pass.asks.now reads.old served }
    ensures count { OnOk result (length reads.new ≡ length pass.entry.run.script.now.trees) }
    ensures told { OnOk result (AreAllTold pass.entry.run pass.entry.asks.now reads.new) }
{
    let list = pass.asks.items();
    let mut now = served;
    while now.place < list.len() {
        now = serve_one(pass, reads, now)?;
    }
    Ok(())
}
