// Runs on threads, past gates that hold actors back.
ghost use Rattle.std.specs.Prelude.{◌<◌, ◌≤◌};

use crate::words::words_of;
use board_judge::Judge;
use run_history::History;
use script_reader::read_script;
use std::alloc::Global;
use std::sync::Wait;
use std::sync::atomic::{AtomicU64, Ordering};
use std::test::Fail;
use std::thread::{self, Threads};
use threev_top::{Host, threev};
use tv_base::{ActorNo, Gate, MemSink, MemSource};

// How often a gate looks for what it waits for, at most.
const TURNS: u32 = 0x400_0000;

// Two trees of a root alone, one at each of two nodes.
const TWO_TREES: &str =
    "nodes,2\nitem,a,0,sum,0\nitem,b,1,sum,0\nupdate,t,0\nadd,a,1\nupdate,u,1\nadd,b,1\n";

const TWO_TREES_TEXT: &str =
    "tree t version 1\ntree u version 1\nnode 0 update 1 read 0\nnode 1 update 1 read 0\nitem a 0:0 1:1\nitem b 0:0 1:1\n";

const WHOLE_ADVANCEMENT: &str =
    "nodes,2\nitem,a,0,sum,10\nitem,b,1,sum,0\nupdate,t,0\nadd,a,5\nsub,0,1\nadd,b,7\nsettle\nadvance\nsettle\nread,r,1\nget,b\nsub,0,0\nget,a\n";

const WHOLE_ADVANCEMENT_TEXT: &str =
    "tree t version 1\nread r version 1 b=7 a=15\nnode 0 update 2 read 1\nnode 1 update 2 read 1\nitem a 1:15\nitem b 1:7\n";

/// The first holds of nodes 0 and 1 each wait until the other has begun, or are missed. All holds are counted.
#[derive(Drop)]
struct Meeting {
    held: [AtomicU64; 6],
    missed: AtomicU64,
}

impl Meeting {
    fn new() -> Meeting {
        Meeting {
            held: [
                AtomicU64::new(0),
                AtomicU64::new(0),
                AtomicU64::new(0),
                AtomicU64::new(0),
                AtomicU64::new(0),
                AtomicU64::new(0),
            ],
            missed: AtomicU64::new(0),
        }
    }

    fn times(&self, actor: usize) -> u64
        requires { actor < 6 }
    {
        self.held[actor].load(Ordering::SeqCst)
    }

    fn waits_for(&self, actor: usize)
        requires { actor < 6 }
    {
        for _turn in 0..TURNS {
            if self.times(actor) > 0 {
                return;
            }
            thread::yield_now();
        }
        self.missed.fetch_add(1, Ordering::SeqCst);
    }
}

impl Gate for Meeting {
    fn hold(&self, actor: ActorNo) {
        let place = (actor.0 % 6) as usize;
        let before = self.held[place].fetch_add(1, Ordering::SeqCst);
        if before == 0 && place == 0 {
            self.waits_for(1);
        }
        if before == 0 && place == 1 {
            self.waits_for(0);
        }
    }
}

/// Every third hold of node 0 waits until node 1 was held once more, for a while.
#[derive(Drop)]
struct EveryThird {
    first: AtomicU64,
    second: AtomicU64,
}

impl EveryThird {
    fn waits_past(&self, seen: u64) {
        for _turn in 0..0x10_0000u32 {
            if self.second.load(Ordering::SeqCst) > seen {
                return;
            }
            thread::yield_now();
        }
    }
}

impl Gate for EveryThird {
    fn hold(&self, actor: ActorNo) {
        if actor.0 == 1 {
            self.second.fetch_add(1, Ordering::SeqCst);
        }
        if actor.0 == 0 && self.first.fetch_add(1, Ordering::SeqCst) % 3 == 2 {
            self.waits_past(self.second.load(Ordering::SeqCst));
        }
    }
}

/// The history of a call over ends in memory, if it ends with status 0 and writes a text that ends with this one.
fn history_of<R: Threads + Wait + Sync, G: Gate + Sync>(
    host: &Host<'_, R, G>,
    line: &[&str],
    (script, text): (&str, &str),
) -> Result<History, Fail> {
    let alloc = host.alloc;
    let words = words_of(alloc, line)?;
    let mut source = MemSource::new(script.as_bytes().to_vec(alloc)?, 64, Vec::new(alloc));
    let mut out = MemSink::new(alloc, 2000, 64, Vec::new(alloc))?;
    let mut err = MemSink::new(alloc, 100, 64, Vec::new(alloc))?;
    let ended = threev(host, &words, &mut source, &mut out, &mut err);
    if ended.status != 0 || !out.bytes().ends_with(text.as_bytes()) {
        return Err("another status or text".into());
    }
    Ok(ended.history)
}

fn entries_of(history: &History, actor: u8) -> u64 {
    let mut count = 0u64;
    for entry in history.entries() {
        if entry.actor().0 == actor {
            count = count.saturating_add(1);
        }
    }
    count
}

/// Both nodes made their first steps side by side, and each actor was held as often as it has entries.
fn met(gate: &Meeting, history: &History, actors: u8) -> bool
    requires { actors ≤ 6 }
{
    for actor in 0..actors {
        if gate.times(actor as usize) != entries_of(history, actor) {
            return false;
        }
    }
    gate.times(0) > 0 && gate.times(1) > 0 && gate.missed.load(Ordering::SeqCst) == 0
}

#[test]
fn two_nodes_step_side_by_side(rt: HostRuntime) -> Result<(), Fail> {
    let gate = Meeting::new();
    let words = ["threev", "--mode", "run", "--workers", "4"];
    let host = Host {
        rt: &rt,
        alloc: rt.alloc(),
        gate: &gate,
    };
    let history = history_of(&host, &words, (TWO_TREES, TWO_TREES_TEXT))?;
    assert!(rt; met(&gate, &history, 4));
    Ok(())
}

#[test]
fn a_generated_run_steps_side_by_side(rt: HostRuntime) -> Result<(), Fail> {
    let gate = Meeting::new();
    let words = [
        "threev",
        "--mode=soak",
        "--seed=17",
        "--trees=2",
        "--workers=4",
    ];
    let host = Host {
        rt: &rt,
        alloc: rt.alloc(),
        gate: &gate,
    };
    let history = history_of(&host, &words, ("", "total sum 28000 top 0\n"))?;
    assert!(rt; met(&gate, &history, 6));
    Ok(())
}

/// Whether a judge takes the whole history of a script, and the client has finished at its end.
fn is_right(alloc: Global, script: &[u8], history: &History) -> Result<bool, Fail> {
    let script = read_script(alloc, script)?;
    let mut judge = Judge::new(alloc, &script)?;
    let entries = history.items(alloc)?;
    for entry in &entries {
        if judge.take(entry).is_err() {
            return Ok(false);
        }
    }
    Ok(judge.is_finished())
}

#[test]
fn a_node_that_is_held_back_changes_no_text(rt: HostRuntime) -> Result<(), Fail> {
    let gate = EveryThird {
        first: AtomicU64::new(0),
        second: AtomicU64::new(0),
    };
    let words = ["threev", "--mode", "run", "--workers", "4"];
    let ends = (WHOLE_ADVANCEMENT, WHOLE_ADVANCEMENT_TEXT);
    let host = Host {
        rt: &rt,
        alloc: rt.alloc(),
        gate: &gate,
    };
    let history = history_of(&host, &words, ends)?;
    assert!(rt; is_right(rt.alloc(), WHOLE_ADVANCEMENT.as_bytes(), &history)?);
    Ok(())
}
