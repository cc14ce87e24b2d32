//! An example of 3V's parts as libraries. It builds a script of meter readings by calls, runs it on one thread with a
//! picker of its own and on four threads, and prints what its monthly report read, and the items' values.
#![tactic(auto)]

mod month;
mod printed;
mod report;
mod runs;

use month::{Month, booked_month};
use printed::print_ledger;
use runs::{run_middle_first, run_on_threads};
use std::alloc::Global;
use std::io;
use std::process::ExitCode;
use std::sync::Wait;
use std::thread::Threads;
use thiserror::Error;
use tv_base::NoMemory;
use tx_trees::Refusal;

/// Why there is no ledger.
#[derive(Debug, Drop, Error)]
pub(crate) enum LedgerFault {
    /// A name is empty, or has more than 32 bytes.
    #[error("a name is empty or too long")]
    Name,
    /// The script refused a record.
    #[error("{0}")]
    Refused(#[from] Refusal),
    /// Standard output failed.
    #[error("{0}")]
    NotPrinted(#[from] io::Error),
    /// Out of memory.
    #[error("out of memory")]
    NoMemory,
}

impl From<NoMemory> for LedgerFault {
    fn from(_: NoMemory) -> Self {
        LedgerFault::NoMemory
    }
}

// Runs the script in two ways, and prints the ledger of each run. They are the same (see `booked_month`).
fn ledgers<R: Threads + Wait + Sync + Print>(rt: &R, alloc: Global) -> Result<(), LedgerFault> {
    let Month { script, report } = booked_month(alloc)?;
    let history = run_middle_first(alloc, &script)?;
    println!(rt; "the letter in the middle first, on one thread")?;
    print_ledger(rt, alloc, &script, &history, report)?;
    let history = run_on_threads(rt, alloc, &script)?;
    println!(rt; "as the letters come, on four threads")?;
    print_ledger(rt, alloc, &script, &history, report)
}

fn main(rt: HostRuntime) -> ExitCode {
    match ledgers(&rt, rt.alloc()) {
        Ok(()) => ExitCode::SUCCESS,
        Err(fault) => {
            let _ = eprintln!(rt; "{fault}");
            ExitCode::FAILURE
        }
    }
}
