// Texts of the program's own: the lines on standard error, the help and the version.
ghost use Rattle.std.specs.Prelude.{◌≡◌, IfOk, string_bytes};
ghost use Rattle.history_audit.specs.Names.{audit_rule_name};
ghost use Rattle.threev_top.specs.Texts.{entry_fault_line, row_line};
ghost use Rattle.tx_trees.specs.Why.{why_name};

use history_audit::HistoryFault;
use script_reader::ScriptFault;
use std::alloc::{AllocError, Global};

/// What `--help` writes.
pub(crate) const HELP: &[u8] =
    b"threev: runs a script of transactions on several nodes and reports the balances

usage: threev --mode MODE [--seed N] [--workers N] [--history] < script
       threev --mode audit < FILE (a script, a line `history`, and a history's lines)
       threev --mode soak --seed N --trees N [--workers N]
       threev --help
       threev --version

modes:
  check    reads the script and counts its nodes, items, transactions, subtransactions and advancements
  sim      runs the script on one thread and writes the report
  run      runs the script on threads and writes the report
  soak     makes a script from a seed, runs it on threads and sums it up; reads nothing
  upgrade  reads the script and writes it in the second form
  audit    reads the script and a history, and names the first entry that breaks a rule, if one does

options:
  --seed N     with sim, 0 to 2^64 - 1: behind the picks, N decides which message is taken
               next; without it the oldest is. With soak: the seed of the script
  --trees N    with soak, 1 to 20000: how many transactions the script has
  --workers N  with run and soak, 1 to 32: how many threads work at once; 4 if not given
  --history    with sim and run: the lines of the history follow the report

statuses:
  0  the text was written
  1  out of memory
  2  the arguments were refused
  3  the script was refused
  4  reading failed
  5  writing failed
  6  the audited history fails

rows of a script, comma separated (a transaction and its subtransactions form a tree):
  threev,2                       the script is of the second form; the first row
  nodes,N                        the number of nodes, 1 to 16, or 64 in the second form; the first row, or the next
  item,NAME,NODE,KIND,INITIAL    an item of kind sum, top or bag
  update,NAME,NODE               begins an update with its root at NODE
  read,NAME,NODE                 begins a read with its root at NODE
  strict,NAME,NODE               begins a strict transaction with its root at NODE
  sub,PARENT,NODE                the next subtransaction, asked for by subtransaction PARENT (0 is the root)
  add,ITEM,AMOUNT                adds an amount to a sum
  top,ITEM,AMOUNT                raises a top to at least an amount
  put,ITEM,AMOUNT                puts a number into a bag
  set,ITEM,AMOUNT                in a strict transaction: sets a sum or a top to an amount
  draw,ITEM,AMOUNT               in a strict transaction: lowers a sum by an amount, if at least 0 is left
  get,ITEM                       reads an item
  advance                        asks for one advancement of the versions
  settle                         waits until all transactions above are answered and all advancements have ended
  fail,SUB                       of the second form: subtransaction SUB fails, and the transaction is compensated
  pick,K                         the next message taken is number K of those in flight, from 0, modulo their number
  lose                           of the second form: makes the coordinator forget all but its epoch
";

/// What `--version` writes.
pub(crate) const VERSION: &[u8] = b"threev 1.0.0\n";

/// The line of a refused script, from plain parts.
fn line_of(alloc: Global, row: u32, name: &str) -> Result<String, AllocError>
    ensures { IfOk result (λ line. string_bytes line ≡ row_line row name.now) }
{
    format!(in alloc; "threev: row {row}: {name}\n")
}

/// The line of a refused script.
pub(crate) fn fault_line(alloc: Global, fault: ScriptFault) -> Result<String, AllocError>
    ensures { IfOk result (λ line. string_bytes line ≡ row_line fault.row (why_name fault.why)) }
{
    line_of(alloc, fault.row, fault.why.name())
}

/// The line of an entry, from plain parts.
fn line_of_entry(alloc: Global, entry: u64, name: &str) -> Result<String, AllocError>
    ensures { IfOk result (λ line. string_bytes line ≡ entry_fault_line entry name.now) }
{
    format!(in alloc; "threev: entry {entry}: {name}\n")
}

/// The line of a history that fails.
pub(crate) fn entry_line(alloc: Global, fault: HistoryFault) -> Result<String, AllocError>
    ensures { IfOk result (λ line. string_bytes line ≡ entry_fault_line fault.entry (audit_rule_name fault.rule)) }
{
    line_of_entry(alloc, fault.entry, fault.rule.name())
}
