// The judge: a history is taken entry by entry, and the first that breaks a rule is refused.
ghost use Rattle.std.specs.List.{list_all};
ghost use Rattle.std.specs.Prelude.{◌≡◌, [], List, unsigned_abs, IfErr, IfOk, IsNone, OnErr, OnOk};
ghost use Rattle.letter_types.specs.declared.entries.Entry.{Entry};
ghost use Rattle.board_rules.specs.Histories.{places_of};
ghost use Rattle.board_rules.specs.Right.{has_finished};
ghost use Rattle.board_judge.specs.Notes.{AreAllWorths};
ghost use Rattle.commute_ops.specs.Ops.{value_start};
ghost use Rattle.worth_steps.specs.Kept.{AreWorths};
ghost use Rattle.board_judge.specs.Judged.{HasJudged, IsRefusal, HasTakenEntry};
ghost use Rattle.board_judge.specs.declared.noting.NotedStep.{NotedStep};
ghost use Rattle.board_judge.specs.inside.Rewriting.{AreOfKinds, worths_before};
ghost use Rattle.board_judge.specs.inside.Steps.{board_before};
ghost use Rattle.board_judge.specs.inside.Trying.{refused_for, IsTriedFrom};

use crate::at_once::does_at_once;
use crate::noting::{NotedStep, Tallies, note_acts, restore};
use crate::rewriting::{ItemWorths, rewrite, take_back};
use crate::standing::NodeView;
use crate::users::Users;
use crate::votes::{Basis, Before};
use board_rules::Rule;
use board_tallies::{Board, Gates};
use commute_ops::{Kind, Value};
use letter_types::Entry;
use std::alloc::Global;
use std::marker::Model;
use tv_base::{NoMemory, Stamp};
use tx_trees::{ItemRow, Script};
use worth_steps::Worths;

/// An entry that breaks a rule.
#[derive(Clone, Copy, Debug, PartialEq, Eq)]
pub struct Wrong {
    /// The entry's stamp.
    pub stamp: Stamp,
    /// The first rule that it breaks: that of its first act that isn't a move of the Board, or if all are moves, the
    /// first of `Fits`, `Right` and `AtOnce`.
    pub rule: Rule,
}

/// Why an entry isn't taken. The judge is then as it was.
#[derive(Clone, Copy, Debug, PartialEq, Eq)]
pub enum Refused {
    /// It breaks a rule.
    Wrong(Wrong),
    /// Memory ran out. Nothing is said of the entry.
    NoMemory,
}

/// A judge of histories of a script. It takes a history entry by entry, and keeps none: of the entries so far it knows
/// the Board's tallies and the value of each item at each version. It knows nothing of counters, rounds and locks.
#[derive(Drop)]
pub struct Judge<'a> {
    pub(crate) basis: Basis<'a>,
    tallies: Tallies,
    pub(crate) kept: ItemWorths,
}

impl<'a> Model for Judge<'a> {
    ghost use Rattle.board_judge.specs.Judged.{JudgeData};

    ghost Value = { JudgeData };

    ghost view = { λ j. record {
      script = j.basis.script.now;
      gates = j.basis.gates;
      users = j.basis.users;
      board = j.tallies.board;
      worths = j.kept.worths.items;
    } };

    ghost use Rattle.board_judge.specs.inside.Rewriting.{AreOfKinds};

    ghost invariant = { λ j. AreOfKinds j.basis.script.now j.kept.worths.items };
}

impl<'a> Judge<'a> {
    /// A judge that has taken no entry yet. It asks this allocator for all its memory. Takes time and memory by the
    /// script.
    pub fn new(alloc: Global, script: &'a Script) -> Result<Judge<'a>, NoMemory>
        ensures script { IfOk result (λ j. j.script ≡ script.now) }
        ensures taken { IfOk result (λ j. HasJudged j []) }
    {
        // (read for its clause, that the script is valid)
        let _valid = script.nodes();
        let gates = Gates::new(alloc, script)?;
        let users = Users::new(alloc, script)?;
        let board = Board::new(alloc, script)?;
        let worths = first_worths(alloc, script)?;
        let basis = Basis {
            alloc,
            script,
            gates,
            users,
        };
        let tallies = Tallies {
            board,
            steps: Vec::new(alloc),
        };
        let kept = ItemWorths {
            worths,
            trail: Vec::new(alloc),
        };
        Ok(Judge {
            basis,
            tallies,
            kept,
        })
    }

    /// Takes an entry, if it may come after those that were taken. Else the entry is refused, by the first rule that it
    /// breaks, and the judge is as it was. Takes time by the entry's acts, with the operations and values of the
    /// transactions that they end, and for locks by the operations of the script on these items.
    pub fn take(&mut self, entry: &Entry) -> Result<(), Refused>
        ensures script { self.new.script ≡ self.old.script }
        ensures ok { OnOk result (HasTakenEntry self.old entry.now self.new) }
        ensures refused { IfErr result (λ refused. IsRefusal self.old entry.now refused) }
        ensures err { OnErr result (self.new ≡ self.old) }
    {
        // (what they still have is of an entry that was taken)
        self.tallies.steps.clear();
        self.kept.trail.clear();
        let tried = try_entry(&self.basis, &mut self.tallies, &mut self.kept, entry);
        let Some(refused) = refusal(entry.stamp, tried) else {
            self.tallies.board.settle();
            return Ok(());
        };
        restore(&mut self.tallies);
        take_back(&mut self.kept);
        Err(refused)
    }

    /// Whether the client has finished.
    pub fn is_finished(&self) -> bool
        ensures { (h : List Entry) → HasJudged self.now h → result ≡ has_finished (places_of h) }
    {
        self.tallies.board.is_finished()
    }
}

// Tries an entry: notes it on the tallies, by steps that can be taken back, and gives the first rule that it breaks.
fn try_entry(
    basis: &Basis,
    tallies: &mut Tallies,
    kept: &mut ItemWorths,
    entry: &Entry,
) -> Result<Option<Rule>, NoMemory>
    requires steps { tallies.old.steps.items ≡ [] }
    requires trail { kept.old.trail.items ≡ [] }
    requires kinds { AreOfKinds basis.now.script.now kept.old.worths.items }
    ensures tried { IfOk result (IsTriedFrom basis.now tallies.old kept.old entry.now tallies.new kept.new) }
    ensures board { board_before tallies.new ≡ tallies.old.board }
    ensures worths { worths_before kept.new ≡ kept.old.worths.items }
    ensures kinds { IfOk result (λ broken. IsNone broken → AreOfKinds basis.now.script.now kept.new.worths.items) }
{
    let view = NodeView {
        script: basis.script,
        users: &basis.users,
        board: &tallies.board,
        node: entry.actor,
    };
    let at_once = does_at_once(&view, &entry.took.body, entry.acts.items());
    let before = Before {
        basis,
        worths: &kept.worths,
    };
    let broken = note_acts(&before, tallies, entry)?;
    if broken.is_some() {
        return Ok(broken);
    }
    if !all_keep(&tallies.steps) {
        return Ok(Some(Rule::Fits));
    }
    if !all_right(&tallies.steps) {
        return Ok(Some(Rule::Right));
    }
    if !rewrite(basis.script, tallies, kept, entry.acts.items())? {
        return Ok(Some(Rule::Right));
    }
    if !at_once {
        return Ok(Some(Rule::AtOnce));
    }
    Ok(None)
}

// Whether all acts that were noted keep to the script.
fn all_keep(steps: &[NotedStep]) -> bool
    ensures { result ≡ list_all (λ (st : NotedStep). st.keeps) steps.now }
{
    steps.iter().all(|step| step.keeps)
}

// Whether all votes among them show what was worth.
fn all_right(steps: &[NotedStep]) -> bool
    ensures { result ≡ list_all (λ (st : NotedStep). st.right) steps.now }
{
    steps.iter().all(|step| step.right)
}

// Why an entry of this stamp isn't taken, by what trying it gave.
fn refusal(stamp: Stamp, tried: Result<Option<Rule>, NoMemory>) -> Option<Refused>
    ensures { result ≡ refused_for stamp tried }
{
    match tried {
        Ok(None) => None,
        Ok(Some(rule)) => Some(Refused::Wrong(Wrong { stamp, rule })),
        Err(NoMemory) => Some(Refused::NoMemory),
    }
}

// What each item is worth before all acts.
fn first_worths(alloc: Global, script: &Script) -> Result<Vec<Worths>, NoMemory>
    ensures worths { IfOk result (λ worths. AreAllWorths script.now [] worths.items) }
    ensures kinds { IfOk result (λ worths. AreOfKinds script.now worths.items) }
{
    let items = script.items();
    let mut worths = Vec::with_capacity(alloc, items.len())?;
    for item in items {
        worths.push(worths_of(alloc, item))?;
    }
    Ok(worths)
}

// What an item is worth before all acts.
fn worths_of(alloc: Global, item: &ItemRow) -> Worths
    requires { item.now.kind ≡ Kind.Bag → unsigned_abs item.now.initial ≡ 0 }
    ensures { AreWorths (value_start item.now.kind item.now.initial) [] result }
{
    let first = Value::start(alloc, item.kind, item.initial);
    Worths::new(alloc, &first)
}
