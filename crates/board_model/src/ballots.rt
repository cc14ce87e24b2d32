// How the subtransactions of trees vote in a history, and what is decided of them.
ghost use Rattle.std.specs.Prelude.{◌≡◌, [], IfOk, OnOk};
ghost use Rattle.std.specs.Option.{option_copied};
ghost use Rattle.board_rules.specs.Outcomes.{decision_by, decision_in, vote_by, vote_in};
ghost use Rattle.board_model.specs.Ballots.{ballots_of};
ghost use Rattle.board_model.specs.inside.Ballots.{ballots_after, ballots_with_act, no_ballots, with_act};
ghost use Rattle.board_model.specs.inside.Tallies.{on_row};

use letter_types::{Act, Vote};
use run_history::History;
use std::alloc::Global;
use std::marker::Model;
use tv_base::{NoMemory, SubNo, TreeNo};
use tx_trees::{Script, Tree};

/// The votes of one transaction and the decision on it, in the order of the history. Contracts see it as these acts.
#[derive(Drop)]
pub struct Ballot<'a> {
    acts: Vec<&'a Act>,
}

impl<'a> Model for Ballot<'a> {
    ghost use Rattle.std.specs.Prelude.{List, map};
    ghost use Rattle.letter_types.specs.declared.acts.Act.{Act};

    ghost Value = { List Act };

    ghost view = { λ b. map (λ a. a.now) b.acts.items };
}

impl<'a> Ballot<'a> {
    // No vote, and no decision.
    fn new(alloc: Global) -> Ballot<'a>
        ensures { result ≡ [] }
    {
        Ballot {
            acts: Vec::new(alloc),
        }
    }

    // An act more, which is after those that are there.
    fn add(&mut self, act: &'a Act) -> Result<(), NoMemory>
        ensures { OnOk result (self.new ≡ with_act act.now self.old) }
    {
        self.acts.push(act)?;
        Ok(())
    }

    /// The first vote of this subtransaction of the transaction. None if it hasn't voted.
    pub fn vote(&self, tree: TreeNo, sub: SubNo) -> Option<&'a Vote>
        ensures { option_copied result ≡ vote_in tree.0 sub.0 self.now }
    {
        for act in &self.acts {
            if let Some(vote) = vote_by(act, tree, sub) {
                return Some(vote);
            }
        }
        None
    }

    /// Whether it was decided that the transaction commits. None if nothing was decided.
    pub fn decision(&self, tree: TreeNo) -> Option<bool>
        ensures { result ≡ decision_in tree.0 self.now }
    {
        for act in &self.acts {
            if let Some(commit) = decision_by(act, tree) {
                return Some(commit);
            }
        }
        None
    }
}

// The vote that the act is of this subtransaction.
fn vote_by(act: &Act, tree: TreeNo, sub: SubNo) -> Option<&Vote>
    ensures { option_copied result ≡ vote_by tree.0 sub.0 act.now }
{
    match act {
        Act::Voted {
            tree: voting,
            sub: own,
            vote,
        } => {
            if *voting == tree && *own == sub {
                Some(vote.get())
            } else {
                None
            }
        }
        _ => None,
    }
}

// Whether the tree commits, where the act decides of it.
fn decision_by(act: &Act, tree: TreeNo) -> Option<bool>
    ensures { result ≡ decision_by tree.0 act.now }
{
    match act {
        Act::Decided {
            tree: decided,
            commit,
        } => {
            if *decided == tree {
                Some(*commit)
            } else {
                None
            }
        }
        _ => None,
    }
}

/// The votes of all transactions and the decisions on them. Contracts see it as a list by transaction number.
#[derive(Drop)]
pub struct Ballots<'a> {
    rows: Vec<Ballot<'a>>,
}

impl<'a> Model for Ballots<'a> {
    ghost use Rattle.std.specs.Prelude.{List};
    ghost use Rattle.letter_types.specs.declared.acts.Act.{Act};

    ghost Value = { List (List Act) };

    ghost view = { λ b. b.rows.items };
}

impl<'a> Ballots<'a> {
    /// Those of each transaction, by number.
    pub fn rows(&self) -> &[Ballot<'a>]
        ensures { result.now ≡ self.now }
    {
        self.rows.as_slice()
    }
}

/// The votes of all transactions of the script in the history, and the decisions on them.
///
/// It goes over all acts of the history once, and keeps a reference to each such one. Running out of memory is the only
/// error.
#[tactic(auto, using(crate::proofs::Voting::ballots_are))]
pub fn ballots_of<'a>(
    alloc: Global,
    script: &Script,
    history: &'a History,
) -> Result<Ballots<'a>, NoMemory>
    ensures { IfOk result (λ b. b ≡ ballots_of script.now history.now) }
{
    let mut rows = no_ballots(alloc, script.trees())?;
    add_acts(&mut rows, history.acts())?;
    Ok(Ballots { rows })
}

// An empty row for each tree.
fn no_ballots<'a>(alloc: Global, trees: &[Tree]) -> Result<Vec<Ballot<'a>>, NoMemory>
    ensures { IfOk result (λ rows. rows.items ≡ no_ballots trees.now) }
{
    let mut rows = Vec::new(alloc);
    for tree in trees {
        rows.push(Ballot::new(alloc))?;
    }
    Ok(rows)
}

// Adds these acts.
fn add_acts<'a>(rows: &mut Vec<Ballot<'a>>, acts: &'a [Act]) -> Result<(), NoMemory>
    ensures { OnOk result (rows.new.items ≡ ballots_after acts.now rows.old.items) }
{
    for act in acts {
        add_act(rows, act)?;
    }
    Ok(())
}

// Adds the act, if it is a vote or a decision.
fn add_act<'a>(rows: &mut Vec<Ballot<'a>>, act: &'a Act) -> Result<(), NoMemory>
    ensures { OnOk result (rows.new.items ≡ ballots_with_act act.now rows.old.items) }
{
    match act {
        Act::Voted {
            tree,
            sub: _,
            vote: _,
        } => add_on(rows, *tree, act),
        Act::Decided { tree, commit: _ } => add_on(rows, *tree, act),
        _ => Ok(()),
    }
}

// Adds the act to the row of the tree, if it is there.
#[tactic(auto, using(crate::proofs::Rows::on_rows))]
fn add_on<'a>(rows: &mut Vec<Ballot<'a>>, tree: TreeNo, act: &'a Act) -> Result<(), NoMemory>
    ensures { OnOk result (rows.new.items ≡ on_row tree.0 (with_act act.now) rows.old.items) }
{
    let place = tree.0 as usize;
    if place < rows.len() {
        rows[place].add(act)?;
    }
    Ok(())
}
