// The trees in the order in which they were closed, made while a history is gone over from its end.
ghost use Rattle.std.specs.Prelude.{◌≡◌, IfOk, OnOk};
ghost use Rattle.tx_trees.specs.ScriptData.{updates};
ghost use Rattle.board_model.specs.inside.Closed.{Closed, closed_after_act, none_closed, with_tree_closed};
ghost use Rattle.board_rules.specs.Histories.{is_strict_tree};

use letter_types::Act;
use std::alloc::Global;
use std::marker::Model;
use tv_base::{NoMemory, TreeNo};
use tx_trees::{Script, TreeKind};

// The trees that were closed, the last one first, with a mark for each.
#[derive(Drop)]
pub(crate) struct Closings {
    marks: Vec<bool>,
    order: Vec<TreeNo>,
}

impl Model for Closings {
    ghost use Rattle.board_model.specs.inside.Closed.{Closed};

    ghost Value = { Closed };

    ghost view = { λ c. record { marks = c.marks.items; order = c.order.items } };
}

impl Closings {
    // None of so many trees is closed.
    pub(crate) fn new(alloc: Global, count: usize) -> Result<Closings, NoMemory>
        ensures { IfOk result (λ c. c ≡ none_closed count) }
    {
        Ok(Closings {
            marks: vec![in alloc; false; count]?,
            order: Vec::new(alloc),
        })
    }

    // Notes an act, which is before those noted so far.
    pub(crate) fn note(&mut self, script: &Script, act: &Act) -> Result<(), NoMemory>
        ensures { OnOk result (self.new ≡ closed_after_act script.now act.now self.old) }
    {
        match act {
            Act::Did {
                tree,
                sub: _,
                values: _,
            } => {
                if updates(script, *tree) {
                    self.add(*tree)?;
                }
                Ok(())
            }
            Act::Decided { tree, commit } => {
                if is_strict_tree(script, *tree) && *commit {
                    self.add(*tree)?;
                }
                Ok(())
            }
            _ => Ok(()),
        }
    }

    // A tree that was closed, before those that are there.
    #[tactic(auto, using(crate::proofs::Rows::set_beyond))]
    fn add(&mut self, tree: TreeNo) -> Result<(), NoMemory>
        ensures { OnOk result (self.new ≡ with_tree_closed tree self.old) }
    {
        let place = tree.0 as usize;
        if place < self.marks.len() && self.marks[place] {
            return Ok(());
        }
        self.order.push(tree)?;
        if place < self.marks.len() {
            self.marks[place] = true;
        }
        Ok(())
    }

    // The trees, the last one first.
    pub(crate) fn order(&self) -> &[TreeNo]
        ensures { result.now ≡ self.now.order }
    {
        self.order.as_slice()
    }
}

// Whether the tree is there, and is an update tree.
fn updates(script: &Script, tree: TreeNo) -> bool
    ensures { result ≡ updates script.now tree.0 }
{
    match script.trees().get(tree.0 as usize) {
        Some(row) => matches!(row.kind, TreeKind::Update),
        None => false,
    }
}

// Whether the tree is there, and is a strict tree.
fn is_strict_tree(script: &Script, tree: TreeNo) -> bool
    ensures { result ≡ is_strict_tree script.now tree.0 }
{
    match script.trees().get(tree.0 as usize) {
        Some(row) => matches!(row.kind, TreeKind::Strict),
        None => false,
    }
}
