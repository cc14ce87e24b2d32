// The Board's tallies: how they begin, go on and are taken back.
ghost use Rattle.std.specs.Prelude.{◌≡◌, true, false, [], List, IfOk, OnErr, OnOk};
ghost use Rattle.script_parts.specs.ScriptData.{ScriptData};
ghost use Rattle.board_rules.specs.Histories.{Place, act_at};

use crate::gates::{Gates, RowGate};
use crate::keeping::{all_gone, all_swept, is_client};
use crate::moves::{NodeNow, TreeNow, may_by_node, may_by_tree, tree_of};
use crate::noting::{ToldWas, closed_by, finished_by, note_tree, passed_on, take_back};
use crate::numbers::{Numbers, first_numbers, note_numbers, numbers_at, put_numbers};
use crate::pending::{Pending, drop_zeros};
use crate::states::{TreeState, first_state, news_by};
use letter_types::Act;
use std::alloc::Global;
use std::marker::Model;
use tv_base::{ActorNo, NoMemory, TreeNo};
use tx_trees::{Script, Tree};

/// The Board after some acts, in tallies: each node's version numbers; what the acts say of each transaction; how many
/// begun transactions aren't complete; how many are complete from the first one on; and whether the client has
/// finished. Contracts see it as plain data; `IsBoardOf` says that these are the tallies of acts.
#[derive(Drop)]
pub struct Board {
    pub(crate) nodes: Vec<Numbers>,
    pub(crate) trees: Vec<TreeState>,
    pub(crate) pending: Vec<Pending>,
    pub(crate) passed: usize,
    pub(crate) finished: bool,
}

impl Model for Board {
    ghost use Rattle.board_tallies.specs.Board.{BoardData};

    ghost Value = { BoardData };

    ghost view = { λ b. record {
      nodes = b.nodes.items;
      trees = b.trees.items;
      pending = b.pending.items;
      passed = b.passed;
      finished = b.finished;
    } };
}

/// What an act changed, by which it is taken back.
#[derive(Clone, Copy)]
pub struct NotedAct {
    /// The transaction that became a member of the serial order by the act: an update that it completes, or a strict
    /// transaction that it decides to commit.
    pub closed: Option<TreeNo>,
    node: ActorNo,
    numbers: Numbers,
    told: ToldWas,
    passed: usize,
    finished: bool,
}

impl Board {
    ghost use Rattle.board_tallies.specs.Board.{ClosesBy, IsBoardOf, IsBoardWith, IsMoveBy, IsNoMoveBy, KeepsBy, StraysBy};
    ghost use Rattle.board_tallies.specs.TakenBack.{taken_back};
    ghost use Rattle.board_tallies.specs.inside.Keeping.{is_open_gate, keeps_by, may_finish};
    ghost use Rattle.board_tallies.specs.inside.May.{may_come};
    ghost use Rattle.board_tallies.specs.inside.Noting.{IsNoted, closed_by, first_board};
    ghost use Rattle.board_tallies.specs.inside.Pending.{settled};

    /// The Board of a script before all acts.
    pub fn new(alloc: Global, script: &Script) -> Result<Board, NoMemory>
        ensures { IfOk result (λ board. IsBoardOf script.now [] board) }
    {
        let nodes = script.nodes() as usize;
        let board = Board::first(alloc, nodes, script.trees().len())?;
        Ok(board)
    }

    // So many nodes and trees before all acts.
    fn first(alloc: Global, nodes: usize, trees: usize) -> Result<Board, NoMemory>
        ensures { IfOk result (λ board. board ≡ first_board nodes trees) }
    {
        let nodes = vec![in alloc; first_numbers(); nodes]?;
        let trees = vec![in alloc; first_state(); trees]?;
        Ok(Board {
            nodes,
            trees,
            pending: Vec::new(alloc),
            passed: 0,
            finished: false,
        })
    }

    /// Whether an act of this actor is a move of the Board after the acts so far, except for the cause of a vote. Takes
    /// time by the nodes or by a transaction's subtransactions.
    pub fn moves(&self, script: &Script, node: ActorNo, act: &Act) -> bool
        ensures yes { result ≡ true → IsMoveBy script.now self.now (act_at node.0 act.now) }
        ensures no { result ≡ false → IsNoMoveBy script.now self.now (act_at node.0 act.now) }
    {
        let trees = script.trees();
        self.may_come(trees, node, act)
    }

    // Whether an act of this actor may come.
    fn may_come(&self, trees: &[Tree], node: ActorNo, act: &Act) -> bool
        ensures { result ≡ may_come trees.now self.now node.0 act.now }
    {
        let Some(tree) = tree_of(act) else {
            return may_by_node(&self.nodes, &self.pending, node, act);
        };
        let place = tree.0 as usize;
        let Some(row) = trees.get(place) else {
            return false;
        };
        let Some(state) = self.trees.get(place) else {
            return false;
        };
        let numbers = numbers_at(&self.nodes, node);
        may_by_tree(TreeNow { row, state }, NodeNow { node, numbers }, act)
    }

    /// Whether an act of this actor keeps to the script, whose gates these are, after the acts so far: a transaction is
    /// begun, and a node's update version is raised, only if the gate of the row is open, and the client finishes once,
    /// at the end. Takes time by the nodes.
    pub fn keeps(&self, script: &Script, gates: &Gates, node: ActorNo, act: &Act) -> bool
        ensures yes { result ≡ true → KeepsBy script.now gates.now self.now (act_at node.0 act.now) }
        ensures no { result ≡ false → StraysBy script.now gates.now self.now (act_at node.0 act.now) }
    {
        let count = script.nodes();
        let asked = script.advances();
        self.keeps_by(gates, count, asked, node, act)
    }

    // Whether an act of this actor keeps to a script of so many nodes and advancements.
    fn keeps_by(&self, gates: &Gates, count: u8, asked: u32, node: ActorNo, act: &Act) -> bool
        ensures { result ≡ keeps_by gates.now self.now count asked node.0 act.now }
    {
        match act {
            Act::Born { tree, version: _ } => self.is_open(gates.of_tree(*tree)),
            Act::Turned { version } => self.is_open(gates.of_turn(*version)),
            Act::Finished => self.may_finish(count, asked, node),
            _ => true,
        }
    }

    // Whether a gate is there, and is open.
    fn is_open(&self, gate: Option<RowGate>) -> bool
        ensures { result ≡ is_open_gate gate self.now }
    {
        match gate {
            Some(gate) => gate.trees <= self.passed && all_swept(&self.nodes, gate.advances),
            None => false,
        }
    }

    // Whether the client of so many nodes may finish.
    fn may_finish(&self, count: u8, asked: u32, node: ActorNo) -> bool
        ensures { result ≡ may_finish count asked self.now node.0 }
    {
        is_client(count, node)
            && !self.finished
            && self.passed == self.trees.len()
            && all_gone(&self.nodes, asked)
    }

    /// Notes an act of this actor, which has to be a move except for the cause of a vote, and gives that by which it is
    /// taken back. `NoMemory` leaves the Board as it was; it also comes if a count is at its type's greatest number.
    pub fn note(&mut self, script: &Script, node: ActorNo, act: &Act) -> Result<NotedAct, NoMemory>
        ensures noted { OnOk result (IsBoardWith script.now (act_at node.0 act.now) self.old self.new) }
        ensures closed { IfOk result (λ n. ClosesBy script.now self.old (act_at node.0 act.now) n.closed) }
        ensures back { IfOk result (λ n. taken_back n self.new ≡ self.old) }
        ensures err { OnErr result (self.new ≡ self.old) }
    {
        let trees = script.trees();
        let noted = self.note_act(trees, node, act)?;
        Ok(noted)
    }

    // Notes an act on each of the tallies.
    fn note_act(&mut self, trees: &[Tree], node: ActorNo, act: &Act) -> Result<NotedAct, NoMemory>
        ensures noted { OnOk result (IsNoted trees.now node.0 act.now self.old self.new) }
        ensures closed { IfOk result (λ n. n.closed ≡ closed_by trees.now self.new.trees act.now) }
        ensures back { IfOk result (λ n. taken_back n self.new ≡ self.old) }
        ensures err { OnErr result (self.new ≡ self.old) }
    {
        let news = news_by(node, act);
        let told = note_tree(&mut self.trees, &mut self.pending, trees, news)?;
        let numbers = note_numbers(&mut self.nodes, node, act);
        let passed = self.passed;
        let finished = self.finished;
        self.passed = passed_on(trees, &self.trees, passed);
        self.finished = finished_by(finished, act);
        let closed = closed_by(trees, &self.trees, act);
        Ok(NotedAct {
            closed,
            node,
            numbers,
            told,
            passed,
            finished,
        })
    }

    /// Takes back an act that was noted, if all that were noted after it have been taken back. Then the Board is what
    /// it was before.
    pub fn undo(&mut self, noted: NotedAct)
        ensures { self.new ≡ taken_back noted self.old }
    {
        put_numbers(&mut self.nodes, noted.node, noted.numbers);
        take_back(&mut self.trees, &mut self.pending, noted.told);
        self.passed = noted.passed;
        self.finished = noted.finished;
    }

    /// Drops the counts of versions in which every transaction is complete, so that there are few. An act that was
    /// noted before can't be taken back any more, so it is called between entries.
    pub fn settle(&mut self)
        ensures { (s : ScriptData) (xs : List Place) → IsBoardOf s xs self.old → IsBoardOf s xs self.new }
    {
        self.drop_zeros();
    }

    // Drops the counts that are 0.
    fn drop_zeros(&mut self)
        ensures { self.new ≡ settled self.old }
    {
        drop_zeros(&mut self.pending);
    }
}
