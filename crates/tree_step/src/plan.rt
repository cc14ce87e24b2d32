// What a step is to do: a plan, and a scratch with all that takes memory.
ghost use Rattle.std.specs.Prelude.{◌≡◌, None};
ghost use Rattle.tree_step.specs.Meant.{IsEmpty, no_plan, out_in};

use crate::counting::Counting;
use commute_ops::Values;
use item_versions::Staged;
use letter_types::{Acts, Letter, Letters, StepOut};
use nc_locks::WantedLocks;
use std::alloc::Global;
use std::mem;
use tree_home::Answered;
use tv_base::{NodeNo, Seq, SubNo, TreeNo, Version};
use world_model::NegativeVote;

/// Nodes that a tree visits.
pub type Visited = Seq<NodeNo, 64>;

/// What the home of a tree does. The values of a notice are in the scratch.
#[derive(Clone, Copy)]
pub enum HomePlan {
    /// The open trees stay.
    Stay,
    /// A tree of `subs` subtransactions, from 2 to 64, is opened, and its root's notice noted.
    Open { subs: u32, version: Version },
    /// A notice that is missing is noted, while another is missing too.
    Note,
    /// The tree is answered, and goes.
    Forget,
}

/// What a node does for a subtransaction, or for a notice of one. What is staged is in the scratch.
#[derive(Clone, Copy)]
pub struct TreePlan {
    pub tree: TreeNo,
    pub sub: SubNo,
    /// Whether the update version is raised to the version that is counted in.
    pub raises: bool,
    pub counting: Counting,
    pub home: HomePlan,
}

/// What a node's parts do.
#[derive(Clone, Copy)]
pub enum Doing {
    /// Nothing.
    Still,
    /// A subtransaction is done, or a notice is brought.
    Tree(TreePlan),
    /// The update version is raised to this one, if it is less.
    Turn(Version),
    /// A version is shown to reads.
    Show(Version),
    /// Every item is collected to a version, which is the low version then.
    Sweep(Version),
}

/// What becomes of locks, or of the negative votes.
#[derive(Clone, Copy)]
pub enum VotePlan {
    /// All stay.
    Stay,
    /// A tree takes the locks that the scratch wants.
    Take(TreeNo),
    /// The locks of a tree go.
    Free(TreeNo),
    /// A tree has the negative vote in the scratch, in place of the one before; if none is there, all stay.
    Note(TreeNo),
    /// A tree has no negative vote any more.
    Drop(TreeNo),
}

/// What becomes of the answers that are held.
#[derive(Clone, Copy)]
pub enum HoldPlan {
    /// All stay.
    Stay,
    /// The answer of a tree, of the values in the scratch, is held until each node that the scratch tells has
    /// acknowledged the decision. A request of this version to each is counted.
    Hold { tree: TreeNo, version: Version },
    /// An acknowledgement of a tree whose answer is held is counted.
    Ack(TreeNo),
}

/// What a node is to do.
#[derive(Clone, Copy)]
pub struct Plan {
    pub doing: Doing,
    pub votes: VotePlan,
    pub holds: HoldPlan,
    /// The epoch of which it hears, if it hears of one.
    pub epoch: Option<u64>,
}

/// A plan by which all stays.
fn no_plan() -> Plan
    ensures { result ≡ no_plan }
{
    Plan {
        doing: Doing::Still,
        votes: VotePlan::Stay,
        holds: HoldPlan::Stay,
        epoch: None,
    }
}

/// What a step plans and makes, with all that takes memory. Its places are used again by the next step.
#[derive(Drop)]
pub struct Scratch {
    pub plan: Plan,
    /// The answer of the tree whose message it is, if its home misses no notice any more.
    pub answered: Option<Answered>,
    pub staged: Staged,
    /// The values of a notice.
    pub values: Values,
    /// The values of an answer that is to be held.
    pub held: Values,
    /// The nodes that are told the decision.
    pub told: Visited,
    /// The locks that a tree takes.
    pub wanted: WantedLocks,
    pub refusal: Option<NegativeVote>,
    /// The message that came, if it is deferred.
    pub letter: Option<Letter>,
    pub sent: Letters,
    pub acts: Acts,
}

/// A scratch with nothing in it.
pub fn new_scratch(alloc: Global) -> Scratch
    ensures { IsEmpty result }
{
    Scratch {
        plan: no_plan(),
        answered: None,
        staged: Staged::new(alloc),
        values: Values::new(alloc),
        held: Values::new(alloc),
        told: Visited::new(alloc),
        wanted: WantedLocks::new(alloc),
        refusal: None,
        letter: None,
        sent: Letters::new(alloc),
        acts: Acts::new(alloc),
    }
}

/// Takes what goes out from a scratch, in which nothing is left. The room of the rest stays.
pub fn take_out(alloc: Global, scratch: &mut Scratch) -> StepOut
    ensures out { result ≡ out_in scratch.old }
    ensures empty { IsEmpty scratch.new }
{
    let sent = mem::replace(&mut scratch.sent, Letters::new(alloc));
    let acts = mem::replace(&mut scratch.acts, Acts::new(alloc));
    wipe(scratch);
    StepOut { sent, acts }
}

/// Leaves nothing in a scratch. The room stays. It needs no memory.
pub fn wipe(scratch: &mut Scratch)
    ensures { IsEmpty scratch.new }
{
    scratch.plan = no_plan();
    forget(&mut scratch.answered);
    scratch.staged.clear();
    scratch.values.clear();
    scratch.held.clear();
    scratch.told.clear();
    scratch.wanted.clear();
    scratch.refusal = None;
    forget(&mut scratch.letter);
    scratch.sent.clear();
    scratch.acts.clear();
}

/// Leaves nothing in a place, in which there seldom is something.
#[inline(always)]
fn forget<T: Drop>(place: &mut Option<T>)
    ensures { place.new ≡ None }
{
    if let Some(_) = place {
        let_go(place);
    }
}

/// Leaves nothing in a place.
#[inline(never)]
fn let_go<T: Drop>(place: &mut Option<T>)
    ensures { place.new ≡ None }
{
    *place = None;
}
