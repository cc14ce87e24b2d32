// The parts of a script.
use commute_ops::{Amount, Kind, Op};
use tv_base::{ItemNo, Name, NodeNo, Seq, SubNo, TreeNo};

/// The form of a script, which sets its limits.
#[derive(Clone, Copy, Debug, PartialEq, Eq)]
pub enum Form {
    /// The first form: 1 to 16 nodes, and magnitudes of at most 10^15.
    One,
    /// The second form: 1 to 64 nodes, magnitudes of at most 10^30, and rows that the first form doesn't have.
    Two,
}

/// The kind of a tree.
#[derive(Clone, Copy, Debug, PartialEq, Eq)]
pub enum TreeKind {
    /// Its operations commute with those of every other update tree.
    Update,
    /// It only reads.
    Read,
    /// It reads and writes, and doesn't commute.
    Strict,
}

/// What an operation does to its item.
#[derive(Clone, Copy, Debug, PartialEq, Eq)]
pub enum Deed {
    /// A commuting operation of an update tree.
    Apply(Op),
    /// Reads the value.
    Get,
    /// Sets the value.
    Set(Amount),
    /// Lowers the value, if it is at least the amount.
    Draw(Amount),
}

/// An operation of a subtransaction.
#[derive(Clone, Copy, Debug)]
pub struct SubOp {
    /// The item, which is at the subtransaction's node.
    pub item: ItemNo,
    /// What is done.
    pub deed: Deed,
}

/// Operations in order.
pub type SubOps = Seq<SubOp, 0xffff_ffff>;

/// A subtransaction: what a tree does at one node.
#[derive(Drop)]
pub struct Sub {
    /// The subtransaction that sends it. The root's is 0.
    pub parent: SubNo,
    /// Where it runs.
    pub node: NodeNo,
    /// What it does there, in order.
    pub ops: SubOps,
}

/// Subtransactions by number.
pub type Subs = Seq<Sub, 0xffff_ffff>;

/// A tree as it was written, before one of its subtransactions failed.
#[derive(Drop)]
pub struct Written {
    /// The subtransaction that fails.
    pub failed: SubNo,
    /// The subtransactions that the tree was written with.
    pub subs: Subs,
}

/// A transaction: a tree of subtransactions. The root is subtransaction 0, and its node is the tree's home.
#[derive(Drop)]
pub struct Tree {
    /// The name, which no other tree has.
    pub name: Name,
    /// What it may do.
    pub kind: TreeKind,
    /// Its subtransactions. If the tree fails, they are the compensated form of those that it was written with.
    pub subs: Subs,
    /// How it was written, if it fails.
    pub written: Option<Written>,
}

/// An item, which lies at one node.
#[derive(Clone, Copy, Debug)]
pub struct ItemRow {
    /// The name, which no other item has.
    pub name: Name,
    /// Where it lies.
    pub node: NodeNo,
    /// Which operations it takes.
    pub kind: Kind,
    /// The value at the start. A bag starts empty, and has 0 here.
    pub initial: Amount,
}

/// What the client does next.
#[derive(Clone, Copy, Debug)]
pub enum ScriptRow {
    /// Sends the root of this tree to its home.
    Tree(TreeNo),
    /// Asks for one advancement.
    Advance,
    /// Waits until all before it has ended.
    Settle,
    /// Makes the coordinator forget its state, all but its epoch. Only a script of the second form has it.
    Lose,
}
