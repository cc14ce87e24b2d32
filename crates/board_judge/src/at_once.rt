// Whether an entry does at once what it is asked for.
ghost use Rattle.std.specs.Prelude.{if◌then◌else◌, ◌≡◌, ◌<◌, ◌+◌, ◌-◌, ◌^◌, length};
ghost use Rattle.std.specs.Bool.{Decides};
ghost use Rattle.std.specs.List.{list_any};
ghost use Rattle.script_parts.specs.ScriptData.{ops_of, reads};
ghost use Rattle.board_rules.specs.Histories.{does};
ghost use Rattle.board_rules.specs.Right.{commutes, is_parking, parking_for, parkings};
ghost use Rattle.board_judge.specs.inside.Asking.{IsAnsweredFor, asked_of, lock_in, parks_this, AreDoneAs};
ghost use Rattle.board_judge.specs.inside.Standing.{DecidesAtOnce, NamesInWay};

use crate::standing::{NodeView, updates};
use letter_types::{Act, Body, Cause};
use script_parts::kinds::is_read;
use tv_base::{ItemNo, SubNo, TreeNo};
use tx_trees::{Script, SubOp};

// A subtransaction that is asked for.
#[derive(Clone, Copy)]
pub(crate) struct Asked {
    // Its tree.
    pub(crate) tree: TreeNo,
    // Its number there.
    pub(crate) sub: SubNo,
}

// Whose lock is in the way, on which item.
#[derive(Clone, Copy)]
pub(crate) struct InWay {
    pub(crate) item: ItemNo,
    pub(crate) holder: TreeNo,
}

// Whether an entry with these acts, at this node, does at once what the letter of this body asks for, by the tallies of the
// acts before it. Takes time by its acts, and by the operations that `conflict` walks.
pub(crate) fn does_at_once(view: &NodeView, body: &Body, acts: &[Act]) -> bool
    ensures { DecidesAtOnce view.now body.now acts.now result }
{
    let Some(asked) = asked_of(body) else {
        return count_parkings(acts) == 0;
    };
    let way = in_way(view, asked);
    is_answered(view.script, asked, way, acts)
}

// The subtransaction that a letter of this body asks for.
fn asked_of(body: &Body) -> Option<Asked>
    ensures { result ≡ asked_of body.now }
{
    match body {
        Body::Root { tree } => Some(Asked {
            tree: *tree,
            sub: SubNo(0),
        }),
        Body::Sub {
            tree,
            sub,
            version: _,
        } => Some(Asked {
            tree: *tree,
            sub: *sub,
        }),
        Body::Wake { tree, sub } => Some(Asked {
            tree: *tree,
            sub: *sub,
        }),
        _ => None,
    }
}

// The operations of a subtransaction. None where it isn't there.
pub(crate) fn ops_of(script: &Script, tree: TreeNo, sub: SubNo) -> &[SubOp]
    ensures { result.now ≡ ops_of script.now tree.0 sub.0 }
{
    let Some(tree) = script.trees().get(tree.0 as usize) else {
        return &[];
    };
    match tree.subs.items().get(sub.0 as usize) {
        Some(sub) => sub.ops.items(),
        None => &[],
    }
}

// What is in the way of a subtransaction at a node.
fn in_way(view: &NodeView, asked: Asked) -> Option<Cause>
    ensures { NamesInWay view.now asked result }
{
    if !updates(view.script, asked.tree) {
        return None;
    }
    let ops = ops_of(view.script, asked.tree, asked.sub);
    view.conflict(asked.tree, ops)
}

// Whether these acts do the subtransaction if nothing is in its way, and else park it for that.
fn is_answered(script: &Script, asked: Asked, way: Option<Cause>, acts: &[Act]) -> bool
    ensures { Decides result (IsAnsweredFor script.now asked.tree asked.sub way acts.now) }
{
    if !is_done_as(script, asked, way.is_none(), acts) {
        return false;
    }
    is_parked_as(asked, way, acts)
}

// Whether these acts do a subtransaction of an update or a read tree just as is said.
fn is_done_as(script: &Script, asked: Asked, done: bool, acts: &[Act]) -> bool
    ensures { Decides result (AreDoneAs script.now asked.tree asked.sub done acts.now) }
{
    if !commutes(script, asked.tree) {
        return true;
    }
    any_does(acts, asked) == done
}

// Whether the tree is there, and is an update or a read tree.
fn commutes(script: &Script, tree: TreeNo) -> bool
    ensures { result ≡ commutes script.now tree.0 }
{
    if updates(script, tree) {
        return true;
    }
    reads(script, tree)
}

// Whether the tree of this number is there, and is a read tree.
pub(crate) fn reads(script: &Script, tree: TreeNo) -> bool
    ensures { result ≡ reads script.now tree.0 }
{
    match script.trees().get(tree.0 as usize) {
        Some(tree) => is_read(tree.kind),
        None => false,
    }
}

// Whether one of these acts is a Did of the subtransaction.
fn any_does(acts: &[Act], asked: Asked) -> bool
    ensures { result ≡ list_any (does asked.tree.0 asked.sub.0) acts.now }
{
    for act in acts {
        if does(act, asked) {
            return true;
        }
    }
    false
}

// Whether the act is a Did of the subtransaction.
fn does(act: &Act, asked: Asked) -> bool
    ensures { result ≡ does asked.tree.0 asked.sub.0 act.now }
{
    match act {
        Act::Did {
            tree,
            sub,
            values: _,
        } => tree.0 == asked.tree.0 && sub.0 == asked.sub.0,
        _ => false,
    }
}

// Whether these acts park the subtransaction for what is in its way, and nothing else.
fn is_parked_as(asked: Asked, way: Option<Cause>, acts: &[Act]) -> bool
    ensures { Decides result (parkings acts.now ≡ parking_for asked.tree asked.sub way) }
{
    let parkings = count_parkings(acts);
    let Some(lock) = lock_in(way) else {
        return parkings == 0;
    };
    if parkings != 1 {
        return false;
    }
    any_parks(acts, asked, lock)
}

// The lock that a cause names.
fn lock_in(way: Option<Cause>) -> Option<InWay>
    ensures { result ≡ lock_in way }
{
    match way {
        Some(Cause::Conflict { item, holder }) => Some(InWay { item, holder }),
        _ => None,
    }
}

// How many of these acts park.
fn count_parkings(acts: &[Act]) -> usize
    ensures { result ≡ length (parkings acts.now) }
{
    let mut count = 0;
    for act in acts {
        count = with_parking(count, act);
    }
    count
}

// One more, if the act parks.
fn with_parking(count: usize, act: &Act) -> usize
    requires { count < 2 ^ 64 - 1 }
    ensures { result ≡ count + (if is_parking act.now then 1 else 0) }
{
    if is_parking(act) { count + 1 } else { count }
}

// Whether the act parks.
fn is_parking(act: &Act) -> bool
    ensures { result ≡ is_parking act.now }
{
    match act {
        Act::Parked {
            tree: _,
            sub: _,
            item: _,
            holder: _,
        } => true,
        _ => false,
    }
}

// Whether one of these acts parks the subtransaction for this.
fn any_parks(acts: &[Act], asked: Asked, way: InWay) -> bool
    ensures { result ≡ list_any (parks_this asked.tree asked.sub way.item way.holder) acts.now }
{
    for act in acts {
        if parks(act, asked, way) {
            return true;
        }
    }
    false
}

// Whether the act parks the subtransaction for this.
fn parks(act: &Act, asked: Asked, way: InWay) -> bool
    ensures { result ≡ parks_this asked.tree asked.sub way.item way.holder act.now }
{
    match act {
        Act::Parked {
            tree,
            sub,
            item,
            holder,
        } => {
            tree.0 == asked.tree.0
                && sub.0 == asked.sub.0
                && item.0 == way.item.0
                && holder.0 == way.holder.0
        }
        _ => false,
    }
}
