// What a read tree got.
ghost use Rattle.std.specs.Prelude.{◌≡◌, ◌&&◌, Contains, IfSome, is_some};
ghost use Rattle.std.specs.List.{list_any};
ghost use Rattle.board_rules.specs.Histories.{does, places_of, version_of, was_done};
ghost use Rattle.board_rules.specs.Right.{IsShown};
ghost use Rattle.board_rules.specs.Worth.{worth};
ghost use Rattle.headline.specs.Headline.{HasHeadline};
ghost use Rattle.letter_types.specs.declared.acts.Act.TheVariants.{Did};
ghost use Rattle.tx_trees.specs.ScriptData.{ops_of, reads};

use commute_ops::Values;
use letter_types::Act;
use run_history::History;
use tv_base::{SubNo, TreeNo};
use tx_trees::{Script, TreeKind};

// Whether there is a read tree of this number.
fn is_read(script: &Script, tree: TreeNo) -> bool
    ensures { result ≡ reads script.now tree.0 }
{
    match script.trees().get(tree.0 as usize) {
        Some(tree) => matches!(tree.kind, TreeKind::Read),
        None => false,
    }
}

// The values that a subtransaction got by this act.
fn got_by(act: &Act, tree: TreeNo, sub: SubNo) -> Option<&Values>
    ensures values { IfSome result (λ values. act.now ≡ Did tree sub values.now) }
    ensures some { is_some result ≡ does tree.0 sub.0 act.now }
{
    match act {
        Act::Did {
            tree: t,
            sub: k,
            values,
        } => {
            if *t == tree && *k == sub {
                Some(values)
            } else {
                None
            }
        }
        _ => None,
    }
}

// The values that a subtransaction got in one of these acts.
fn got_in(acts: &[Act], tree: TreeNo, sub: SubNo) -> Option<&Values>
    ensures values { IfSome result (λ values. Contains acts.now (Did tree sub values.now)) }
    ensures some { is_some result ≡ list_any (does tree.0 sub.0) acts.now }
{
    for act in acts {
        if let Some(values) = got_by(act, tree, sub) {
            return Some(values);
        }
    }
    None
}

/// The values that a subtransaction of a read got while the script ran. They are right, because the history has the
/// headline: each is its item's value at the read's version in the serial order of the whole history, however early it
/// was read.
///
/// None if there is no such read, or if its subtransaction isn't in the history.
pub(crate) fn reported<'a>(
    script: &Script,
    history: &'a History,
    tree: TreeNo,
    sub: SubNo,
) -> Option<&'a Values>
    requires { HasHeadline script.now history.now }
    ensures values { IfSome result (λ values. IsShown (worth script.now history.now) (ops_of script.now tree.0 sub.0)
        values.now (version_of history.now tree.0)) }
    ensures some { is_some result ≡ (reads script.now tree.0 && was_done tree.0 sub.0 (places_of history.now)) }
{
    if !is_read(script, tree) {
        return None;
    }
    got_in(history.acts(), tree, sub)
}
