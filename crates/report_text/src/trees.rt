// The lines of trees and of nodes.
ghost use Rattle.std.specs.Prelude.{◌≡◌, ◌++◌, ◌<◌, ◌^◌, OnErr, OnOk, length};
ghost use Rattle.std.specs.Io.{StartsWith};
ghost use Rattle.std.specs.Str.{IsAscii};
ghost use Rattle.report_text.specs.inside.Lines.{lines_of_told};
ghost use Rattle.tx_trees.specs.AsciiNames.{AreAsciiTrees};
ghost use Rattle.report_text.specs.Report.{node_line, nodes_text, read_line, undone_mark, update_line};
ghost use Rattle.report_text.specs.inside.Voters.{line_of_told};

use crate::outcomes::{Voters, push_strict};
use crate::parts::push_version;
use board_model::{Ballot, Standing};
use commute_ops::push_number;
use tv_base::{Name, NoMemory, Text, TreeNo, Version};
use tx_trees::{Script, Tree, TreeKind, Written};

// What is told of trees, by tree number: their standings, the values of read trees, and the votes.
#[derive(Clone, Copy)]
pub(crate) struct TreesTold<'a> {
    pub(crate) standings: &'a [Standing],
    pub(crate) reads: &'a [Text],
    pub(crate) ballots: &'a [Ballot<'a>],
}

// The version of a tree, if it is born, and its values, if it is a read tree.
#[derive(Clone, Copy)]
struct TreeTold<'a> {
    born: Option<Version>,
    values: &'a Text,
}

// The lines of the trees, of which this is told.
pub(crate) fn push_trees(
    text: &mut Text,
    script: &Script,
    trees: &[Tree],
    told: TreesTold,
) -> Result<(), NoMemory>
    requires names { AreAsciiTrees trees.now }
    requires few { length trees.now < 2 ^ 32 }
    requires standings { length told.standings.now ≡ length trees.now }
    requires reads { length told.reads.now ≡ length trees.now }
    requires ballots { length told.ballots.now ≡ length trees.now }
    ensures { OnOk result (text.new ≡ text.old ++ lines_of_told script.now trees.now told.entry) }
{
    for (t, tree) in trees.iter().enumerate() {
        let voters = Voters {
            number: TreeNo(t as u32),
            tree,
            ballot: &told.ballots[t],
        };
        let one = TreeTold {
            born: told.standings[t].born,
            values: &told.reads[t],
        };
        push_tree(text, script, voters, one)?;
    }
    Ok(())
}

// The line of a tree, which has one if it is born.
fn push_tree(
    text: &mut Text,
    script: &Script,
    voters: Voters,
    told: TreeTold,
) -> Result<(), NoMemory>
    requires { IsAscii voters.tree.now.name }
    ensures { OnOk result (text.new ≡ text.old ++ line_of_told script.now voters.entry told.entry) }
{
    let tree = voters.tree;
    match (tree.kind, told.born) {
        (TreeKind::Update, Some(version)) => push_update(text, tree, version),
        (TreeKind::Read, Some(version)) => push_read(text, &tree.name, version, told.values),
        (TreeKind::Strict, Some(version)) => push_strict(text, script, voters, version),
        _ => Ok(()),
    }
}

// The line of an update tree of this version.
pub(crate) fn push_update(text: &mut Text, tree: &Tree, version: Version) -> Result<(), NoMemory>
    requires { IsAscii tree.now.name }
    ensures ok { OnOk result (text.new ≡ text.old ++ update_line tree.now.name version.0 tree.now.written) }
    ensures err { OnErr result (StartsWith text.new text.old) }
{
    push_version(text, b"tree ", &tree.name, version)?;
    push_mark(text, &tree.written)?;
    text.push_all(b"\n")
}

// The mark of a tree that is undone.
fn push_mark(text: &mut Text, written: &Option<Written>) -> Result<(), NoMemory>
    ensures ok { OnOk result (text.new ≡ text.old ++ undone_mark written.now) }
    ensures err { OnErr result (StartsWith text.new text.old) }
{
    match written {
        Some(_) => text.push_all(b" undone"),
        None => Ok(()),
    }
}

// The line of a read tree of this version, with the text of its values.
fn push_read(text: &mut Text, name: &Name, version: Version, values: &Text) -> Result<(), NoMemory>
    requires { IsAscii name.now }
    ensures { OnOk result (text.new ≡ text.old ++ read_line name.now version.0 values.now) }
{
    push_version(text, b"read ", name, version)?;
    text.push_all(values.bytes())?;
    text.push_all(b"\n")
}

// The lines of `nodes` nodes after `advances` advancements.
pub(crate) fn push_nodes(text: &mut Text, advances: u32, nodes: u8) -> Result<(), NoMemory>
    ensures { OnOk result (text.new ≡ text.old ++ nodes_text advances nodes) }
{
    for node in 0..nodes {
        push_node(text, advances, node)?;
    }
    Ok(())
}

// The line of a node: the version of its updates, and the version that reads are shown.
fn push_node(text: &mut Text, advances: u32, node: u8) -> Result<(), NoMemory>
    ensures { OnOk result (text.new ≡ text.old ++ node_line advances node) }
{
    let shown = advances as u64;
    text.push_all(b"node ")?;
    push_number(text, node as u64)?;
    text.push_all(b" update ")?;
    push_number(text, shown + 1)?;
    text.push_all(b" read ")?;
    push_number(text, shown)?;
    text.push_all(b"\n")
}
