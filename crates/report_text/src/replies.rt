// The lines of trees by their replies.
ghost use Rattle.std.specs.Prelude.{◌≡◌, ◌<◌, ◌≤◌, ℕ, if◌then◌else◌, ◌==◌, [], ◌++◌, drop, length, take, OnErr, OnOk, Some, None};
ghost use Rattle.std.specs.Option.{option_or};
ghost use Rattle.std.specs.Io.{StartsWith};
ghost use Rattle.std.specs.Str.{IsAscii};
ghost use Rattle.tx_trees.specs.AsciiNames.{AreAsciiTrees};
ghost use Rattle.history_text.specs.TreeNames.{got_text};
ghost use Rattle.report_text.specs.Replies.{AreRepliesOf, answer_values, line_by, line_if_any, outcome_by, reply_place, place_listed, reply_by, reply_lines, reply_or_next};
ghost use Rattle.report_text.specs.Report.{read_line};
ghost use Rattle.report_text.specs.Outcomes.{strict_line};

use crate::outcomes::push_why;
use crate::parts::push_version;
use crate::trees::push_update;
use history_text::push_got;
use letter_types::{Answer, Body, Letter};
use run_history::History;
use std::alloc::Global;
use tv_base::{Name, NoMemory, Seq, Text, Version};
use tx_trees::{Script, Tree, TreeKind};

// By tree number, the place of the first entry that took the tree's reply.
type ReplyPlaces = Seq<Option<usize>, 0xffff_ffff>;

/// Which entries of a history took the replies of trees, as far as it was looked at. So the lines of trees that were
/// answered are put without walking the history again.
#[derive(Drop)]
pub struct Replies {
    pub(crate) looked: usize,
    pub(crate) places: ReplyPlaces,
}

impl Replies {
    /// No entry is looked at.
    pub fn new(alloc: Global) -> Replies
        ensures { AreRepliesOf result [] }
    {
        Replies {
            looked: 0,
            places: ReplyPlaces::new(alloc),
        }
    }

    /// Looks at the entries that came since the last look, each once. If memory runs out, some of them may have been
    /// looked at, and the next look goes on from there.
    pub fn look(&mut self, history: &History) -> Result<(), NoMemory>
        requires { AreRepliesOf self.old (take self.old.looked history.now) }
        ensures ok { OnOk result (AreRepliesOf self.new history.now) }
        ensures err { OnErr result (AreRepliesOf self.new (take self.new.looked history.now)) }
    {
        while self.looked < history.len() {
            let place = self.looked;
            note(&mut self.places, place, &history.entry(place).took().body)?;
            self.looked = place + 1;
        }
        Ok(())
    }

    /// Adds the lines of the trees from number `from` on, each by its reply: the first that the history took, or else
    /// `next`, the message that is taken next. A tree without a reply has no line. If memory runs out, the text stays as
    /// it is.
    pub fn push_lines(
        &self,
        text: &mut Text,
        script: &Script,
        history: &History,
        next: &Letter,
        from: usize,
    ) -> Result<(), NoMemory>
        requires replies { AreRepliesOf self.now history.now }
        requires from { from ≤ length script.now.trees }
        ensures ok { OnOk result
            (text.new ≡ text.old ++ reply_lines script.now history.now next.now.body from (drop from script.now.trees)) }
        ensures err { OnErr result (text.new ≡ text.old) }
    {
        let length = text.bytes().len();
        let added = self.push_rest(text, script, history, &next.body, script.trees(), from);
        text.all_or_none(length, added)
    }

    // The same of these trees, and `next` is what the message says. Where no memory is found some of the lines may stand
    // behind what the text had.
    fn push_rest(
        &self,
        text: &mut Text,
        script: &Script,
        history: &History,
        next: &Body,
        trees: &[Tree],
        from: usize,
    ) -> Result<(), NoMemory>
        requires replies { AreRepliesOf self.now history.now }
        requires names { AreAsciiTrees trees.now }
        requires from { from ≤ length trees.now }
        ensures ok { OnOk result
            (text.new ≡ text.old ++ reply_lines script.now history.now next.now from (drop from trees.now)) }
        ensures err { OnErr result (StartsWith text.new text.old) }
    {
        for (k, tree) in trees[from..].iter().enumerate() {
            let t = from + k;
            push_if_its(text, script, tree, t, self.reply(history, next, t))?;
        }
        Ok(())
    }

    // What says the reply of the tree of this number, if there is one: the message that the history took, or else `next`.
    fn reply<'a>(&self, history: &'a History, next: &'a Body, tree: usize) -> &'a Body
        requires { AreRepliesOf self.now history.now }
        ensures { reply_by tree result.now ≡ reply_or_next history.now next.now tree }
    {
        match place_of(&self.places, tree) {
            Some(place) => &history.entry(place).took().body,
            None => next,
        }
    }
}

// The place that is listed for a tree.
fn place_of(places: &ReplyPlaces, tree: usize) -> Option<usize>
    ensures { result ≡ place_listed places.now tree }
{
    match places.items().get(tree) {
        Some(place) => *place,
        None => None,
    }
}

// Lists the place of the entry that took a message of this body, if that is a reply and none is listed for its tree.
fn note(places: &mut ReplyPlaces, place: usize, body: &Body) -> Result<(), NoMemory>
    ensures ok { OnOk result
        ((t : ℕ) → place_listed places.new t ≡ option_or (place_listed places.old t) (reply_place place body.now t)) }
    ensures err { OnErr result ((t : ℕ) → place_listed places.new t ≡ place_listed places.old t) }
{
    match body {
        Body::Reply { tree, .. } => note_at(places, place, tree.0 as usize),
        _ => Ok(()),
    }
}

// Lists the place for this tree, if none is listed.
fn note_at(places: &mut ReplyPlaces, place: usize, tree: usize) -> Result<(), NoMemory>
    ensures ok { OnOk result
        ((t : ℕ) → place_listed places.new t ≡ option_or (place_listed places.old t) (if tree == t then Some place else None)) }
    ensures err { OnErr result ((t : ℕ) → place_listed places.new t ≡ place_listed places.old t) }
{
    if place_of(places, tree).is_some() {
        return Ok(());
    }
    make_places(places, tree)?;
    places.put(tree, Some(place));
    Ok(())
}

// Makes a place for this tree, where none is listed if it is new.
fn make_places(places: &mut ReplyPlaces, tree: usize) -> Result<(), NoMemory>
    ensures same { (t : ℕ) → place_listed places.new t ≡ place_listed places.old t }
    ensures there { OnOk result (tree < length places.new) }
{
    while places.items().len() <= tree {
        places.add(None)?;
    }
    Ok(())
}

// The line of the tree of this number, if a message of this body is its reply.
fn push_if_its(
    text: &mut Text,
    script: &Script,
    tree: &Tree,
    number: usize,
    body: &Body,
) -> Result<(), NoMemory>
    requires { IsAscii tree.now.name }
    ensures ok { OnOk result (text.new ≡ text.old ++ line_if_any script.now tree.now (reply_by number body.now)) }
    ensures err { OnErr result (StartsWith text.new text.old) }
{
    match body {
        Body::Reply {
            tree: of,
            version,
            answer,
        } if of.0 as usize == number => push_line(text, script, tree, *version, answer),
        _ => Ok(()),
    }
}

// The line of a tree of this version with this answer.
fn push_line(
    text: &mut Text,
    script: &Script,
    tree: &Tree,
    version: Version,
    answer: &Answer,
) -> Result<(), NoMemory>
    requires { IsAscii tree.now.name }
    ensures ok { OnOk result (text.new ≡ text.old ++ line_by script.now tree.now tree.now.kind version answer.now) }
    ensures err { OnErr result (StartsWith text.new text.old) }
{
    match tree.kind {
        TreeKind::Update => push_update(text, tree, version),
        TreeKind::Read => push_read(text, script, &tree.name, version, answer),
        TreeKind::Strict => push_strict(text, script, &tree.name, version, answer),
    }
}

// The line of a read tree of this version with the values of its answer.
fn push_read(
    text: &mut Text,
    script: &Script,
    name: &Name,
    version: Version,
    answer: &Answer,
) -> Result<(), NoMemory>
    requires { IsAscii name.now }
    ensures ok { OnOk result
        (text.new ≡ text.old ++ read_line name.now version.0 (got_text script.now (answer_values answer.now))) }
    ensures err { OnErr result (StartsWith text.new text.old) }
{
    push_version(text, b"read ", name, version)?;
    push_values(text, script, answer)?;
    text.push_all(b"\n")
}

// The values of an answer.
fn push_values(text: &mut Text, script: &Script, answer: &Answer) -> Result<(), NoMemory>
    ensures ok { OnOk result (text.new ≡ text.old ++ got_text script.now (answer_values answer.now)) }
    ensures err { OnErr result (StartsWith text.new text.old) }
{
    match answer {
        Answer::Whole(values) => push_got(text, script, values),
        Answer::Aborted(_) => Ok(()),
    }
}

// The line of a strict tree of this version: how it came out, by its answer.
fn push_strict(
    text: &mut Text,
    script: &Script,
    name: &Name,
    version: Version,
    answer: &Answer,
) -> Result<(), NoMemory>
    requires { IsAscii name.now }
    ensures ok { OnOk result
        (text.new ≡ text.old ++ strict_line name.now version.0 (outcome_by script.now answer.now)) }
    ensures err { OnErr result (StartsWith text.new text.old) }
{
    push_version(text, b"strict ", name, version)?;
    push_outcome(text, script, answer)?;
    text.push_all(b"\n")
}

// That the tree commits, with its values, or aborts, with the cause.
fn push_outcome(text: &mut Text, script: &Script, answer: &Answer) -> Result<(), NoMemory>
    ensures ok { OnOk result (text.new ≡ text.old ++ outcome_by script.now answer.now) }
    ensures err { OnErr result (StartsWith text.new text.old) }
{
    match answer {
        Answer::Whole(values) => {
            text.push_all(b" committed")?;
            push_got(text, script, values)
        }
        Answer::Aborted(cause) => {
            text.push_all(b" aborted")?;
            push_why(text, script, Some(cause.get()))
        }
    }
}
