ghost use Rattle.std.specs.Prelude.{ℕ, ◌≡◌, ◌≢◌, ◌++◌, ◌+◌, ◌-◌, ◌<◌, ◌≤◌, max, nat_lt, [], length, take, drop, IfOk, IfErr, IsNone, IsSome, IsTrue, OnErr, OnOk, Some, None, slice_get, slice_index_or, vec_capacity, ◌↔◌};
ghost use Rattle.std.specs.Option.{option_copied, is_some};
ghost use Rattle.tree_home.specs.Maps.{AreAscending, by_tree, put_at};
ghost use Rattle.tree_home.specs.HeldAnswers.{acked, answer_when_acked, held_answers, held_for, held_in, holding, waits_for_more};
ghost use Rattle.tree_home.specs.Notices.{Gets, joined_gets, joined_with};
ghost use Rattle.tree_home.specs.Homes.{no_homes, open_trees, home_in, new_tree, begun, with_notice, noted, forgotten, gathered_with, homes_after_notice, missing_count, missing_in, misses, is_missing, answer_of, last_version, outcome, prospect, prospect_of, IsNotedAmong, MissesSome, completed_version};

use crate::table::TreeTable;
use crate::tree_map::{find, insert, remove};
use commute_ops::{Value, Values};
use std::alloc::Global;
use std::collections::BTreeMap;
use std::marker::Model;
use tv_base::{ItemNo, NoMemory, Seq, SubNo, TreeNo, Version};

/// A tree that is open at its home: its notices are gathered. Contracts see its version, and for each subtransaction
/// the values of its notice, or None if it is missing.
#[derive(Drop)]
pub struct OpenTree {
    /// The version that the tree runs in.
    version: Version,
    /// A bit for each subtransaction whose notice is missing, the root's lowest.
    missing: u64,
    /// How many subtransactions the tree has.
    subs: u32,
    /// The values of notices by subtransaction, with room for all of them. A notice past its end has none.
    values: Vec<Values>,
}

impl Model for OpenTree {
    ghost use Rattle.std.specs.Prelude.{length, vec_capacity};
    ghost use Rattle.tree_home.specs.Notices.{OpenTreeData, IsOpenTree, notices_of};

    ghost Value = { OpenTreeData };

    ghost view = { λ o. record { version = o.version; notices = notices_of o.subs o.missing o.values.items } };

    ghost invariant = { λ o. IsOpenTree o.subs o.missing (length o.values.items) (vec_capacity o.values) };
}

impl OpenTree {
    /// No tree yet, to be opened.
    pub(crate) fn new(alloc: Global) -> OpenTree {
        OpenTree {
            version: Version(0),
            missing: 0,
            subs: 0,
            values: Vec::new(alloc),
        }
    }

    /// Becomes a tree of `subs` subtransactions, at most 64, whose notices are all missing. It asks for memory only if it
    /// had room for the values of fewer notices before.
    pub(crate) fn renew(&mut self, subs: u32, version: Version) -> Result<(), NoMemory>
        requires some { 0 < subs }
        requires few { subs ≤ 64 }
        ensures { OnOk result (self.new ≡ new_tree subs version) }
    {
        self.values.clear();
        self.values.reserve_exact(subs as usize)?;
        self.version = version;
        self.missing = u64::MAX >> (64 - subs);
        self.subs = subs;
        Ok(())
    }

    /// Gives the values back, and keeps the room for them.
    pub(crate) fn clear(&mut self) {
        self.values.clear();
    }

    /// Notes the values of `sub` as its notice. It needs no memory.
    #[inline(always)]
    pub(crate) fn note(&mut self, alloc: Global, sub: SubNo, values: Values)
        requires { IsTrue (is_missing (slice_get self.old.notices sub.0)) }
        ensures { self.new ≡ with_notice sub values self.old }
    {
        self.missing = self.missing & !(1u64 << sub.0);
        put_values(&mut self.values, alloc, sub.0 as usize, values);
    }

    /// How many subtransactions the tree has.
    fn subs(&self) -> u32
        ensures { result ≡ length self.now.notices }
    {
        self.subs
    }

    /// The version that the tree runs in.
    fn version(&self) -> Version
        ensures { result ≡ self.now.version }
    {
        self.version
    }

    /// Whether `sub` is one of the tree's subtransactions, and its notice is missing.
    #[inline(always)]
    fn misses(&self, sub: SubNo) -> bool
        ensures { result ≡ is_missing (slice_get self.now.notices sub.0) }
    {
        if self.subs <= sub.0 {
            return false;
        }
        (self.missing >> sub.0) & 1 == 1
    }

    /// Whether another notice is missing beside that of `sub`.
    #[inline(always)]
    fn misses_another(&self, sub: SubNo) -> bool
        requires { IsTrue (is_missing (slice_get self.now.notices sub.0)) }
        ensures { result ≡ nat_lt 1 (missing_count self.now.notices) }
    {
        self.missing != 1u64 << sub.0
    }

    /// The version that the tree runs in. None exactly if another notice is missing beside that of `sub`.
    fn last_version(&self, sub: SubNo) -> Option<Version>
        requires { IsTrue (is_missing (slice_get self.now.notices sub.0)) }
        ensures { result ≡ last_version self.now }
    {
        if self.misses_another(sub) {
            return None;
        }
        Some(self.version())
    }

    /// All values by subtransaction, with those of `sub` in their place: those of the tree's answer, if no other notice is
    /// missing.
    fn gather(
        &self,
        alloc: Global,
        sub: SubNo,
        values: &[(ItemNo, Value)],
    ) -> Result<Values, NoMemory>
        requires { IsTrue (is_missing (slice_get self.now.notices sub.0)) }
        ensures { IfOk result
            (λ all. missing_count self.now.notices ≤ 1 → gathered_with sub values.now self.now ≡ Some all) }
    {
        gather_lists(alloc, self.values.as_slice(), sub.0 as usize, values)
    }
}

/// The answer to a tree.
#[derive(Drop)]
pub struct Answered {
    pub tree: TreeNo,
    /// The version that the tree ran in.
    pub version: Version,
    /// The values of all its subtransactions, in the order of their numbers.
    pub values: Values,
}

/// What a notice brings.
#[derive(Drop)]
pub enum Noted {
    /// This many notices of the tree are still missing, at least 1.
    Missing(u32),
    /// None is missing: the tree is answered and gone.
    Answered(Answered),
}

/// What would come of a notice.
#[derive(Drop)]
pub enum Prospect {
    /// Nothing: the notice isn't missing. Its tree isn't open, has no such subtransaction, or has the notice already.
    NotMissing,
    /// It would be noted: another notice of the tree is missing too.
    Noted,
    /// No other notice is missing: this would be the answer to the tree.
    Answered(Answered),
}

/// An answer that waits until each node that its tree visits has acknowledged the decision.
#[derive(Drop)]
pub struct Held {
    pub answered: Answered,
    /// How many acknowledgements are missing, at least 1.
    pub waits: u32,
}

/// The trees that have their home here and aren't answered yet, each in a place of a table, and the answers that are
/// held here, by tree number. To look for a tree or one of its notices, to note one and to forget a tree takes constant
/// time, whatever is open here, and so it does to begin one, but when the table grows. An answer takes time linear in
/// its values. To hold an answer and to note an acknowledgement takes time logarithmic in how many are held.
///
/// The table takes four bytes for each tree number up to the greatest that was begun here, and as many places as trees
/// were open at a time. A place that is used again keeps its room for the values of notices, so a tree that has no more
/// subtransactions than one before it there is begun without asking for memory.
#[derive(Drop)]
pub struct Homes {
    alloc: Global,
    table: TreeTable,
    held: BTreeMap<TreeNo, Held>,
}

impl Model for Homes {
    ghost use Rattle.tree_home.specs.Homes.{HomesData};

    ghost Value = { HomesData };

    ghost use Rattle.tree_home.specs.Homes.{AreMaps};

    ghost view = { λ h. record { opened = h.table; held = h.held.entries } };

    ghost invariant = { λ h. AreMaps (record { opened = h.table; held = h.held.entries }) };
}

impl Homes {
    /// No tree is open, and no answer is held.
    pub fn new(alloc: Global) -> Homes
        ensures { result ≡ no_homes }
    {
        Homes {
            alloc,
            table: TreeTable::new(alloc),
            held: BTreeMap::new(alloc),
        }
    }

    /// Whether the tree is open here.
    #[inline(always)]
    pub fn has(&self, tree: TreeNo) -> bool
        ensures { result ≡ is_some (home_in tree (open_trees self.now)) }
    {
        self.table.find(tree).is_some()
    }

    /// Whether the tree is open here, `sub` is one of its subtransactions, and the notice of `sub` is missing.
    #[inline(always)]
    pub fn misses(&self, tree: TreeNo, sub: SubNo) -> bool
        ensures { result ≡ misses tree sub (open_trees self.now) }
    {
        match self.table.find(tree) {
            Some(opened) => opened.misses(sub),
            None => false,
        }
    }

    /// Adds a tree of `subs` subtransactions, at most 64, whose notices are all missing. If no memory is found, the
    /// homes are unchanged.
    pub fn begin(&mut self, tree: TreeNo, subs: u32, version: Version) -> Result<(), NoMemory>
        requires some { 0 < subs }
        requires few { subs ≤ 64 }
        requires absent { home_in tree (open_trees self.old) ≡ None }
        ensures ok { OnOk result (open_trees self.new ≡ begun tree subs version (open_trees self.old)) }
        ensures held { self.new.held ≡ self.old.held }
        ensures err { OnErr result (self.new ≡ self.old) }
        ensures was_ascending { AreAscending self.old.opened }
    {
        let alloc = self.alloc;
        self.table.begin(alloc, tree, subs, version)?;
        Ok(())
    }

    /// Notes the values of `sub` as its notice. If no other was missing, the tree is gone and its answer is given. The
    /// other trees stay. If no memory is found, the homes are unchanged and the values come back.
    #[tactic(auto, using(crate::proofs::Gathered::telling))]
    pub fn note(
        &mut self,
        tree: TreeNo,
        sub: SubNo,
        values: Values,
    ) -> Result<Noted, (NoMemory, Values)>
        requires { IsTrue (misses tree sub (open_trees self.old)) }
        ensures noted { IfOk result (λ told. told ≡ outcome tree sub values (open_trees self.old)) }
        ensures missing { IfOk result (λ told. MissesSome told) }
        ensures homes { OnOk result (open_trees self.new ≡ homes_after_notice tree sub values (open_trees self.old)) }
        ensures held { self.new.held ≡ self.old.held }
        ensures refused { IfErr result (λ e. e.1 ≡ values) }
        ensures err { OnErr result (self.new ≡ self.old) }
    {
        match self.would_answer(tree, sub, &values) {
            Err(e) => Err((e, values)),
            Ok(Prospect::NotMissing) => unreachable!(),
            Ok(Prospect::Noted) => {
                self.put_notice(tree, sub, values);
                Ok(Noted::Missing(self.still_missing(tree)))
            }
            Ok(Prospect::Answered(answer)) => {
                self.forget(tree);
                Ok(Noted::Answered(answer))
            }
        }
    }

    /// What would come of the notice of `sub` with these values, found in one search. A tree that would be answered has
    /// the answer that `note` would give.
    #[tactic(auto, using(crate::proofs::Gathered::answering))]
    #[inline(always)]
    pub fn would_answer(
        &self,
        tree: TreeNo,
        sub: SubNo,
        values: &Values,
    ) -> Result<Prospect, NoMemory>
        ensures prospect { IfOk result (λ found. found ≡ prospect tree sub values.now (open_trees self.now)) }
        ensures among { IfOk result (IsNotedAmong (missing_in tree (open_trees self.now))) }
    {
        match self.table.find(tree) {
            Some(opened) if opened.misses(sub) => {
                let answer = answer(self.alloc, tree, opened, sub, values.items())?;
                Ok(prospect_of(answer))
            }
            _ => Ok(Prospect::NotMissing),
        }
    }

    /// The version of the answer that the notice of `sub` completes, whatever values it brings. None exactly if that
    /// notice isn't missing, or another notice of the tree is missing too. It needs no memory.
    #[tactic(auto, using(crate::proofs::Gathered::telling_version))]
    pub fn would_answer_in(&self, tree: TreeNo, sub: SubNo) -> Option<Version>
        ensures { (values : Gets) → result ≡ completed_version tree sub values (open_trees self.now) }
    {
        match self.table.find(tree) {
            Some(opened) if opened.misses(sub) => opened.last_version(sub),
            _ => None,
        }
    }

    /// How many notices of the tree are missing, 0 if the tree isn't open here.
    fn still_missing(&self, tree: TreeNo) -> u32
        ensures { result ≡ missing_in tree (open_trees self.now) }
    {
        match self.table.find(tree) {
            Some(opened) => count_missing(opened),
            None => 0,
        }
    }

    /// Removes a tree. The others stay. It needs no memory.
    #[inline(always)]
    pub fn forget(&mut self, tree: TreeNo)
        requires { IsSome (home_in tree (open_trees self.old)) }
        ensures forgotten { open_trees self.new ≡ forgotten tree (open_trees self.old) }
        ensures held { self.new.held ≡ self.old.held }
        ensures ascending { AreAscending self.new.opened }
    {
        self.table.forget(tree);
    }

    /// Notes the values of `sub` as its notice. Another notice of the tree is missing too. It needs no memory.
    #[inline(always)]
    pub fn put_notice(&mut self, tree: TreeNo, sub: SubNo, values: Values)
        requires misses { IsTrue (misses tree sub (open_trees self.old)) }
        requires another { 1 < missing_in tree (open_trees self.old) }
        ensures noted { open_trees self.new ≡ noted tree sub values (open_trees self.old) }
        ensures held { self.new.held ≡ self.old.held }
    {
        let alloc = self.alloc;
        self.table.note(alloc, tree, sub, values);
    }

    /// Holds an answer until `waits` acknowledgements have come. The open trees and the other answers stay. If no
    /// memory is found, the homes are unchanged and the answer comes back.
    pub fn hold(&mut self, answered: Answered, waits: u32) -> Result<(), (NoMemory, Answered)>
        requires some { 0 < waits }
        requires absent { held_in answered.tree (held_answers self.old) ≡ None }
        ensures ok { OnOk result (held_answers self.new ≡ holding answered waits (held_answers self.old)) }
        ensures opened { self.new.opened ≡ self.old.opened }
        ensures refused { IfErr result (λ e. e.1 ≡ answered) }
        ensures err { OnErr result (self.new ≡ self.old) }
        ensures was_ascending { AreAscending self.old.held }
    {
        hold_answer(&mut self.held, answered, waits)
    }

    /// Notes an acknowledgement for a tree whose answer is held. None exactly if another is still missing: then one
    /// fewer is. Else the answer is given, and is no longer held. The open trees and the other answers stay. It needs
    /// no memory.
    pub fn acked(&mut self, tree: TreeNo) -> Option<Answered>
        requires { IsSome (held_in tree (held_answers self.old)) }
        ensures answer { result ≡ answer_when_acked tree (held_answers self.old) }
        ensures held { held_answers self.new ≡ acked tree (held_answers self.old) }
        ensures opened { self.new.opened ≡ self.old.opened }
        ensures ascending { AreAscending self.new.held }
    {
        acknowledge(&mut self.held, tree)
    }

    /// Drops the answer that is held for a tree, however many acknowledgements are missing. The open trees and the
    /// other answers stay. It needs no memory.
    pub fn take_back(&mut self, tree: TreeNo)
        ensures held { held_answers self.new ≡ put_at tree.0 None (held_answers self.old) }
        ensures opened { self.new.opened ≡ self.old.opened }
        ensures ascending { AreAscending self.new.held }
    {
        remove(&mut self.held, tree);
    }

    /// The answer that is held for a tree, and how many acknowledgements are missing. None exactly if none is held.
    pub fn held(&self, tree: TreeNo) -> Option<&Held>
        ensures { option_copied result ≡ held_in tree (held_answers self.now) }
    {
        find(&self.held, tree)
    }
}

/// Puts the values of `sub` at their place. It needs no memory.
fn put_values(lists: &mut Vec<Values>, alloc: Global, sub: usize, values: Values)
    requires { sub < vec_capacity lists.old }
    ensures at { slice_index_or lists.new.items sub [] ≡ values }
    ensures others { (k : ℕ) → k ≢ sub → slice_index_or lists.new.items k [] ≡ slice_index_or lists.old.items k [] }
    ensures length { length lists.new.items ≤ max (length lists.old.items) (sub + 1) }
    ensures room { vec_capacity lists.new ≡ vec_capacity lists.old }
{
    if sub < lists.len() {
        lists[sub] = values;
        return;
    }
    if values.items().is_empty() {
        return;
    }
    pad(lists, alloc, sub);
    lists.push_reserved(values);
}

/// Adds empty lists up to `sub`. It needs no memory.
fn pad(lists: &mut Vec<Values>, alloc: Global, sub: usize)
    requires long { length lists.old.items ≤ sub }
    requires room { sub < vec_capacity lists.old }
    ensures same { (k : ℕ) → slice_index_or lists.new.items k [] ≡ slice_index_or lists.old.items k [] }
    ensures length { length lists.new.items ≡ sub }
    ensures room { vec_capacity lists.new ≡ vec_capacity lists.old }
{
    'padding: while lists.len() < sub {
        lists.push_reserved(Values::new(alloc));
    }
}

/// Puts an answer under its tree's number. If no memory is found, the map is unchanged and the answer comes back.
fn hold_answer(
    held: &mut BTreeMap<TreeNo, Held>,
    answered: Answered,
    waits: u32,
) -> Result<(), (NoMemory, Answered)>
    ensures ok { OnOk result (by_tree held.new.entries ≡ holding answered waits (by_tree held.old.entries)) }
    ensures refused { IfErr result (λ e. e.1 ≡ answered) }
    ensures err { OnErr result (held.new.entries ≡ held.old.entries) }
    ensures ascending { AreAscending held.new.entries }
    ensures was_ascending { AreAscending held.old.entries }
{
    match insert(held, answered.tree, Held { answered, waits }) {
        Ok(()) => Ok(()),
        Err((e, refused)) => Err((e, refused.answered)),
    }
}

/// Whether another acknowledgement of a tree is missing beside the next.
fn waits_for_more(held: &BTreeMap<TreeNo, Held>, tree: TreeNo) -> bool
    ensures { result ≡ waits_for_more (held_in tree (by_tree held.now.entries)) }
{
    match find(held, tree) {
        Some(found) => 1 < found.waits,
        None => false,
    }
}

/// Makes one acknowledgement of a tree fewer missing, if another is missing beside it.
fn count_down(held: &mut BTreeMap<TreeNo, Held>, tree: TreeNo)
    requires { IsTrue (waits_for_more (held_in tree (by_tree held.old.entries))) }
    ensures acked { by_tree held.new.entries ≡ acked tree (by_tree held.old.entries) }
    ensures ascending { AreAscending held.new.entries }
{
    let found = held.get_mut(&tree).unwrap();
    one_fewer(found);
}

/// One acknowledgement fewer is missing.
fn one_fewer(found: &mut Held)
    requires { 1 < found.old.waits }
    ensures { found.new ≡ held_for (found.old.waits - 1) found.old.answered }
{
    found.waits -= 1;
}

/// Notes an acknowledgement for a tree, and gives the answer if none is missing after it.
#[tactic(auto, using(crate::proofs::Holding::acking))]
fn acknowledge(held: &mut BTreeMap<TreeNo, Held>, tree: TreeNo) -> Option<Answered>
    requires { IsSome (held_in tree (by_tree held.old.entries)) }
    ensures answer { result ≡ answer_when_acked tree (by_tree held.old.entries) }
    ensures acked { by_tree held.new.entries ≡ acked tree (by_tree held.old.entries) }
    ensures ascending { AreAscending held.new.entries }
{
    if waits_for_more(held, tree) {
        count_down(held, tree);
        return None;
    }
    match remove(held, tree) {
        Some(found) => Some(found.answered),
        None => None,
    }
}

/// How many notices are missing.
fn count_missing(opened: &OpenTree) -> u32
    ensures { result ≡ missing_count opened.now.notices }
{
    let subs = opened.subs();
    let mut missing = 0;
    for k in 0..subs {
        if opened.misses(SubNo(k)) {
            missing += 1;
        }
    }
    missing
}

/// What would come of a notice that is missing, by the answer that it gives.
fn prospect_of(answer: Option<Answered>) -> Prospect
    ensures { result ≡ prospect_of answer }
{
    match answer {
        None => Prospect::Noted,
        Some(answer) => Prospect::Answered(answer),
    }
}

/// The answer of a tree with the values of `sub`, or None if another notice is missing too.
#[tactic(auto, using(crate::proofs::Gathered::completing))]
fn answer(
    alloc: Global,
    tree: TreeNo,
    opened: &OpenTree,
    sub: SubNo,
    values: &[(ItemNo, Value)],
) -> Result<Option<Answered>, NoMemory>
    requires { IsTrue (is_missing (slice_get opened.now.notices sub.0)) }
    ensures answer { IfOk result (λ answer. answer ≡ answer_of tree sub values.now (Some opened.now)) }
    ensures none { IfOk result (λ answer. IsNone answer ↔ (1 < missing_count opened.now.notices)) }
{
    if opened.misses_another(sub) {
        return Ok(None);
    }
    let values = opened.gather(alloc, sub, values)?;
    Ok(Some(Answered {
        tree,
        version: opened.version(),
        values,
    }))
}

/// All values of these lists, with others in the place of `sub`'s.
fn gather_lists(
    alloc: Global,
    lists: &[Values],
    sub: usize,
    values: &[(ItemNo, Value)],
) -> Result<Values, NoMemory>
    ensures { IfOk result (λ all. all ≡ joined_with sub values.now lists.now) }
{
    let mut all = Seq::new(alloc);
    append_lists(&mut all, alloc, before(lists, sub))?;
    append(&mut all, alloc, values)?;
    append_lists(&mut all, alloc, after(lists, sub))?;
    Ok(all)
}

/// The lists before that of `sub`.
fn before(lists: &[Values], sub: usize) -> &[Values]
    ensures { result.now ≡ take sub lists.now }
{
    if sub < lists.len() {
        &lists[..sub]
    } else {
        lists
    }
}

/// The lists after that of `sub`.
fn after(lists: &[Values], sub: usize) -> &[Values]
    ensures { result.now ≡ drop (sub + 1) lists.now }
{
    if sub < lists.len() {
        &lists[sub + 1..]
    } else {
        &lists[lists.len()..]
    }
}

/// Adds copies of the values of lists.
fn append_lists(all: &mut Values, alloc: Global, lists: &[Values]) -> Result<(), NoMemory>
    ensures { OnOk result (all.new ≡ all.old ++ joined_gets lists.now) }
{
    for list in lists {
        append(all, alloc, list.items())?;
    }
    Ok(())
}

/// Adds copies of values.
fn append(all: &mut Values, alloc: Global, values: &[(ItemNo, Value)]) -> Result<(), NoMemory>
    ensures { OnOk result (all.new ≡ all.old ++ values.now) }
{
    for entry in values {
        all.push((entry.0, entry.1.copy(alloc)?))?;
    }
    Ok(())
}
