// What an item is worth at each version.
ghost use Rattle.std.specs.Prelude.{◌≡◌, ◌∷◌, [], true, false, IfOk, IsTrue, OnErr, OnOk};
ghost use Rattle.worth_steps.specs.Kept.{AreWorths, worths_back, AreWorthsWith, OfWorths};
ghost use Rattle.worth_steps.specs.Steps.{seen_to};
ghost use Rattle.worth_steps.specs.Worth.{MayBegin, alters, deed_suits, last_altered, value_kind, worth_of};
ghost use Rattle.worth_steps.specs.inside.Showing.{AreOrdered, newest_by_kind, shown_value, value_number};

use crate::change::{Changed, WorthChange};
use crate::puts::{self, Put};
use crate::steps::{self, Start, WorthStep};
use commute_ops::{Amount, Kind, SumValue, TopValue, Value};
use script_parts::parts::Deed;
use std::alloc::Global;
use std::marker::Model;
use tv_base::{NoMemory, Version};

/// An item's value at each version, after deeds that come in any order of versions.
#[derive(Drop)]
pub struct Worths {
    kind: Kind,
    first: Amount,
    steps: Vec<WorthStep>,
    puts: Vec<Put>,
}

impl Model for Worths {
    ghost use Rattle.worth_steps.specs.Kept.{WorthsData};

    ghost Value = { WorthsData };

    ghost view = { λ w. record { kind = w.kind; first = w.first; steps = w.steps.items; puts = w.puts.items } };
}

impl Worths {
    /// The worths of an item with this first value, before any deed. A bag is empty.
    pub fn new(alloc: Global, first: &Value) -> Worths
        requires { MayBegin first.now }
        ensures worths { AreWorths first.now [] result }
        ensures kind { result.kind ≡ value_kind first.now }
    {
        Worths {
            kind: value_kind(first),
            first: value_number(first),
            steps: Vec::new(alloc),
            puts: Vec::new(alloc),
        }
    }

    /// Notes a deed of a transaction of this version, behind all deeds that were noted, whatever their versions. A get
    /// changes nothing. Gives the change by which `undo` takes the deed back.
    ///
    /// `NoMemory` also comes if a number would leave the range of `Amount`. No script comes near that: it takes more
    /// than a hundred million deeds of the greatest magnitude. After an error the worths are as they were.
    pub fn note(&mut self, version: Version, deed: &Deed) -> Result<WorthChange, NoMemory>
        requires { IsTrue (deed_suits self.old.kind deed.now) }
        ensures noted { OnOk result (AreWorthsWith (record { version = version.0; deed = deed.now } ∷ [])
            self.old self.new) }
        ensures kind { self.new.kind ≡ self.old.kind }
        ensures back { IfOk result (λ c. worths_back c self.new ≡ self.old) }
        ensures err { OnErr result (self.new ≡ self.old) }
    {
        if !alters(deed) {
            return Ok(WorthChange {
                changed: Changed::Nothing,
            });
        }
        match puts::put_of(version, deed) {
            Some(put) => {
                let place = puts::note_put(&mut self.puts, &put)?;
                Ok(WorthChange {
                    changed: Changed::Put(place),
                })
            }
            None => {
                let start = Start {
                    kind: self.kind,
                    first: &self.first,
                };
                let change = steps::note_step(start, &mut self.steps, version, deed)?;
                Ok(WorthChange {
                    changed: Changed::Steps(change),
                })
            }
        }
    }

    /// Takes the last deed back, by the change that `note` gave for it. Needs no memory. If the change is of an earlier
    /// deed or of another item, nothing is said of the worths that are left.
    pub fn undo(&mut self, change: WorthChange)
        ensures { self.new ≡ worths_back change self.old }
    {
        match &change.changed {
            Changed::Nothing => {}
            Changed::Steps(change) => steps::take_back(&mut self.steps, change),
            Changed::Put(place) => puts::take_out(&mut self.puts, *place),
        }
    }

    /// The item's value at a version. Only a bag needs memory.
    pub fn at(&self, alloc: Global, version: Version) -> Result<Value, NoMemory>
        ensures worth { IfOk result (λ w. OfWorths self.now (λ first ns. w ≡ worth_of first ns version.0)) }
        ensures only_bags { OnErr result (self.now.kind ≡ Kind.Bag) }
    {
        let value = self.shown(alloc, version)?;
        Ok(value)
    }

    /// Whether this is the item's value at a version.
    pub fn is_at(&self, version: Version, value: &Value) -> bool
        ensures yes { result ≡ true → OfWorths self.now (λ first ns. worth_of first ns version.0 ≡ value.now) }
        ensures no { result ≡ false → OfWorths self.now (λ first ns. worth_of first ns version.0 ≡ value.now → ⊥) }
    {
        self.shows(version, value)
    }

    /// The greatest version with a deed that alters the item, or 0 if there is none.
    pub fn last(&self) -> Version
        ensures { OfWorths self.now (λ first ns. result.0 ≡ last_altered ns) }
    {
        self.newest()
    }

    /// The number of a sum or a top at a version.
    fn number(&self, version: Version) -> &Amount
        ensures { AreOrdered self.now → result.now ≡ seen_to self.now.first self.now.steps version.0 }
    {
        steps::number_at(&self.first, &self.steps, version)
    }

    /// The value at a version, by what is kept.
    fn shown(&self, alloc: Global, version: Version) -> Result<Value, NoMemory>
        ensures shown { IfOk result (λ w. AreOrdered self.now → w ≡ shown_value self.now version.0) }
        ensures only_bags { OnErr result (self.now.kind ≡ Kind.Bag) }
    {
        match self.kind {
            Kind::Sum => Ok(Value::Sum(SumValue(*self.number(version)))),
            Kind::Top => Ok(Value::Top(TopValue(*self.number(version)))),
            Kind::Bag => puts::bag_at(alloc, &self.puts, version),
        }
    }

    /// Whether this is the value at a version, by what is kept.
    fn shows(&self, version: Version, value: &Value) -> bool
        ensures yes { result ≡ true → AreOrdered self.now → shown_value self.now version.0 ≡ value.now }
        ensures no { result ≡ false → AreOrdered self.now → shown_value self.now version.0 ≡ value.now → ⊥ }
    {
        match (self.kind, value) {
            (Kind::Sum, Value::Sum(sum)) => *self.number(version) == sum.0,
            (Kind::Top, Value::Top(top)) => *self.number(version) == top.0,
            (Kind::Bag, Value::Bag(bag)) => puts::shows(&self.puts, version, bag.items()),
            _ => false,
        }
    }

    /// The greatest version of a step or a put.
    fn newest(&self) -> Version
        ensures { AreOrdered self.now → result.0 ≡ newest_by_kind self.now.kind self.now }
    {
        match self.kind {
            Kind::Bag => puts::newest_put(&self.puts),
            _ => steps::newest_step(&self.steps),
        }
    }
}

/// Whether a deed alters its item.
fn alters(deed: &Deed) -> bool
    ensures { result ≡ alters deed.now }
{
    !matches!(deed, Deed::Get)
}

/// The kind of a value.
fn value_kind(value: &Value) -> Kind
    ensures { result ≡ value_kind value.now }
{
    match value {
        Value::Sum(_) => Kind::Sum,
        Value::Top(_) => Kind::Top,
        Value::Bag(_) => Kind::Bag,
    }
}

/// The number of a sum or a top.
fn value_number(value: &Value) -> Amount
    ensures { result ≡ value_number value.now }
{
    match value {
        Value::Sum(sum) => sum.0,
        Value::Top(top) => top.0,
        Value::Bag(_) => 0,
    }
}
