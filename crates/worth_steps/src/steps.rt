// The steps of a sum or a top.
ghost use Rattle.std.specs.Prelude.{◌≡◌, ◌+◌, ◌<◌, ◌≤◌, ◌++◌, nat_le, drop, take, length, IfOk, IfSome, OnErr, OnOk};
ghost use Rattle.worth_steps.specs.Kept.{steps_back, steps_over};
ghost use Rattle.worth_steps.specs.Steps.{Ascends, act_on, newest_step, seen_to};
ghost use Rattle.worth_steps.specs.inside.Editing.{changed_number, first_own, is_set, number_below, revalued, stands_before, step_begun, step_gone_on, step_valued, steps_up_to, AreEdited, HasGoneOn, begun_at};

use commute_ops::{Amount, Kind, Op};
use script_parts::parts::Deed;
use std::alloc::Global;
use tv_base::{NoMemory, Seq, Version};

/// What the deeds of one version make of any value, and the item's value there.
#[derive(Clone, Copy, Debug, PartialEq, Eq)]
pub(crate) struct WorthStep {
    /// The version.
    pub(crate) version: Version,
    /// Whether a set is among the deeds. Then what is below doesn't count.
    pub(crate) cut: bool,
    /// What the deeds make, from the last set on.
    pub(crate) own: Amount,
    /// The item's value at the version.
    pub(crate) value: Amount,
}

/// An item before all deeds: its kind, and its number.
#[derive(Clone, Copy)]
pub(crate) struct Start<'a> {
    pub(crate) kind: Kind,
    pub(crate) first: &'a Amount,
}

/// Steps as they were.
type Steps = Seq<WorthStep, 0xffff_ffff_ffff_ffff>;

/// What a deed changed in the steps. It needs no memory if no step stood above.
#[derive(Drop)]
pub(crate) enum StepChange {
    /// The step at a place went on: what it was, and what those above it were.
    GoneOn(usize, WorthStep, Steps),
    /// A step began at a place: what those above it were.
    Begun(usize, Steps),
}

/// The number after a deed. None if it isn't in the range of amounts.
fn changed_number(number: &Amount, deed: &Deed) -> Option<Amount>
    ensures { IfSome result (λ n. n ≡ changed_number number.now deed.now) }
{
    match deed {
        Deed::Apply(Op::Add(amount)) => number.checked_add(*amount),
        Deed::Apply(Op::Top(amount)) => Some((*number).max(*amount)),
        Deed::Apply(Op::Put(_)) => Some(*number),
        Deed::Get => Some(*number),
        Deed::Set(amount) => Some(*amount),
        Deed::Draw(amount) => number.checked_sub(*amount),
    }
}

/// What the first deed of a version makes. None if it isn't in the range of amounts.
fn first_own(deed: &Deed) -> Option<Amount>
    ensures { IfSome result (λ n. n ≡ first_own deed.now) }
{
    match deed {
        Deed::Apply(Op::Add(amount)) => Some(*amount),
        Deed::Apply(Op::Top(amount)) => Some(*amount),
        Deed::Apply(Op::Put(_)) => Some(0),
        Deed::Get => Some(0),
        Deed::Set(amount) => Some(*amount),
        Deed::Draw(amount) => 0i128.checked_sub(*amount),
    }
}

/// Whether the deed is a set, after which what is below doesn't count.
fn is_set(deed: &Deed) -> bool
    ensures { result ≡ is_set deed.now }
{
    matches!(deed, Deed::Set(_))
}

/// A step of one deed, whose value isn't known yet.
fn step_begun(version: Version, deed: &Deed) -> Option<WorthStep>
    ensures { IfSome result (λ s. s ≡ step_begun version.0 deed.now) }
{
    let own = first_own(deed)?;
    Some(WorthStep {
        version,
        cut: is_set(deed),
        own,
        value: 0,
    })
}

/// A step with one deed more.
fn step_gone_on(step: &WorthStep, deed: &Deed) -> Option<WorthStep>
    ensures { IfSome result (λ s. s ≡ step_gone_on deed.now step.now) }
{
    let own = changed_number(&step.own, deed)?;
    let cut = step.cut || is_set(deed);
    Some(WorthStep { cut, own, ..*step })
}

/// A step with its value, from the number below it.
fn step_valued(kind: Kind, below: &Amount, step: &WorthStep) -> Option<WorthStep>
    ensures { IfSome result (λ s. s ≡ step_valued kind below.now step.now) }
{
    let value = acted(kind, below, step)?;
    Some(WorthStep { value, ..*step })
}

/// What a step makes of the number below it. None if it isn't in the range of amounts.
fn acted(kind: Kind, below: &Amount, step: &WorthStep) -> Option<Amount>
    ensures { IfSome result (λ n. n ≡ act_on kind step.now.cut step.now.own below.now) }
{
    if step.cut {
        return Some(step.own);
    }
    match kind {
        Kind::Top => Some((*below).max(step.own)),
        _ => below.checked_add(step.own),
    }
}

/// The steps with their values worked out, from the number below them.
fn revalued(
    alloc: Global,
    kind: Kind,
    below: &Amount,
    steps: &[WorthStep],
) -> Result<Vec<WorthStep>, NoMemory>
    ensures { IfOk result (λ made. made.items ≡ revalued kind below.now steps.now) }
{
    let mut made = Vec::with_capacity(alloc, steps.len())?;
    for step in steps {
        let next = step_valued(kind, last_value(below, &made), step).ok_or(NoMemory)?;
        made.push(next)?;
    }
    Ok(made)
}

/// The value of the last step, or the number below all if there is none.
fn last_value<'a>(below: &'a Amount, steps: &'a [WorthStep]) -> &'a Amount
    ensures { result.now ≡ number_below below.now (length steps.now) steps.now }
{
    number_below(below, steps, steps.len())
}

/// The number below a place.
fn number_below<'a>(first: &'a Amount, steps: &'a [WorthStep], place: usize) -> &'a Amount
    ensures { result.now ≡ number_below first.now place steps.now }
{
    if place == 0 {
        return first;
    }
    match steps.get(place - 1) {
        Some(step) => &step.value,
        None => first,
    }
}

/// A step with its value, from the number below a place.
fn valued_at(
    start: Start,
    steps: &[WorthStep],
    place: usize,
    step: &WorthStep,
) -> Result<WorthStep, NoMemory>
    ensures { IfOk result (λ s. s ≡ step_valued start.entry.kind (number_below start.entry.first.now place steps.now) step.now) }
{
    let below = number_below(start.first, steps, place);
    step_valued(start.kind, below, step).ok_or(NoMemory)
}

/// How many of the steps, which ascend, are of at most this version. If all are, it doesn't search.
fn steps_up_to(steps: &[WorthStep], version: Version) -> usize
    ensures within { result ≤ length steps.now }
    ensures place { Ascends steps.now → result ≡ steps_up_to version.0 steps.now }
{
    match steps.last() {
        Some(last) if version.0 < last.version.0 => halved(steps, version),
        _ => steps.len(),
    }
}

/// The same, found by halving.
fn halved(steps: &[WorthStep], version: Version) -> usize
    ensures within { result ≤ length steps.now }
    ensures place { Ascends steps.now → result ≡ steps_up_to version.0 steps.now }
{
    steps.partition_point(
        |step: &WorthStep| -> bool
            ensures { result ≡ nat_le step.now.version.0 version.0 }
        { step.version.0 <= version.0 },
    )
}

/// Whether the step before a place is of the version.
fn stands_before(steps: &[WorthStep], place: usize, version: Version) -> bool
    ensures { result ≡ stands_before place version.0 steps.now }
{
    if place == 0 {
        return false;
    }
    match steps.get(place - 1) {
        Some(step) => step.version.0 == version.0,
        None => false,
    }
}

/// The number that is seen at a version: that of the last step that isn't above it, or the first number if there is
/// none.
pub(crate) fn number_at<'a>(
    first: &'a Amount,
    steps: &'a [WorthStep],
    version: Version,
) -> &'a Amount
    ensures { Ascends steps.now → result.now ≡ seen_to first.now steps.now version.0 }
{
    number_below(first, steps, steps_up_to(steps, version))
}

/// The version of the last step, or 0 if there is none.
pub(crate) fn newest_step(steps: &[WorthStep]) -> Version
    ensures { Ascends steps.now → result.0 ≡ newest_step steps.now }
{
    match steps.last() {
        Some(step) => step.version,
        None => Version(0),
    }
}

/// Notes a deed of the version, after all that came. If no step stands above, only a new step needs memory.
pub(crate) fn note_step(
    start: Start,
    steps: &mut Vec<WorthStep>,
    version: Version,
    deed: &Deed,
) -> Result<StepChange, NoMemory>
    ensures ok { OnOk result (AreEdited start.entry.kind start.entry.first.now version.0 deed.now
        steps.old.items steps.new.items) }
    ensures back { IfOk result (λ c. steps_back c steps.new.items ≡ steps.old.items) }
    ensures err { OnErr result (steps.new.items ≡ steps.old.items) }
{
    let place = steps_up_to(steps, version);
    if stands_before(steps, place, version) {
        let change = go_on(start, steps, place - 1, deed)?;
        return Ok(change);
    }
    let step = step_begun(version, deed).ok_or(NoMemory)?;
    let change = begin(start, steps, place, &step)?;
    Ok(change)
}

/// The step at a place goes on with a deed, and the values above it are worked out anew.
fn go_on(
    start: Start,
    steps: &mut Vec<WorthStep>,
    place: usize,
    deed: &Deed,
) -> Result<StepChange, NoMemory>
    requires { place < length steps.old.items }
    ensures ok { OnOk result (HasGoneOn start.entry.kind start.entry.first.now place deed.now
        steps.old.items steps.new.items) }
    ensures back { IfOk result (λ c. steps_back c steps.new.items ≡ steps.old.items) }
    ensures err { OnErr result (steps.new.items ≡ steps.old.items) }
{
    let old = steps[place];
    let gone_on = step_gone_on(&old, deed).ok_or(NoMemory)?;
    let step = valued_at(start, steps, place, &gone_on)?;
    let mut above = revalued(
        *steps.allocator(),
        start.kind,
        &step.value,
        &steps[place + 1..],
    )?;
    steps[place] = step;
    swap_above(steps, place + 1, &mut above);
    Ok(StepChange::GoneOn(place, old, Steps::from_vec(above)))
}

/// A step begins at a place with a deed, and the values above it are worked out anew.
fn begin(
    start: Start,
    steps: &mut Vec<WorthStep>,
    place: usize,
    step: &WorthStep,
) -> Result<StepChange, NoMemory>
    requires { place ≤ length steps.old.items }
    ensures ok { OnOk result (steps.new.items
        ≡ begun_at start.entry.kind start.entry.first.now place step.now steps.old.items) }
    ensures back { IfOk result (λ c. steps_back c steps.new.items ≡ steps.old.items) }
    ensures err { OnErr result (steps.new.items ≡ steps.old.items) }
{
    let step = valued_at(start, steps, place, step)?;
    let mut above = revalued(*steps.allocator(), start.kind, &step.value, &steps[place..])?;
    steps.insert(place, step)?;
    swap_above(steps, place + 1, &mut above);
    Ok(StepChange::Begun(place, Steps::from_vec(above)))
}

/// Exchanges the steps from a place on with as many others.
fn swap_above(steps: &mut Vec<WorthStep>, place: usize, above: &mut Vec<WorthStep>)
    requires { place + length above.old.items ≡ length steps.old.items }
    ensures steps { steps.new.items ≡ take place steps.old.items ++ above.old.items }
    ensures above { above.new.items ≡ drop place steps.old.items }
{
    steps[place..].swap_with_slice(above);
}

/// Takes a change back.
pub(crate) fn take_back(steps: &mut Vec<WorthStep>, change: &StepChange)
    ensures { steps.new.items ≡ steps_back change.now steps.old.items }
{
    match change {
        StepChange::GoneOn(place, step, above) => {
            if *place < steps.len() {
                steps[*place] = *step;
                put_over(steps, *place + 1, above.items());
            }
        }
        StepChange::Begun(place, above) => {
            steps.pop();
            put_over(steps, *place, above.items());
        }
    }
}

/// Keeps the steps below a place, and puts these in place of the others, as far as there are as many.
fn put_over(steps: &mut Vec<WorthStep>, place: usize, above: &[WorthStep])
    ensures { steps.new.items ≡ steps_over place above.now steps.old.items }
{
    if steps.len() <= place {
        return;
    }
    let count = above.len().min(steps.len() - place);
    steps.truncate(place + count);
    steps[place..].copy_from_slice(&above[..count]);
}
