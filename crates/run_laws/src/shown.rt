// What holds of a version that is shown, or that is swept to.
ghost use Rattle.std.specs.Prelude.{reverse};
ghost use Rattle.advance_laws.specs.Given.{IsGivenAnew};
ghost use Rattle.advance_laws.specs.Quiet.{IsGivenInQuiet};
ghost use Rattle.run_laws.specs.EachRun.{EachInFlight, EachSent, OfEachLaterRun, OfEachRun, OfEachLosslessStep, OfEachStep};
ghost use Rattle.run_laws.specs.Shown.{IsBackedBy, IsClosedBy};

/// A version that nodes are told to show is no later than the latest one so far, or it is the next one: then nothing
/// counted of it is outstanding, and every node's update version is above it. A version that nodes are told to sweep to
/// is no later than the latest one so far, or it is the next one: then nothing counted of the version before it is
/// outstanding, and every node's read version is at least it. Before nodes are told any, the latest one is version 0,
/// with which they begin. This holds for every script, also if the coordinator forgets and tells nodes again what they
/// have done.
pub fn orders_are_given_before_or_in_quiet()
    ensures { OfEachStep (λ s past e. EachSent (IsGivenAnew s past) e) }
{}

/// If the coordinator keeps its state, an entry sends Show(v) only if nothing counted of version v is outstanding and
/// every node's update version is above v, and Sweep(v) only if nothing counted of version v - 1 is outstanding and
/// every node's read version is at least v.
pub fn orders_are_given_in_quiet()
    ensures { OfEachLosslessStep (λ s past e. EachSent (IsGivenInQuiet s past) e) }
{}

/// While Show(v) is in flight, or an order that stands for it, each begun update and strict transaction of version at
/// most v is complete. While Sweep(v) is, or an order that stands for it, each begun read of a version below v is
/// complete.
pub fn what_is_shown_is_whole()
    ensures { OfEachRun (λ s past. EachInFlight s past (IsBackedBy s (reverse past))) }
{}

/// Once Show(v) was in flight, no update or strict transaction gets a version at most v any more. Once Sweep(v) was, no
/// read gets one below v.
pub fn nothing_comes_to_what_is_shown()
    ensures { OfEachLaterRun (λ s past later. EachInFlight s past (IsClosedBy s (reverse past) (reverse later))) }
{}
