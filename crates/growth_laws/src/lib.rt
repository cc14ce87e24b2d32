//! Laws of scripts that grow while they run. A run of a script is one of each script that goes on from it, as long as
//! the client waits at one of its settle rows; what records make of a script, so that it goes on; and a script and a
//! seed have one run.
#![tactic(auto)]

ghost use Rattle.growth_laws.specs.Adding.{RecordsGrow};
ghost use Rattle.growth_laws.specs.Growth.{
  ClientsWait,
  GrowingIsAnOrder,
  RunsGrow,
  SchedulesGrow,
};
ghost use Rattle.growth_laws.specs.Schedules.{ScheduledRunsAreOne};

/// Each run of a valid script in which the client has rows left is a run of each script that goes on from it: the same
/// letters are in flight, and the actors are the same, but for the client's places for answers of more trees.
pub fn runs_grow()
    ensures { RunsGrow }
{}

/// In each run of a script whose rows end with a settle row, the client has rows left until it finishes.
pub fn clients_wait()
    ensures { ClientsWait }
{}

/// Where a script goes on, a schedule finds the same letters before each entry, and has the same number for it.
pub fn schedules_grow()
    ensures { SchedulesGrow }
{}

/// A script goes on from itself, and from each script from which one goes on that it goes on from: so it may go on time
/// and again.
pub fn growing_is_an_order()
    ensures { GrowingIsAnOrder }
{}

/// Behind a settle row each record, but that of an item or a pick, leaves the trees and rows that were there as they are.
/// It makes the script go on, unless strict trees, or rows that make the coordinator forget, first come with it.
pub fn records_grow()
    ensures { RecordsGrow }
{}

/// A script and a seed have one run.
pub fn scheduled_runs_are_one()
    ensures { ScheduledRunsAreOne }
{}
