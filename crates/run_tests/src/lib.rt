//! Tests of steps and runs on one thread: steps of `nodes` and of other `actors` made by one call, `worlds` message by
//! message, and pickers (`schedules`); all use `common`.
#![tactic(auto)]

#[cfg(test)]
mod actors;
#[cfg(test)]
mod common;
#[cfg(test)]
mod nodes;
#[cfg(test)]
mod schedules;
#[cfg(test)]
mod worlds;
