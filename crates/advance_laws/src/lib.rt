//! Laws of advancements, for runs of every script in which each message that came to a node so far brought an enabled
//! one. If the coordinator keeps its state: which messages are in flight in which phase; how far the nodes' versions
//! are from the coordinator's; that versions are shown and swept to only in quiescence; and that the next message comes
//! in time. If it may forget: how far nodes are from what they were told in any epoch; that a version is shown, or
//! swept to, only if it was before, or in quiescence; that the next message comes in time; that it recovers, and every
//! wanted advancement ends, so no run stalls; and what its messages cost. In both cases: requests are completions plus
//! outstanding counted messages, and rounds of counts agree. The laws of all runs that follow are in `run_laws`.
#![tactic(auto)]
